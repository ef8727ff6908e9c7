//! Tests of the lock, the history and the running store, from one pass to a desk.
#![tactic(auto)]

#[cfg(test)]
mod creating;
#[cfg(test)]
mod desks;
#[cfg(test)]
mod histories;
#[cfg(test)]
mod locking;
#[cfg(test)]
mod passes;
#[cfg(test)]
mod roots;
#[cfg(test)]
mod sweeping;
