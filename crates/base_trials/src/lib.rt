//! Tests of small crates: trees, hashes, the lock, ends, the drill, and logs.
#![tactic(auto)]

#[cfg(test)]
mod drills;
#[cfg(test)]
mod hashes;
#[cfg(test)]
mod lines;
#[cfg(test)]
mod logs;
#[cfg(test)]
mod schedules;
#[cfg(test)]
mod sources;
#[cfg(test)]
mod spelling;
