//! Tests of the store as a pure machine, through its public calls.
#![tactic(auto)]

#[cfg(test)]
mod collections;
#[cfg(test)]
mod courses;
#[cfg(test)]
mod driving;
#[cfg(test)]
mod endings;
#[cfg(test)]
mod histories;
#[cfg(test)]
mod keeping;
#[cfg(test)]
mod next_steps;
#[cfg(test)]
mod orders;
#[cfg(test)]
mod outcomes;
#[cfg(test)]
mod programs;
#[cfg(test)]
mod replays;
#[cfg(test)]
mod searches;
#[cfg(test)]
mod states;
#[cfg(test)]
mod sweeping;
