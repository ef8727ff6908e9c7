//! Trials of rewriting over the store of one thread: worked rows, and rules made by chance, which
//! come to what the plain program says.
#![tactic(auto)]

#[cfg(test)]
mod adding;
#[cfg(test)]
mod agreement;
#[cfg(test)]
mod automata;
#[cfg(test)]
mod building;
#[cfg(test)]
mod chance;
#[cfg(test)]
mod counted;
#[cfg(test)]
mod counting;
#[cfg(test)]
mod matching;
#[cfg(test)]
mod model_counts;
#[cfg(test)]
mod models;
#[cfg(test)]
mod outward;
#[cfg(test)]
mod plans;
#[cfg(test)]
mod reading;
#[cfg(test)]
mod remembered;
#[cfg(test)]
mod rows;
#[cfg(test)]
mod sight;
#[cfg(test)]
mod stores;
#[cfg(test)]
mod traces;
#[cfg(test)]
mod watched;
#[cfg(test)]
mod writing;
