//! Tests of the checkers of what the program writes: `run_checks`.
#![tactic(auto)]

#[cfg(test)]
mod traces;
