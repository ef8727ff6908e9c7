//! A store of terms as its callers see it: maximally shared terms, a stack of rows that keeps
//! terms, and calls that read, build and give up.
#![tactic(auto)]

mod terms;

pub use terms::{BuildFault, Deep, Terms};
