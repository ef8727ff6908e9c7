//! Matching one rule against a stored term: a match binds the rule's variables to rows.
#![tactic(auto)]

mod binding;
mod matching;

pub use binding::Binds;
pub use matching::matches;
