//! Tests of what planning and normalizing ask for: whether rules make a plan, and whether a term may
//! be normalized.
#![tactic(auto)]

mod rules;
mod terms;

pub use rules::{has_symbols_alone, may_be_planned};
pub use terms::may_be_normalized;
