//! The terms of some work, rewritten by desks on one shared store.
#![tactic(auto)]

mod sharing;

pub use rewrite_workers::{AllFault, Lines, Work};
pub use sharing::{Rewritten, rewrite_shared};
