//! Desks for the workers of some work on one new store, and the passes and the log that they leave.
#![tactic(auto)]

mod desks;
mod keys;
mod logs;

pub use desks::{desks_at, log_desks_at, passes_of, store_for};
pub use keys::with_keys;
pub use logs::{parts_of, with_end};
