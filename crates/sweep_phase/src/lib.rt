//! Collections on a running store: in an access that a pass has, after which it may create, and in
//! one of its own.
#![tactic(auto)]

mod creating;
mod now;

pub use creating::create_exclusive;
pub use now::{TryCollect, collect_now};
pub use row_sweep::{Kept, Worn, collect};
