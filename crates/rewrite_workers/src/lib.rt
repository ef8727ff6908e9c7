//! Workers that rewrite the terms of one list at the same time, each on a desk of its own.
#![tactic(auto)]

mod all;
mod remembered;
mod threads;
mod worker;

pub use all::rewrite_all;
pub use work_order::Work;
pub use worker_crew::{AllFault, Line, Lines};
