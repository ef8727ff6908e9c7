//! A checker of logs: whether what the callers of a store noted of their steps is one legal
//! history.
#![tactic(auto)]

mod form;
mod keys;
pub mod lines;
mod log;
mod merging;
mod verdict;
pub mod words;

pub use faults::Memory;
pub use read_faults::ReadFail;
pub use verdict::{LogVerdict, check_log};
