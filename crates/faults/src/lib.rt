//! What may fail everywhere: memory, ends that count their faults, and inputs that are refused.
#![tactic(auto)]

pub mod kinds;
mod refusal;

pub use refusal::Refusal;
use std::alloc::{AllocError, AllocFailed};

/// There is no memory. It is the one answer that needs no cause, and no call merges it with
/// another.
#[derive(Clone, Copy, Debug, PartialEq, Eq)]
pub struct Memory;

impl From<AllocError> for Memory {
    fn from(_: AllocError) -> Self {
        Memory
    }
}

impl<T: Drop> From<AllocFailed<T>> for Memory {
    fn from(_: AllocFailed<T>) -> Self {
        Memory
    }
}
