//! The terms of a store as text, and how large they are.
#![tactic(auto)]

mod counting;
mod measuring;
mod nodes;
mod printing;
mod works;

pub use faults::Memory;
pub use measuring::{SizeMarks, TermSizes, sizes, stack_sizes};
pub use printing::{Printed, write_rec};
