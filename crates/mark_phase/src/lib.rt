//! The rows that can be reached from a root, marked without memory of the call.
#![tactic(auto)]

mod graph;
mod marking;
mod marks;

pub use faults::Memory;
pub use graph::Graph;
pub use marking::mark;
pub use marks::Marks;
