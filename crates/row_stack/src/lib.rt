//! What a store keeps beside its rows: a stack of rows, and what happened, for contracts alone.
#![tactic(auto)]

mod history;
mod stack;

pub use faults::Memory;
pub use history::History;
pub use stack::Stack;
