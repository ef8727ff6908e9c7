//! The ends of a run in memory, which fail at chosen calls: tests read from them and write to them.
#![tactic(auto)]

mod sink;
mod source;

pub use sink::MemSink;
pub use source::MemSource;
