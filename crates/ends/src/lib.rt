//! The ends of a run: where its bytes come from and go to, and what is told round each term.
#![tactic(auto)]

mod gate;
mod sink;
mod source;
mod streams;

pub use faults::Memory;
pub use gate::{Gate, OpenGate};
pub use sink::{Sink, WriteFault, write_all};
pub use source::{Failed, ReadAllFault, Source, read_all};
pub use streams::{Reading, Writing};
