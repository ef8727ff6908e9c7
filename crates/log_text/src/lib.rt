//! The lines of a log, written: what a caller notes of its steps, each step in a line of its own.
#![tactic(auto)]

mod line;
mod log;
mod text;
mod writing;

pub use faults::Memory;
pub use log::Log;
pub use text::LogText;
