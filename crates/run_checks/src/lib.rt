//! Checkers of what the program writes: logs, and traces of rewriting.
#![tactic(auto)]

mod building;
mod checking;
mod cursor;
mod form;
mod laws;
mod lines;
mod matching;
mod parts;
mod replaying;
mod table;
mod text;

pub use checking::{TraceVerdict, check_trace};
pub use faults::Memory;
pub use laws::acceptance_laws;
pub use log_check::{LogVerdict, check_log};
pub use read_faults::ReadFail;
