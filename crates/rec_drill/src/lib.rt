//! The drill: a large input that is made from a number alone.
#![tactic(auto)]

mod drill;
mod laws;

pub use drill::drill_text;
pub use faults::Memory;
pub use laws::{drill_laws, worked_drills};
