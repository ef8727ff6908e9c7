//! The busy-forbidden lock of Groote, Laveaux and van Spaendonck (2022) as a pure machine: its
//! steps, the exclusion that they keep, and schedules of steps as text.
#![tactic(auto)]

mod exclusion;
mod machine;
mod parts;
mod reading;
mod state;
mod writing;

pub use exclusion::exclusion_holds;
pub use faults::Memory;
pub use machine::step;
pub use parts::{LockStep, Phase, SeatState, Standing};
pub use reading::{LineFault, schedule, schedules_have_one_outcome};
pub use state::LockState;
pub use writing::write_state;
