//! A desk at the shared store: a pass with a stack of its own, as a store of terms for one caller.
#![tactic(auto)]

mod building;
mod desk;
mod interface;
mod law;
mod log_desk;
mod logged;
mod noting;
mod own_pass;
mod own_reads;
mod pass;

pub use desk::Desk;
pub use faults::Memory;
pub use law::{desks_are_told, new_passes_may_have_desks};
pub use log_desk::LogDesk;
pub use logged::LoggedPass;
pub use own_pass::OwnPass;
pub use pass::SharedPass;
pub use sweep_phase::{Kept, Worn};
pub use term_create::Full;
