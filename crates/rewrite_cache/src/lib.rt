//! What is built where results of reductions are remembered: cached lists, and when a result is
//! known.
#![tactic(auto)]

mod facts;
mod laws;

pub use facts::worked_facts;
pub use laws::{cached_laws, reduction_laws, room_laws};
