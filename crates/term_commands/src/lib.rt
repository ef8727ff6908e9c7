//! The commands on terms alone: from the bytes of an input to the bytes of an output.
#![tactic(auto)]

mod building;
mod counted;
mod counting;
mod fault;
mod listing;
mod measuring;
mod packing;
mod passing;
mod unpacking;

pub use fault::TermsFault;
pub use listing::tell_terms;
pub use packing::pack_terms;
pub use unpacking::{Unpacked, unpack_terms};
