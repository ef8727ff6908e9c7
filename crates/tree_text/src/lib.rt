//! The text of a tree, and its one canonical text, in which it is written.
#![tactic(auto)]

mod backwards;
mod canonical;
mod flats;
mod name_bytes;
mod room;
mod writer;

pub use canonical::write_term;
pub use flats::Flats;
pub use name_bytes::{begins_name, continues_name};
