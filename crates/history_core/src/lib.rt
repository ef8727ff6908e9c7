//! The history of a store as plain data: the term set of one thread, the entries of its callers,
//! their merge, and what makes it legal.
#![tactic(auto)]

mod entry;
mod laws;
mod legality;
mod marking;
mod slots;
mod term_table;

pub use entry::Entry;
pub use laws::{insertion_laws, merge_laws, noting_laws, recording_laws, set_laws, telling_laws};
pub use legality::legal_entries;
pub use term_table::TermTable;
