//! Small calls on any store of terms, which use the clauses of `Terms` alone and show that these
//! suffice.
#![tactic(auto)]

mod calls;

pub use calls::{build_pair, have_one_row, read_back};
