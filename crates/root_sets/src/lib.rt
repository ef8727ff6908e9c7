//! The rows that a pass protects: collections keep all that can be reached from them.
#![tactic(auto)]

mod sets;
mod storing;
mod words;

pub use sets::{keep_roots, push_root, root_at};
pub use storing::store_roots;
