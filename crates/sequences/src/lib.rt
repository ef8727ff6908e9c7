//! Lists and stacks over vectors, which contracts see as lists.
#![tactic(auto)]

mod sequence;
mod stack;

pub use sequence::Sequence;
pub use stack::Stack;
