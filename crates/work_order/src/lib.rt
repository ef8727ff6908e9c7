//! What workers are asked: terms, and by which rules and settings they are rewritten; and what is
//! told of each.
#![tactic(auto)]

mod work;

pub use work::Work;
