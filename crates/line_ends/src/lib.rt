//! What the line of a term has, and why it isn't made.
#![tactic(auto)]

mod kind;
mod stop;

pub use kind::LineKind;
pub use stop::LineStop;
