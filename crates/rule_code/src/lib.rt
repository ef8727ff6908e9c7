//! The code of a plan's rules: what a machine does once a rule matches, one step after another.
#![tactic(auto)]

mod coding;
mod compile;
mod depths;
mod joining;
mod op;
mod step;

pub use coding::code_plan;
pub use compile::{Code, Start};
pub use depths::{Pending, find_depths};
pub use op::{Op, Run, Three};
pub use step::Step;
