//! Rewriting by a plain program over trees of boxes, which computes what the definitions say: tests
//! compare with it.
#![tactic(auto)]

mod boxed;
mod counting;
mod ends;
mod evaluating;
mod matching;
mod one_step;
mod outward;
mod points;
mod reading;

pub use boxed::{Arguments, Term};
pub use counting::distinct;
pub use ends::{End, Evaluated};
pub use evaluating::{evaluation, need};
pub use one_step::steps;
pub use outward::outermost;
