//! The definitions of rewriting: matching, evaluation, what is built, one step, outermost
//! evaluation.
#![tactic(auto)]

mod event;
mod laws;
mod rows;
mod rules;

pub use event::Event;
pub use laws::{
    built_laws, derivation_laws, fuel_laws, matching_laws, one_step_laws, outermost_fuel_laws,
    value_laws,
};
pub use rows::{hand_rows, order_rows, outermost_rows, room_rows, trace_rows, worked_rows};
pub use rules::{Condition, Rule};
