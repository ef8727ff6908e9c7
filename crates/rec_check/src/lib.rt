//! From a syntax to the specification that it spells.
#![tactic(auto)]

mod checking;
mod conditions;
mod last;
mod laws;
mod rules;
mod scope;
mod spec;
mod spelling;
mod table;
mod terms;

pub use checking::check;
pub use conditions::unconditional;
pub use laws::condition_laws;
pub use spec::Spec;
