//! Leftmost innermost normalization, and leftmost outermost, over any store of terms, with explicit
//! stacks.
#![tactic(auto)]

mod at_once;
mod building;
mod caching;
mod evaluating;
mod frames;
mod going;
mod instantiating;
mod laws;
mod machine;
mod matcher;
mod memo;
mod nodes;
mod normal;
mod normalizing;
mod outward;
mod over_values;
mod places;
mod rebuilding;
mod reducing;
mod remembering;
mod spare;
mod spots;
mod stepping;
mod tracing;
mod trail;
mod walking;
mod windows;

pub use laws::{choice_laws, code_laws, outermost_laws, step_laws};
pub use memo::{Known, Memo, NoMemo};
pub use normal::{Normal, RunFault, TraceFault};
pub use normalizing::Machine;
pub use rewrite_model::Event;
