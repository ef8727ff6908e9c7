//! Plans of rules: the rules by the head of their left side, and each left side in preorder. Also
//! whether a symbol stands at a stored row.
#![tactic(auto)]

mod compiling;
mod heads;
mod linking;
mod planning;
mod standing;

pub use planning::Plan;
pub use standing::stands_at;
