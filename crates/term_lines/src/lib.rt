//! The lines of terms: each term is rewritten on a store of terms, and the text or the sizes of its
//! value are written, or why it has none.
#![tactic(auto)]

mod ending;
mod laws;
mod rewriter;
mod rewriting;
mod strategy;
mod value;

pub use ending::Ending;
pub use laws::name_laws;
pub use line_ends::{LineKind, LineStop};
pub use rewriter::Rewriter;
pub use strategy::Strategy;
