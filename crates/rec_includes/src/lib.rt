//! What specifications include: names by their texts, the material of each specification, and the
//! order in which each stands after the first one that it includes.
#![tactic(auto)]

mod directory;
mod gathering;
mod names;
mod ordering;
mod recent;

pub use directory::Directory;
pub use faults::Memory;
pub use gathering::{gather, header_names, headers_in, includes_at, material_of, material_with};
pub use names::text_of;
pub use ordering::{first_target, order};
