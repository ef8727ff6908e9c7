//! Builds the terms of a text in a store while they are read, and copies their canonical lines.
#![tactic(auto)]

mod builder;
mod building;
mod given_up;
mod groups;
mod lines;
mod names;
mod text;

pub use given_up::GivenUp;
pub use text::build_text;
