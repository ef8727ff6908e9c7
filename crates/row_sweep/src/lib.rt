//! A collection on a running store: the rows that no pass protects are free again.
#![tactic(auto)]

mod beginning;
mod chaining;
mod collecting;
mod comparing;
mod counting;
mod loading;
mod marking;
mod places;
mod reading;
mod storing;
mod sweep;
mod turns;

pub use collecting::collect;
pub use sweep::{Kept, Worn};
