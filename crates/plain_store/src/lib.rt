//! A store of maximally shared terms for one thread.
#![tactic(auto)]

mod adding;
mod collecting;
mod event;
mod hashing;
mod index;
mod interface;
mod nodes;
mod pairs;
mod store;
mod table;

pub use faults::Memory;
pub use store::PlainStore;
