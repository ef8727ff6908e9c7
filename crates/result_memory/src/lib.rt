//! A bounded memory of results: those that were used last.
#![tactic(auto)]

mod memory;

pub use memory::LruMemo;
