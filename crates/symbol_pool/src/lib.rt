//! The table of function symbols: a name with a number of arguments has one number.
#![tactic(auto)]

mod fault;
mod recent;
mod symbols;

pub use fault::PoolFault;
pub use symbols::{MOST_SYMBOLS, Symbols};
