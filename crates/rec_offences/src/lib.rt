//! What is wrong with specifications: the offences at their names, and the fault, the least of
//! them.
#![tactic(auto)]

mod checking;
mod entries;
mod inclusion;
mod laws;
mod least;
mod numbered;
mod offences;
mod scope;
mod signatures;
mod turn;

pub use checking::{fault, fault_with};
pub use faults::{Memory, Refusal};
pub use laws::{fault_laws, visit_laws};
pub use numbered::{specification_at, symbols_at};
pub use signatures::Signature;
