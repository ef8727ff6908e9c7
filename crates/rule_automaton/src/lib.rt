//! Matching automata for the rules of a plan: a tree is read by numbered places, and at each state
//! the rules that may still match are known.
#![tactic(auto)]

mod asking;
mod automaton;
mod building;
mod finding;
mod roots;
mod rows;
mod shapes;
mod starting;
mod states;
mod table;

pub use automaton::{Automaton, Places};
