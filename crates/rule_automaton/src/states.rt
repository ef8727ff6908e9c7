//! The states of an automaton, each with the rules that may still match, in written order.

ghost use Rattle.std.specs.Prelude.{◌≡◌, ◌^◌, ◌<◌};
ghost use Rattle.rule_automaton.specs.Automata.{key_of};

use term_model::Symbol;

/// A number for a symbol over so many trees, by which ways stand in order.
pub(crate) fn key_of(symbol: Symbol, count: u32) -> u64
    ensures key { result ≡ key_of symbol count }
    ensures small { count < 2 ^ 32 }
{
    u64::from(symbol.0) * 0x1_0000_0000 + u64::from(count)
}

/// A place whose node is read. It goes on by one of the ways from the first up to the last, or else
/// at another state.
#[derive(Clone, Copy)]
pub(crate) struct Node {
    pub place: u32,
    pub first: usize,
    pub last: usize,
    pub other: usize,
}

/// What is done at a state.
#[derive(Clone, Copy)]
pub(crate) enum Op {
    /// The first rule matches.
    Found,
    /// The first rule matches where the places of its repeated variables have equal trees; else
    /// it goes on at a state.
    Compare(usize),
    /// The node at a place is read.
    Read(Node),
    /// The rules are tried one after another.
    Turn,
}

/// Its rules stand in the automaton's list from a place up to another. Their tests of places below
/// a bound hold.
#[derive(Clone, Copy)]
pub(crate) struct State {
    pub from: usize,
    pub to: usize,
    pub bound: u32,
    pub op: Op,
}

/// Where a symbol over so many trees is read, these are put at the places from a base on, and it
/// goes on at a state.
#[derive(Clone, Copy)]
pub(crate) struct Way {
    pub symbol: Symbol,
    pub count: u32,
    pub base: u32,
    pub to: usize,
}
