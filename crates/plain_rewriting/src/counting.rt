//! Sizes of boxed terms, and how many of them differ.

ghost use Rattle.std.specs.Prelude.{◌≡◌, ◌++◌, ◌-◌, ◌^◌, min, drop, OnOk};
ghost use Rattle.term_model.specs.Tree.{count_of, nodes as nodes_of, nodes_all, subtrees as subtrees_of, subtrees_all, among as among_of, distinct as distinct_of};
ghost use Rattle.plain_rewriting.specs.Boxed.{tree_of, trees_in, trees};

use crate::boxed::{Arguments, Term};
use faults::Memory;
use std::alloc::Global;

impl Term {
    /// The count of nodes, up to 2^64 - 1.
    #[cycle(counting)]
    pub fn nodes(&self) -> u64
        ensures { result ≡ min (nodes_of (tree_of self.now)) (2 ^ 64 - 1) }
    {
        match self {
            Term::Var(_) => 1,
            Term::Over(_, args) => args.nodes().saturating_add(1),
        }
    }

    /// Appends the subtrees, each before those of its arguments.
    #[cycle(listing)]
    pub fn subtrees(&self, alloc: Global, list: &mut Vec<Term>) -> Result<(), Memory>
        ensures { OnOk result
            (trees list.new.items ≡ trees list.old.items ++ subtrees_of (tree_of self.now)) }
    {
        list.push(self.copy(alloc)?)?;
        match self {
            Term::Var(_) => Ok(()),
            Term::Over(_, args) => args.subtrees(alloc, list),
        }
    }
}

impl Arguments {
    /// The count of terms, up to 2^64 - 1.
    pub(crate) fn count(&self) -> u64
        ensures { result ≡ min (count_of (trees_in self.now)) (2 ^ 64 - 1) }
    {
        match self {
            Arguments::Empty => 0,
            Arguments::Next(_, rest) => rest.count().saturating_add(1),
        }
    }

    #[cycle(counting)]
    fn nodes(&self) -> u64
        ensures { result ≡ min (nodes_all (trees_in self.now)) (2 ^ 64 - 1) }
    {
        match self {
            Arguments::Empty => 0,
            Arguments::Next(term, rest) => term.nodes().saturating_add(rest.nodes()),
        }
    }

    #[cycle(listing)]
    fn subtrees(&self, alloc: Global, list: &mut Vec<Term>) -> Result<(), Memory>
        ensures { OnOk result
            (trees list.new.items ≡ trees list.old.items ++ subtrees_all (trees_in self.now)) }
    {
        match self {
            Arguments::Empty => Ok(()),
            Arguments::Next(term, rest) => {
                term.subtrees(alloc, list)?;
                rest.subtrees(alloc, list)
            }
        }
    }
}

/// How many different terms there are.
pub fn distinct(terms: &[Term]) -> usize
    ensures { result ≡ distinct_of (trees terms.now) }
{
    let mut count = 0;
    let mut at = terms.len();
    while at > 0 {
        at -= 1;
        if !is_among(&terms[at], terms, at + 1) {
            count += 1;
        }
    }
    count
}

/// Whether a term is among those from a place on.
fn is_among(term: &Term, terms: &[Term], from: usize) -> bool
    ensures { result ≡ among_of (tree_of term.now) (trees (drop from terms.now)) }
{
    if from >= terms.len() {
        return false;
    }
    if term.is_same(&terms[from]) {
        return true;
    }
    is_among(term, terms, from + 1)
}
