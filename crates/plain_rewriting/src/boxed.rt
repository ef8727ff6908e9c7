//! Terms as trees of boxes, for the plain program.

ghost use Rattle.std.specs.Prelude.{◌≡◌, IfOk, ◌<◌};
ghost use Rattle.term_model.specs.Tree.{tree_eq, trees_eq, head_eq};
ghost use Rattle.plain_rewriting.specs.Boxed.{tree_of, trees_in};

use faults::Memory;
use std::alloc::Global;
use term_model::{Flat, Head, Item};

/// A term or a pattern: a variable, or a head over terms.
#[cycle(term)]
#[derive(Debug, Drop)]
pub enum Term {
    Var(u32),
    Over(Head, Arguments),
}

/// A list of terms.
#[cycle(term)]
#[derive(Debug, Drop)]
pub enum Arguments {
    Empty,
    Next(Box<Term>, Box<Arguments>),
}

impl Term {
    /// The same term in other boxes.
    #[cycle(copying)]
    pub fn copy(&self, alloc: Global) -> Result<Self, Memory>
        ensures { IfOk result (λ t. tree_of t ≡ tree_of self.now) }
    {
        match self {
            Term::Var(x) => Ok(Term::Var(*x)),
            Term::Over(head, args) => Ok(Term::Over(*head, args.copy(alloc)?)),
        }
    }

    /// Whether two terms are the same tree.
    #[cycle(comparing)]
    pub fn is_same(&self, other: &Term) -> bool
        ensures { result ≡ tree_eq (tree_of self.now) (tree_of other.now) }
    {
        match (self, other) {
            (Term::Var(x), Term::Var(y)) => x == y,
            (Term::Over(head, args), Term::Over(other_head, others)) => {
                heads_are_same(*head, *other_head) && args.are_same(others)
            }
            _ => false,
        }
    }
}

impl Arguments {
    /// The same terms in other boxes.
    #[cycle(copying)]
    pub fn copy(&self, alloc: Global) -> Result<Self, Memory>
        ensures { IfOk result (λ ts. trees_in ts ≡ trees_in self.now) }
    {
        match self {
            Arguments::Empty => Ok(Arguments::Empty),
            Arguments::Next(term, rest) => {
                let first = Box::new(alloc, term.copy(alloc)?)?;
                let rest = Box::new(alloc, rest.copy(alloc)?)?;
                Ok(Arguments::Next(first, rest))
            }
        }
    }

    /// Whether two lists have the same trees.
    #[cycle(comparing)]
    pub fn are_same(&self, others: &Arguments) -> bool
        ensures { result ≡ trees_eq (trees_in self.now) (trees_in others.now) }
    {
        match (self, others) {
            (Arguments::Empty, Arguments::Empty) => true,
            (Arguments::Next(term, rest), Arguments::Next(other, other_rest)) => {
                term.is_same(other) && rest.are_same(other_rest)
            }
            _ => false,
        }
    }
}

pub(crate) fn heads_are_same(head: Head, other: Head) -> bool
    ensures { result ≡ head_eq head other }
{
    match (head, other) {
        (Head::App(f), Head::App(g)) => f.0 == g.0,
        (Head::Int(m), Head::Int(n)) => m == n,
        (Head::Nil, Head::Nil) | (Head::Cons, Head::Cons) => true,
        _ => false,
    }
}
