//! Terms as trees, and as lists of items in postorder.
#![tactic(auto)]

ghost use Rattle.std.specs.Prelude.{◌≡◌};
ghost use Rattle.term_model.specs.Postorder.{head_of, arity_of};

mod flattened;
mod laws;

pub use flattened::Flat;
pub use laws::{distinct_laws, equality_laws, postorder_laws, subtree_laws};

/// The name of a stored term.
#[derive(Clone, Copy, Debug, Default, PartialEq, Eq, PartialOrd, Ord, Hash)]
pub struct Row(pub u32);

/// The name of a function symbol.
#[derive(Clone, Copy, Debug, PartialEq, Eq)]
pub struct Symbol(pub u32);

/// What stands at the root of a term: a symbol over its arguments, an integer or the empty list
/// over none, or a cell over a term and a list.
#[derive(Clone, Copy, Debug, PartialEq, Eq)]
pub enum Head {
    App(Symbol),
    Int(u64),
    Nil,
    Cons,
}

/// One node of a term or pattern that is written in postorder: a variable, or a head over the
/// terms before it. A symbol takes as many as its number says, an integer and the empty list
/// none, and a cell two.
#[derive(Clone, Copy, Debug, PartialEq, Eq)]
pub enum Item {
    Var(u32),
    App(Symbol, u32),
    Int(u64),
    Nil,
    Cons,
}

impl Item {
    /// The head, which a variable doesn't have.
    pub fn head(self) -> Option<Head>
        ensures { result ≡ head_of self }
    {
        match self {
            Item::Var(_) => None,
            Item::App(symbol, _) => Some(Head::App(symbol)),
            Item::Int(value) => Some(Head::Int(value)),
            Item::Nil => Some(Head::Nil),
            Item::Cons => Some(Head::Cons),
        }
    }

    /// How many of the terms before it the item takes.
    pub fn arity(self) -> u32
        ensures { result ≡ arity_of self }
    {
        match self {
            Item::Var(_) | Item::Int(_) | Item::Nil => 0,
            Item::App(_, count) => count,
            Item::Cons => 2,
        }
    }
}
