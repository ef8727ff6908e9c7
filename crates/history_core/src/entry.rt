//! What a caller notes of its steps.

ghost use Rattle.std.specs.Prelude.{◌≡◌};
ghost use Rattle.history_core.specs.Entry.{key};

use std::collections::LinkedList;
use term_model::Head;

/// What a caller notes of a step that it made on the set of terms. Names are numbers of rows.
#[derive(Debug, PartialEq, Eq, Clone, Drop)]
pub enum Entry {
    /// A creation added a term: the number of the step, the term's head, the names of its
    /// arguments, and the name that it was given.
    Make {
        number: u64,
        head: Head,
        args: LinkedList<u32>,
        row: u32,
    },
    /// A creation found its term: the greatest number that the caller had seen then, the head, the
    /// names of the arguments, and the name of the term.
    Find {
        after: u64,
        head: Head,
        args: LinkedList<u32>,
        row: u32,
    },
    /// The caller left: the greatest number that it had seen, and the names that it protects.
    Roots {
        after: u64,
        rows: LinkedList<u32>,
    },
    /// A collection: the number of the step, and the names that stay, ascending.
    Collect {
        number: u64,
        kept: LinkedList<u32>,
    },
}

impl Entry {
    /// The number by which the entry is ordered: its own, or the greatest that its caller had seen.
    pub fn key(&self) -> u64
        ensures { result ≡ key self.now }
    {
        match self {
            Entry::Make { number, .. } | Entry::Collect { number, .. } => *number,
            Entry::Find { after, .. } | Entry::Roots { after, .. } => *after,
        }
    }
}
