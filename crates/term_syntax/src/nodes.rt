//! The nodes of terms.
ghost use Rattle.std.specs.Prelude.{◌≡◌, ◌++◌, ◌∷◌, [], ◌<◌, ◌≤◌, ◌-◌, Some, OnOk, length, take, drop, slice_get, slice_index};
ghost use Rattle.term_syntax.specs.Ends.{start_in};

use crate::machine::Node;
use std::alloc::{AllocError, Global};
use std::marker::Model;

/// The nodes of whole terms, term by term, and those of the term that is being read. All stand in
/// one list, and the ends of the whole terms in another.
#[derive(Drop)]
pub(crate) struct Nodes {
    items: Vec<Node>,
    ends: Vec<usize>,
}

impl Model for Nodes {
    ghost use Rattle.std.specs.Prelude.{length};
    ghost use Rattle.term_syntax.specs.Ends.{Nodes, AreEnds, nodes_in};

    ghost Value = { Nodes };

    ghost view = { λ s. nodes_in s.ends.items s.items.items };

    ghost invariant = { λ s. AreEnds 0 s.ends.items (length s.items.items) };
}

// Where the term of this number starts: at the end of the one before it.
fn start_of(ends: &[usize], number: usize) -> usize
    requires { number < length ends.now }
    ensures { result ≡ start_in 0 ends.now number }
{
    if number > 0 { ends[number - 1] } else { 0 }
}

// Where the term of this number ends.
fn end_of(ends: &[usize], number: usize) -> usize
    requires { number < length ends.now }
    ensures { result ≡ slice_index ends.now number }
{
    ends[number]
}

// The nodes between two places.
fn part(nodes: &[Node], start: usize, end: usize) -> &[Node]
    requires start { start ≤ end }
    requires end { end ≤ length nodes.now }
    ensures { result.now ≡ take (end - start) (drop start nodes.now) }
{
    &nodes[start..end]
}

impl Nodes {
    /// No nodes. Takes no memory.
    pub(crate) fn new(alloc: Global) -> Self
        ensures { result ≡ record { terms = []; begun = [] } }
    {
        Nodes {
            items: Vec::new(alloc),
            ends: Vec::new(alloc),
        }
    }

    /// How many terms are whole.
    pub(crate) fn count(&self) -> usize
        ensures { result ≡ length self.now.terms }
    {
        self.ends.len()
    }

    /// The nodes of the whole term of this number.
    pub(crate) fn term(&self, number: usize) -> &[Node]
        requires { number < length self.now.terms }
        ensures { slice_get self.now.terms number ≡ Some result.now }
    {
        let ends = self.ends.as_slice();
        let start = start_of(ends, number);
        let end = end_of(ends, number);
        part(self.items.as_slice(), start, end)
    }

    /// Puts a node at the end of the term that is being read.
    #[inline(always)]
    pub(crate) fn push(&mut self, node: Node) -> Result<(), AllocError>
        ensures { OnOk result
            (self.new ≡ record self.old { begun = self.old.begun ++ node ∷ [] }) }
    {
        self.items.push(node)?;
        Ok(())
    }

    /// The term that is being read is whole.
    #[inline(always)]
    pub(crate) fn end_term(&mut self) -> Result<(), AllocError>
        ensures { OnOk result
            (self.new ≡ record { terms = self.old.terms ++ self.old.begun ∷ []; begun = [] }) }
    {
        self.ends.push(self.items.len())?;
        Ok(())
    }
}
