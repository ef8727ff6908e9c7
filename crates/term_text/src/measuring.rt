//! How large terms are.

ghost use Rattle.std.specs.Prelude.{◌≡◌, ◌≤◌, ◌-◌, ◌^◌, IfOk, true, sum_by};
ghost use Rattle.term_model.specs.Tree.{nodes, subtrees, distinct};
ghost use Rattle.terms_api.specs.Terms.{IsHeld, tree_at, trees, reachable};
ghost use Rattle.term_text.specs.Sizes.{saturated};

use crate::counting::{Tally, clear, count_from, fill_counts};
use faults::Memory;
use std::alloc::Global;
use std::marker::Model;
use term_model::Row;
use terms_api::Terms;

/// How many different subtrees there are, and how many nodes, at most 2^64 - 1.
#[derive(Clone, Copy, Debug, PartialEq, Eq)]
pub struct TermSizes {
    pub distinct: u64,
    pub nodes: u64,
}

/// The room that counting needs in a store of so many rows. Contracts see the number of rows.
#[derive(Drop)]
pub struct SizeMarks {
    tally: Tally,
    rows: u32,
}

impl Model for SizeMarks {
    ghost use Rattle.std.specs.Prelude.{ℕ};
    ghost use Rattle.term_text.specs.Clear.{IsClear, HasPlaces};

    ghost Value = { ℕ };

    ghost view = { λ m. m.rows };

    ghost invariant = { λ m. IsClear m.tally × HasPlaces m.tally m.rows };
}

impl SizeMarks {
    /// Room for a store of so many rows. All the memory that counting needs is taken here; the
    /// counts are filled by the first call that counts.
    pub fn new(alloc: Global, rows: u32) -> Result<SizeMarks, Memory>
        ensures { IfOk result (λ marks. marks ≡ rows) }
    {
        let counts = Vec::with_capacity(alloc, rows as usize)?;
        let counted = Vec::with_capacity(alloc, rows as usize)?;
        let path = Vec::with_capacity(alloc, rows as usize)?;
        Ok(SizeMarks {
            tally: Tally {
                counts,
                rows: counted,
                path,
            },
            rows,
        })
    }
}

/// How large the tree of a held row is. It takes no memory and doesn't recurse, and it looks at
/// each different subtree once, however often it stands in the tree.
pub fn sizes<T: Terms>(terms: &mut T, row: Row, marks: &mut SizeMarks) -> TermSizes
    requires inside { (T.store terms.old).inside ≡ true }
    requires held { IsHeld (T.store terms.old) row }
    requires room { (T.store terms.old).rows ≤ marks.old }
    ensures distinct { result.distinct ≡ distinct (subtrees (tree_at (T.store terms.old) row)) }
    ensures nodes { result.nodes ≡ saturated (nodes (tree_at (T.store terms.old) row)) }
    ensures room { marks.new ≡ marks.old }
    ensures unchanged { T.store terms.new ≡ T.store terms.old }
    ensures same { T.same terms.old terms.new }
{
    fill_counts(&mut marks.tally, marks.rows);
    count_from(terms, row, &mut marks.tally);
    let nodes = marks.tally.counts[row.0 as usize];
    let distinct = clear(&mut marks.tally);
    TermSizes { distinct, nodes }
}

/// How large the trees of the stack are: the different subtrees of all, and the sum of their nodes.
/// It takes no memory, and looks at each different subtree once.
pub fn stack_sizes<T: Terms>(terms: &mut T, marks: &mut SizeMarks) -> TermSizes
    requires inside { (T.store terms.old).inside ≡ true }
    requires room { (T.store terms.old).rows ≤ marks.old }
    ensures distinct { result.distinct ≡ distinct (reachable (T.store terms.old)) }
    ensures nodes { result.nodes ≡ saturated (sum_by nodes (trees (T.store terms.old))) }
    ensures room { marks.new ≡ marks.old }
    ensures unchanged { T.store terms.new ≡ T.store terms.old }
    ensures same { T.same terms.old terms.new }
{
    fill_counts(&mut marks.tally, marks.rows);
    let mut nodes: u64 = 0;
    for place in 0..terms.depth() {
        let row = terms.at(place);
        count_from(terms, row, &mut marks.tally);
        nodes = nodes.saturating_add(marks.tally.counts[row.0 as usize]);
    }
    let distinct = clear(&mut marks.tally);
    TermSizes { distinct, nodes }
}
