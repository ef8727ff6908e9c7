//! Reads of rows of a pass's own list, in shared access.
ghost use Rattle.std.specs.Prelude.{◌≡◌, ◌<◌, Some, true, length, slice_get};
ghost use Rattle.term_model.specs.Tree.{arguments, root};
ghost use Rattle.terms_api.specs.Terms.{IsHeld, tree_at};
ghost use Rattle.store_model.specs.declared.view.Place.TheVariants.{RowWord};
ghost use Rattle.store_model.specs.Shown.{index_of};
ghost use Rattle.shared_desk.specs.Pass.{own};
ghost use Rattle.shared_desk.specs.Passes.{seen_of, IsStanding};

use node_rows::{Pass, Store};
use term_create::{child_at, count_at, head_at, start_of};
use term_model::{Head, Row};

// Where a row begins.
fn start(store: &Store, pass: &Pass, row: Row) -> usize
    requires standing { IsStanding store.now pass.now }
    requires shared { (seen_of store.now pass.now).shared ≡ true }
    requires held { IsHeld (own (seen_of store.now pass.now)) row }
    ensures { result ≡ index_of store.now.sizes (RowWord row.0 0) }
{
    start_of(store, pass, row)
}

// The head of a row that begins here.
fn head_from(store: &Store, pass: &mut Pass, row: Row, start: usize) -> Head
    requires standing { IsStanding store.now pass.old }
    requires shared { (seen_of store.now pass.old).shared ≡ true }
    requires held { IsHeld (own (seen_of store.now pass.old)) row }
    requires start { start ≡ index_of store.now.sizes (RowWord row.0 0) }
    ensures standing { IsStanding store.now pass.new }
    ensures unchanged { seen_of store.now pass.new ≡ seen_of store.now pass.old }
    ensures head { root (tree_at (own (seen_of store.now pass.old)) row) ≡ Some result }
{
    head_at(store, pass, row, start)
}

// How many arguments a row has that begins here.
fn count_from(store: &Store, pass: &mut Pass, row: Row, start: usize) -> u32
    requires standing { IsStanding store.now pass.old }
    requires shared { (seen_of store.now pass.old).shared ≡ true }
    requires held { IsHeld (own (seen_of store.now pass.old)) row }
    requires start { start ≡ index_of store.now.sizes (RowWord row.0 0) }
    ensures standing { IsStanding store.now pass.new }
    ensures unchanged { seen_of store.now pass.new ≡ seen_of store.now pass.old }
    ensures count { result ≡ length (arguments (tree_at (own (seen_of store.now pass.old)) row)) }
{
    count_at(store, pass, row, start)
}

// The row of argument `j` of a row that begins here.
fn child_from(store: &Store, pass: &mut Pass, row: Row, start: usize, j: u32) -> Row
    requires standing { IsStanding store.now pass.old }
    requires shared { (seen_of store.now pass.old).shared ≡ true }
    requires held { IsHeld (own (seen_of store.now pass.old)) row }
    requires start { start ≡ index_of store.now.sizes (RowWord row.0 0) }
    requires below { j < length (arguments (tree_at (own (seen_of store.now pass.old)) row)) }
    ensures standing { IsStanding store.now pass.new }
    ensures unchanged { seen_of store.now pass.new ≡ seen_of store.now pass.old }
    ensures held { IsHeld (own (seen_of store.now pass.old)) result }
    ensures tree { slice_get (arguments (tree_at (own (seen_of store.now pass.old)) row)) j
        ≡ Some (tree_at (own (seen_of store.now pass.old)) result) }
{
    child_at(store, pass, row, start, j)
}

/// The head of a row, and how many arguments it has. Where the row begins is worked out once.
pub(crate) fn own_node(store: &Store, pass: &mut Pass, row: Row) -> (Head, u32)
    requires standing { IsStanding store.now pass.old }
    requires shared { (seen_of store.now pass.old).shared ≡ true }
    requires held { IsHeld (own (seen_of store.now pass.old)) row }
    ensures standing { IsStanding store.now pass.new }
    ensures unchanged { seen_of store.now pass.new ≡ seen_of store.now pass.old }
    ensures head { root (tree_at (own (seen_of store.now pass.old)) row) ≡ Some result.0 }
    ensures count { result.1
        ≡ length (arguments (tree_at (own (seen_of store.now pass.old)) row)) }
{
    let start = start(store, pass, row);
    let head = head_from(store, pass, row, start);
    let count = count_from(store, pass, row, start);
    (head, count)
}

/// The rows of both arguments of a row whose tree has two. Where the row begins is worked out once.
pub(crate) fn own_pair(store: &Store, pass: &mut Pass, row: Row) -> (Row, Row)
    requires standing { IsStanding store.now pass.old }
    requires shared { (seen_of store.now pass.old).shared ≡ true }
    requires held { IsHeld (own (seen_of store.now pass.old)) row }
    requires two { length (arguments (tree_at (own (seen_of store.now pass.old)) row)) ≡ 2 }
    ensures standing { IsStanding store.now pass.new }
    ensures unchanged { seen_of store.now pass.new ≡ seen_of store.now pass.old }
    ensures held { IsHeld (own (seen_of store.now pass.old)) result.0
        × IsHeld (own (seen_of store.now pass.old)) result.1 }
    ensures first { slice_get (arguments (tree_at (own (seen_of store.now pass.old)) row)) 0
        ≡ Some (tree_at (own (seen_of store.now pass.old)) result.0) }
    ensures second { slice_get (arguments (tree_at (own (seen_of store.now pass.old)) row)) 1
        ≡ Some (tree_at (own (seen_of store.now pass.old)) result.1) }
{
    let start = start(store, pass, row);
    let first = child_from(store, pass, row, start, 0);
    let second = child_from(store, pass, row, start, 1);
    (first, second)
}
