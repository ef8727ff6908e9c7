//! Builds over rows that aren't on the stack, and reads of what was built.
ghost use Rattle.std.specs.Prelude.{◌≡◌, ◌<◌, ◌≤◌, true};
ghost use Rattle.terms_api.specs.Terms.{IsHeld};

use super::{build_symbol, desk_at, head_at, keep_lowest, last_pass, new_store, row_at};
use std::process::Abort;
use std::test::Fail;
use store_model::Sizes;
use term_model::{Head, Row, Symbol};
use terms_api::{BuildFault, Terms};

// So many rows for terms of two arguments, in one chain.
const fn sizes(rows: u32) -> Sizes
    ensures { result
        ≡ record {
          rows = rows;
          buckets = 1;
          start = 1;
          seats = 1;
          depth = 4;
          arity = 2;
          first = 1;
        } }
{
    Sizes {
        rows,
        buckets: 1,
        start: 1,
        seats: 1,
        depth: 4,
        arity: 2,
        first: 1,
    }
}

// Makes symbols 0 and 1 as constants, and lets go of all places.
fn make_two<T: Terms>(rt: &impl Abort, terms: &mut T) -> (Row, Row)
    requires inside { (T.store terms.old).inside ≡ true }
    ensures held { IsHeld (T.store terms.new) result.0 × IsHeld (T.store terms.new) result.1 }
    ensures inside { (T.store terms.new).inside ≡ true }
    ensures widest { (T.store terms.new).widest ≡ (T.store terms.old).widest }
{
    assert_eq!(rt; build_symbol(terms, 0, 0), None);
    assert_eq!(rt; build_symbol(terms, 1, 0), None);
    let zero = row_at(rt, terms, 0);
    let one = row_at(rt, terms, 1);
    keep_lowest(rt, terms, 0);
    (zero, one)
}

// Builds a symbol over two rows, and tells the fault.
fn build_pair<T: Terms>(
    rt: &impl Abort,
    terms: &mut T,
    symbol: u32,
    first: Row,
    second: Row,
) -> Option<BuildFault>
    requires inside { (T.store terms.old).inside ≡ true }
    requires width { 2 ≤ (T.store terms.old).widest }
    requires held { IsHeld (T.store terms.old) first × IsHeld (T.store terms.old) second }
    ensures inside { (T.store terms.new).inside ≡ true }
    ensures widest { (T.store terms.new).widest ≡ (T.store terms.old).widest }
{
    let places = terms.depth();
    assert!(rt; places < 3 && terms.room() == 4);
    match terms.build_of(Head::App(Symbol(symbol)), &[first, second]) {
        Ok(()) => None,
        Err(fault) => Some(fault),
    }
}

// Builds a symbol over no rows, and tells the fault.
fn build_constant<T: Terms>(rt: &impl Abort, terms: &mut T, symbol: u32) -> Option<BuildFault>
    requires inside { (T.store terms.old).inside ≡ true }
    ensures inside { (T.store terms.new).inside ≡ true }
    ensures widest { (T.store terms.new).widest ≡ (T.store terms.old).widest }
{
    assert!(rt; terms.depth() <= terms.room());
    match terms.build_of(Head::App(Symbol(symbol)), &[]) {
        Ok(()) => None,
        Err(fault) => Some(fault),
    }
}

// The node of the row at a place, and the rows of both its arguments.
fn both_at<T: Terms>(rt: &impl Abort, terms: &mut T, i: u32) -> ((Head, u32), (Row, Row))
    requires inside { (T.store terms.old).inside ≡ true }
    ensures held { IsHeld (T.store terms.old) result.1.0
        × IsHeld (T.store terms.old) result.1.1 }
    ensures unchanged { T.store terms.new ≡ T.store terms.old }
{
    let row = row_at(rt, terms, i);
    let node = terms.node(row);
    assert!(rt; node.1 == 2);
    (node, terms.pair(row))
}

// Puts a row on top where a place is free.
fn put_row<T: Terms>(rt: &impl Abort, terms: &mut T, row: Row)
    requires inside { (T.store terms.old).inside ≡ true }
    requires held { IsHeld (T.store terms.old) row }
    ensures held { (T.store terms.new).held ≡ (T.store terms.old).held }
    ensures inside { (T.store terms.new).inside ≡ true }
    ensures widest { (T.store terms.new).widest ≡ (T.store terms.old).widest }
{
    assert!(rt; terms.depth() < terms.room());
    terms.put(row);
}

// Whether a place and the next one have these rows.
fn lie_at<T: Terms>(rt: &impl Abort, terms: &mut T, i: u32, first: Row, second: Row) -> bool
    requires inside { (T.store terms.old).inside ≡ true }
    requires below { i < 8 }
    ensures unchanged { T.store terms.new ≡ T.store terms.old }
{
    row_at(rt, terms, i) == first && row_at(rt, terms, i + 1) == second
}

// The faults of three builds, the epochs after the last two of them, whether the rows are where
// they should be, and a node.
type Seen = ([Option<BuildFault>; 3], [Option<u64>; 2], bool, (Head, u32));

// Three rows. Two are built over, of which one lies on the stack as well. The tree fits only after
// a collection, which has the number 1 + 3: its epoch has the base 5. The tree takes the freed row,
// above the row that lay there. The tree over the same rows in turn about is another one, which
// comes in place of the first: the collection that it needs has the number 5 + 1.
fn build_where_all_rows_are_in_use<T: Terms>(rt: &impl Abort, terms: &mut T) -> Seen
    requires inside { (T.store terms.old).inside ≡ true }
    requires width { 2 ≤ (T.store terms.old).widest }
{
    let constant = build_constant(rt, terms, 2);
    let freed = row_at(rt, terms, 0);
    keep_lowest(rt, terms, 0);
    let (zero, one) = make_two(rt, terms);
    put_row(rt, terms, zero);
    let built = build_pair(rt, terms, 3, one, zero);
    let epoch = terms.epoch();
    let depth = terms.depth();
    let lie = lie_at(rt, terms, 0, zero, freed);
    let (node, (first, second)) = both_at(rt, terms, 1);
    keep_lowest(rt, terms, 1);
    let turned = build_pair(rt, terms, 3, second, first);
    let last = terms.epoch();
    let last_depth = terms.depth();
    let lie_again = lie_at(rt, terms, 0, zero, freed);
    (
        [constant, built, turned],
        [epoch, last],
        depth == 2 && lie && (first, second) == (one, zero) && last_depth == 2 && lie_again,
        node,
    )
}

#[test]
fn a_full_desk_keeps_the_rows_that_it_builds_over(rt: HostRuntime) -> Result<(), Fail> {
    let (store, mut passes) = new_store(rt.alloc(), sizes(3))?;
    let pass = last_pass(&rt, &store, &mut passes);
    let mut desk = desk_at(&rt, rt.alloc(), &store, pass)?;
    desk.enter();
    let seen = build_where_all_rows_are_in_use(&rt, &mut desk);
    let node = (Head::App(Symbol(3)), 2);
    assert_eq!(rt; seen, ([None, None, None], [Some(5), Some(7)], true, node));
    Ok(())
}

// Three rows. The tree takes the third one, and is found again. The tree over the same rows in turn
// about is another one: the collection that it needs has the number 1 + 3, and frees the first
// tree's row.
fn find_over_rows<T: Terms>(rt: &impl Abort, terms: &mut T) -> Seen
    requires inside { (T.store terms.old).inside ≡ true }
    requires width { 2 ≤ (T.store terms.old).widest }
{
    let (zero, one) = make_two(rt, terms);
    let built = build_pair(rt, terms, 3, one, zero);
    let made = row_at(rt, terms, 0);
    let (_, (first, second)) = both_at(rt, terms, 0);
    let is_made = (first, second) == (one, zero);
    keep_lowest(rt, terms, 0);
    put_row(rt, terms, second);
    let found = build_pair(rt, terms, 3, first, second);
    let epoch = terms.epoch();
    let lie = lie_at(rt, terms, 0, zero, made);
    let (_, (first, second)) = both_at(rt, terms, 1);
    keep_lowest(rt, terms, 0);
    let turned = build_pair(rt, terms, 3, second, first);
    let last = terms.epoch();
    let taken = row_at(rt, terms, 0);
    let (node, arguments) = both_at(rt, terms, 0);
    (
        [built, found, turned],
        [epoch, last],
        is_made && lie && taken == made && arguments == (zero, one),
        node,
    )
}

#[test]
fn a_tree_over_rows_that_are_not_on_the_stack_is_found(rt: HostRuntime) -> Result<(), Fail> {
    let (store, mut passes) = new_store(rt.alloc(), sizes(3))?;
    let pass = last_pass(&rt, &store, &mut passes);
    let mut desk = desk_at(&rt, rt.alloc(), &store, pass)?;
    desk.enter();
    let seen = find_over_rows(&rt, &mut desk);
    let node = (Head::App(Symbol(3)), 2);
    assert_eq!(rt; seen, ([None, None, None], [Some(1), Some(5)], true, node));
    Ok(())
}

// Two rows, and neither is on the stack. The tree over them is refused after a collection, which
// has the number 1 + 2, and leaves both on the stack. Where all four places are in use there is
// none for a constant. The faults, the epoch, whether the rows are where they should be, and the
// head of the second place.
fn be_refused_over_rows<T: Terms>(
    rt: &impl Abort,
    terms: &mut T,
) -> ([Option<BuildFault>; 2], Option<u64>, bool, Head)
    requires inside { (T.store terms.old).inside ≡ true }
    requires width { 2 ≤ (T.store terms.old).widest }
{
    let (zero, one) = make_two(rt, terms);
    let refused = build_pair(rt, terms, 2, one, zero);
    let epoch = terms.epoch();
    let depth = terms.depth();
    let below = row_at(rt, terms, 0);
    let above = row_at(rt, terms, 1);
    let head = head_at(rt, terms, 1);
    put_row(rt, terms, below);
    put_row(rt, terms, above);
    let lie = lie_at(rt, terms, 2, one, zero);
    let deep = build_constant(rt, terms, 0);
    let last_depth = terms.depth();
    (
        [refused, deep],
        epoch,
        depth == 2 && (below, above) == (one, zero) && lie && last_depth == 4,
        head,
    )
}

#[test]
fn a_refused_tree_leaves_its_rows_on_the_stack(rt: HostRuntime) -> Result<(), Fail> {
    let (store, mut passes) = new_store(rt.alloc(), sizes(2))?;
    let pass = last_pass(&rt, &store, &mut passes);
    let mut desk = desk_at(&rt, rt.alloc(), &store, pass)?;
    desk.enter();
    let seen = be_refused_over_rows(&rt, &mut desk);
    let faults = [Some(BuildFault::StoreFull), Some(BuildFault::Deep)];
    assert_eq!(rt; seen, (faults, Some(4), true, Head::App(Symbol(0))));
    Ok(())
}
