//! Desks over a real store, on one thread, with values worked out by hand.
mod ends;
mod over;
mod tries;

ghost use Rattle.std.specs.Prelude.{◌≡◌, ◌≤◌, All, IfOk, true, false};
ghost use Rattle.store_model.specs.NewStore.{MaySize};
ghost use Rattle.terms_api.specs.Terms.{IsHeld};
ghost use Rattle.shared_desk.specs.Desk.{store_of};
ghost use Rattle.shared_desk.specs.Telling.{MayHaveDesk};

use node_rows::{Pass, Store};
use shared_desk::{Desk, Memory, OwnPass};
use std::alloc::Global;
use std::process::Abort;
use std::sync::Wait;
use std::test::Fail;
use store_model::Sizes;
use term_model::{Head, Row, Symbol};
use terms_api::{BuildFault, Terms};

// So many rows, in one chain.
const fn sizes(rows: u32, seats: u32, first: u64) -> Sizes
    ensures { result
        ≡ record {
          rows = rows;
          buckets = 1;
          start = 1;
          seats = seats;
          depth = 4;
          arity = 1;
          first = first;
        } }
{
    Sizes {
        rows,
        buckets: 1,
        start: 1,
        seats,
        depth: 4,
        arity: 1,
        first,
    }
}

// A store, and its passes.
fn new_store(alloc: Global, sizes: Sizes) -> Result<(Store, Vec<Pass>), Memory>
    requires { MaySize sizes }
    ensures { IfOk result (λ t. All (MayHaveDesk t.0) t.1.items) }
{
    Store::make(alloc, sizes)
}

// The last of the passes that are left.
fn last_pass(rt: &impl Abort, store: &Store, passes: &mut Vec<Pass>) -> Pass
    requires passes { All (MayHaveDesk store.now) passes.old.items }
    ensures left { All (MayHaveDesk store.now) passes.new.items }
    ensures pass { MayHaveDesk store.now result }
{
    match passes.pop() {
        Some(pass) => pass,
        None => panic!(rt; "a pass is left"),
    }
}

// A desk at a pass.
fn desk_at<'a, R: Wait>(
    rt: &'a R,
    alloc: Global,
    store: &'a Store,
    pass: Pass,
) -> Result<Desk<OwnPass<'a, R>>, Memory>
    requires may { MayHaveDesk store.now pass }
    ensures outside { IfOk result (λ desk. (store_of desk).inside ≡ false) }
    ensures width { IfOk result (λ desk. 2 ≤ (store_of desk).widest) }
{
    Desk::<OwnPass<'a, R>>::new(rt, alloc, store, pass)
}

// Builds a symbol over the last `n` places, if there are so many, and tells the fault.
fn build_symbol<T: Terms>(terms: &mut T, symbol: u32, n: u32) -> Option<BuildFault>
    requires inside { (T.store terms.old).inside ≡ true }
    requires width { n ≤ (T.store terms.old).widest }
    ensures inside { (T.store terms.new).inside ≡ true }
    ensures widest { (T.store terms.new).widest ≡ (T.store terms.old).widest }
{
    if terms.depth() < n {
        return None;
    }
    match terms.build(Head::App(Symbol(symbol)), n) {
        Ok(()) => None,
        Err(fault) => Some(fault),
    }
}

// The row at a place.
fn row_at<T: Terms>(rt: &impl Abort, terms: &mut T, i: u32) -> Row
    requires inside { (T.store terms.old).inside ≡ true }
    ensures held { IsHeld (T.store terms.old) result }
    ensures unchanged { T.store terms.new ≡ T.store terms.old }
{
    assert!(rt; i < terms.depth(), "no place {i}");
    terms.at(i)
}

// Leaves the lowest places. The rows of the others are held until they are lost.
fn keep_lowest<T: Terms>(rt: &impl Abort, terms: &mut T, n: u32)
    requires inside { (T.store terms.old).inside ≡ true }
    ensures held { (T.store terms.new).held ≡ (T.store terms.old).held }
    ensures inside { (T.store terms.new).inside ≡ true }
    ensures widest { (T.store terms.new).widest ≡ (T.store terms.old).widest }
{
    assert!(rt; n <= terms.depth());
    terms.keep(n, 0);
}

// The head of the row at a place.
fn head_at<T: Terms>(rt: &impl Abort, terms: &mut T, i: u32) -> Head
    requires inside { (T.store terms.old).inside ≡ true }
    ensures unchanged { T.store terms.new ≡ T.store terms.old }
{
    assert!(rt; i < terms.depth(), "no place {i}");
    let row = terms.at(i);
    terms.head(row)
}

// Two rows. Both creations draw from the claim, so the collection that the third one needs has the
// number 1 + 2, and its epoch the base 4. It frees the row that isn't on the stack, and the third
// constant takes it. Gives the builds' faults, the epochs before and after the third, whether both
// rows are on the stack then, and the head of the second.
fn collect_and_go_on<T: Terms>(
    rt: &impl Abort,
    terms: &mut T,
) -> ([Option<BuildFault>; 3], [Option<u64>; 2], bool, Head)
    requires inside { (T.store terms.old).inside ≡ true }
{
    let zero = build_symbol(terms, 0, 0);
    let one = build_symbol(terms, 1, 0);
    let first = row_at(rt, terms, 0);
    let freed = row_at(rt, terms, 1);
    keep_lowest(rt, terms, 1);
    let before = terms.epoch();
    let two = build_symbol(terms, 2, 0);
    let after = terms.epoch();
    let stay = terms.depth() == 2 && row_at(rt, terms, 0) == first && row_at(rt, terms, 1) == freed;
    let head = head_at(rt, terms, 1);
    ([zero, one, two], [before, after], stay, head)
}

#[test]
fn a_full_desk_collects_and_goes_on(rt: HostRuntime) -> Result<(), Fail> {
    let (store, mut passes) = new_store(rt.alloc(), sizes(2, 1, 1))?;
    let pass = last_pass(&rt, &store, &mut passes);
    let mut desk = desk_at(&rt, rt.alloc(), &store, pass)?;
    desk.enter();
    let seen = collect_and_go_on(&rt, &mut desk);
    let epochs = [Some(1), Some(4)];
    let head = Head::App(Symbol(2));
    assert_eq!(rt; seen, ([None, None, None], epochs, true, head));
    Ok(())
}

// The epoch begins with a collection, and with nothing else: not with an entry, a creation, a find
// or a breath. Gives the builds' faults, and the epochs after the entry, after the find, after a
// creation behind a breath, after a collection, and after another entry.
fn begin_epochs<T: Terms>(
    rt: &impl Abort,
    terms: &mut T,
) -> ([Option<BuildFault>; 4], [Option<u64>; 5])
    requires inside { (T.store terms.old).inside ≡ true }
    requires width { 1 ≤ (T.store terms.old).widest }
{
    let entered = terms.epoch();
    let made = build_symbol(terms, 0, 0);
    let found = build_symbol(terms, 0, 0);
    let first = terms.epoch();
    terms.breathe();
    let over = build_symbol(terms, 1, 1);
    let second = terms.epoch();
    keep_lowest(rt, terms, 0);
    let collected = build_symbol(terms, 2, 0);
    let third = terms.epoch();
    terms.leave();
    terms.enter();
    let again = terms.epoch();
    (
        [made, found, over, collected],
        [entered, first, second, third, again],
    )
}

#[test]
fn an_epoch_begins_with_a_collection(rt: HostRuntime) -> Result<(), Fail> {
    let (store, mut passes) = new_store(rt.alloc(), sizes(2, 1, 1))?;
    let pass = last_pass(&rt, &store, &mut passes);
    let mut desk = desk_at(&rt, rt.alloc(), &store, pass)?;
    desk.enter();
    let seen = begin_epochs(&rt, &mut desk);
    let epochs = [Some(1), Some(1), Some(1), Some(4), Some(4)];
    assert_eq!(rt; seen, ([None, None, None, None], epochs));
    Ok(())
}

// Two rows, and both are on the stack. The refused build has collected, number 3; the last one does
// too, number 4, since the epoch of base 4 has drawn nothing. Once a place is given up there is a
// row. Gives the builds' faults, the epochs after the refusal and at the end, and whether the second
// row is on top after the refusal, is found again, and is taken at the end.
fn fill_and_give_up<T: Terms>(
    rt: &impl Abort,
    terms: &mut T,
) -> ([Option<BuildFault>; 5], [Option<u64>; 2], bool)
    requires inside { (T.store terms.old).inside ≡ true }
{
    let zero = build_symbol(terms, 0, 0);
    let one = build_symbol(terms, 1, 0);
    let second = row_at(rt, terms, 1);
    let refused = build_symbol(terms, 2, 0);
    let full = terms.epoch();
    let stays = terms.depth() == 2 && row_at(rt, terms, 1) == second;
    let found = build_symbol(terms, 1, 0);
    let above = row_at(rt, terms, 2);
    keep_lowest(rt, terms, 1);
    let two = build_symbol(terms, 2, 0);
    let last = terms.epoch();
    let taken = row_at(rt, terms, 1);
    (
        [zero, one, refused, found, two],
        [full, last],
        stays && above == second && taken == second,
    )
}

#[test]
fn a_store_is_full_where_all_rows_are_on_the_stack(rt: HostRuntime) -> Result<(), Fail> {
    let (store, mut passes) = new_store(rt.alloc(), sizes(2, 1, 1))?;
    let pass = last_pass(&rt, &store, &mut passes);
    let mut desk = desk_at(&rt, rt.alloc(), &store, pass)?;
    desk.enter();
    let seen = fill_and_give_up(&rt, &mut desk);
    let built = [None, None, Some(BuildFault::StoreFull), None, None];
    assert_eq!(rt; seen, (built, [Some(4), Some(5)], true));
    Ok(())
}
