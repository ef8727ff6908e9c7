//! Desks beside another one, in a worn store, and with a log.
ghost use Rattle.std.specs.Prelude.{◌≡◌, ◌≤◌, [], All, IfOk, true, false};
ghost use Rattle.store_model.specs.NewStore.{MaySize};
ghost use Rattle.node_rows.specs.Told.{view_of};
ghost use Rattle.shared_desk.specs.Desk.{store_of};
ghost use Rattle.shared_desk.specs.Telling.{MayHaveDesk};

use super::{build_symbol, desk_at, head_at, keep_lowest, last_pass, new_store, row_at, sizes};
use node_rows::{Last, Pass, Store, last};
use shared_desk::{LogDesk, Memory};
use std::alloc::Global;
use std::process::Abort;
use std::sync::Wait;
use std::test::Fail;
use store_model::Sizes;
use term_model::{Head, Row, Symbol};
use terms_api::{BuildFault, Terms};

// A constant, and a symbol over it: their rows.
fn make_term<T: Terms>(rt: &impl Abort, terms: &mut T) -> (Row, Row)
    requires inside { (T.store terms.old).inside ≡ true }
    requires width { 1 ≤ (T.store terms.old).widest }
    ensures inside { (T.store terms.new).inside ≡ true }
    ensures widest { (T.store terms.new).widest ≡ (T.store terms.old).widest }
{
    assert_eq!(rt; build_symbol(terms, 0, 0), None);
    let constant = row_at(rt, terms, 0);
    assert_eq!(rt; build_symbol(terms, 1, 1), None);
    (constant, row_at(rt, terms, 0))
}

// A constant that is given up, and another: their rows, and the epoch then.
fn replace_constant<T: Terms>(rt: &impl Abort, terms: &mut T) -> (Row, Row, Option<u64>)
    requires inside { (T.store terms.old).inside ≡ true }
    ensures inside { (T.store terms.new).inside ≡ true }
{
    assert_eq!(rt; build_symbol(terms, 2, 0), None);
    let freed = row_at(rt, terms, 0);
    keep_lowest(rt, terms, 0);
    assert_eq!(rt; build_symbol(terms, 3, 0), None);
    let epoch = terms.epoch();
    (freed, row_at(rt, terms, 0), epoch)
}

// The rows of the lowest place and of the first constant, the head of that place, and the epoch.
fn find_constant<T: Terms>(rt: &impl Abort, terms: &mut T) -> (Row, Row, Head, Option<u64>)
    requires inside { (T.store terms.old).inside ≡ true }
{
    let epoch = terms.epoch();
    let lowest = row_at(rt, terms, 0);
    let head = head_at(rt, terms, 0);
    assert_eq!(rt; build_symbol(terms, 0, 0), None);
    (lowest, row_at(rt, terms, 1), head, epoch)
}

// Two desks: what the second sees, and what the first sees then, against what was worked out.
fn collect_beside<R: Wait + Abort + Alloc<A = Global>>(
    rt: &R,
    store: &Store,
    pass: Pass,
    other: Pass,
) -> Result<(), Fail>
    requires first { MayHaveDesk store.now pass }
    requires second { MayHaveDesk store.now other }
{
    let mut first = desk_at(rt, rt.alloc(), store, pass)?;
    let mut second = desk_at(rt, rt.alloc(), store, other)?;
    first.enter();
    let (constant, term) = make_term(rt, &mut first);
    first.leave();
    second.enter();
    let (freed, taken, epoch) = replace_constant(rt, &mut second);
    second.leave();
    first.enter();
    let seen = find_constant(rt, &mut first);
    assert!(rt; taken == freed && epoch == Some(5));
    assert_eq!(rt; seen, (term, constant, Head::App(Symbol(1)), Some(5)));
    Ok(())
}

// The first desk has a term of two rows on its stack, and is out. The second one makes a constant
// in the third row, gives it up and makes another: the collection, number 1 + 3, keeps the first
// desk's two rows.
#[test]
fn a_collection_keeps_the_stack_of_another_desk(rt: HostRuntime) -> Result<(), Fail> {
    let (store, mut passes) = new_store(rt.alloc(), sizes(3, 2, 1))?;
    let pass = last_pass(&rt, &store, &mut passes);
    let other = last_pass(&rt, &store, &mut passes);
    collect_beside(&rt, &store, pass, other)
}

// With the first base 2^62 - 5 there is room for one collection with an empty claim:
// 2^62 - 5 + 0 + 1 + (2 + 1 + 1). Two creations have drawn, so the one that the third needs is
// worn, and a refused one changes nothing. Gives the builds' faults, and the epoch and the depth
// after the refusal.
fn wear_out<T: Terms>(rt: &impl Abort, terms: &mut T) -> ([Option<BuildFault>; 4], Option<u64>, u32)
    requires inside { (T.store terms.old).inside ≡ true }
    ensures inside { (T.store terms.new).inside ≡ true }
{
    let zero = build_symbol(terms, 0, 0);
    let one = build_symbol(terms, 1, 0);
    keep_lowest(rt, terms, 0);
    let worn = build_symbol(terms, 2, 0);
    let epoch = terms.epoch();
    let depth = terms.depth();
    let found = build_symbol(terms, 1, 0);
    ([zero, one, worn, found], epoch, depth)
}

// The pass noted Roots last, after the second creation, whose number is 2^62 - 4.
#[test]
fn a_worn_store_says_so(rt: HostRuntime) -> Result<(), Fail> {
    let (store, mut passes) = new_store(rt.alloc(), sizes(2, 1, (1 << 62) - 5))?;
    let pass = last_pass(&rt, &store, &mut passes);
    let mut desk = desk_at(&rt, rt.alloc(), &store, pass)?;
    desk.enter();
    let seen = wear_out(&rt, &mut desk);
    desk.leave();
    let pass = desk.into_pass();
    let built = [None, None, Some(BuildFault::Worn), None];
    assert_eq!(rt; seen, (built, Some((1 << 62) - 5), 0));
    assert_eq!(rt; last(&pass), Last::Roots((1 << 62) - 4));
    Ok(())
}

// A store, and its passes, which have no entries.
fn unnoted_store(alloc: Global, sizes: Sizes) -> Result<(Store, Vec<Pass>), Memory>
    requires { MaySize sizes }
    ensures may { IfOk result (λ t. All (MayHaveDesk t.0) t.1.items) }
    ensures none { IfOk result (λ t. All (λ p. (view_of p).store.entries ≡ []) t.1.items) }
{
    Store::make(alloc, sizes)
}

// The last of the passes that are left, without entries.
fn unnoted_pass(rt: &impl Abort, store: &Store, passes: &mut Vec<Pass>) -> Pass
    requires passes { All (MayHaveDesk store.now) passes.old.items }
    requires unnoted { All (λ p. (view_of p).store.entries ≡ []) passes.old.items }
    ensures pass { MayHaveDesk store.now result }
    ensures none { (view_of result).store.entries ≡ [] }
{
    match passes.pop() {
        Some(pass) => pass,
        None => panic!(rt; "a pass is left"),
    }
}

// A desk that writes a log at a new pass.
fn log_desk_at<'a, R: Wait>(
    rt: &'a R,
    alloc: Global,
    store: &'a Store,
    pass: Pass,
) -> Result<LogDesk<'a, R>, Memory>
    requires may { MayHaveDesk store.now pass }
    requires unnoted { (view_of pass).store.entries ≡ [] }
    ensures outside { IfOk result (λ desk. (store_of desk).inside ≡ false) }
    ensures width { IfOk result (λ desk. 1 ≤ (store_of desk).widest) }
{
    LogDesk::new(rt, alloc, store, pass)
}

// Two rows. Symbol 0 is made as row 0 with the number 1 and found after it, and symbol 1 over it is
// made as row 1 with the number 2. The stack is then let go but for symbol 0, so that symbol 2 fits
// only after a collection, which has the number 3 and keeps row 0; symbol 2 is made as row 1 with
// the number 4. Gives the builds' faults.
fn build_four<T: Terms>(rt: &impl Abort, terms: &mut T) -> [Option<BuildFault>; 4]
    requires inside { (T.store terms.old).inside ≡ true }
    requires width { 1 ≤ (T.store terms.old).widest }
    ensures inside { (T.store terms.new).inside ≡ true }
{
    let made = build_symbol(terms, 0, 0);
    let found = build_symbol(terms, 0, 0);
    let over = build_symbol(terms, 1, 1);
    keep_lowest(rt, terms, 1);
    [made, found, over, build_symbol(terms, 2, 0)]
}

const LINES: &[u8] =
    b"# make 1 0 s0\n# find 1 0 s0\n# make 2 1 s1 0\n# roots 2 0\n# collect 3 0\n# make 4 1 s2\n# roots 4 0 1\n# roots 4 0 1\n";

#[test]
fn a_desk_writes_its_entries_as_lines(rt: HostRuntime) -> Result<(), Fail> {
    let (store, mut passes) = unnoted_store(rt.alloc(), sizes(2, 1, 1))?;
    let pass = unnoted_pass(&rt, &store, &mut passes);
    let mut desk = log_desk_at(&rt, rt.alloc(), &store, pass)?;
    desk.enter();
    assert_eq!(rt; build_four(&rt, &mut desk), [None, None, None, None]);
    desk.leave();
    assert_eq!(rt; desk.lines(), LINES);
    assert!(rt; !desk.lost());
    let pass = desk.into_pass();
    assert_eq!(rt; last(&pass), Last::Roots(4));
    Ok(())
}
