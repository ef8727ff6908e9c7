//! Protected rows on one thread, in stores with hand-worked answers.
ghost use Rattle.std.specs.Prelude.{◌≡◌, ◌<◌, ℕ, All, length};
ghost use Rattle.lock_core.specs.declared.parts.Phase.TheVariants.{Shared};
ghost use Rattle.store_model.specs.Machine.{In, Each, protected_in};
ghost use Rattle.node_rows.specs.Belonging.{IsSeated, IsOpen};
ghost use Rattle.node_rows.specs.Inside.{IsInside};
ghost use Rattle.node_rows.specs.Rows.{names};
ghost use Rattle.node_rows.specs.Told.{Tells, view_of};
ghost use Rattle.node_rows.specs.Passes.{IsOut};

use busy_forbidden::Busy;
use node_rows::{Pass, Store};
use root_sets::{keep_roots, push_root, root_at, store_roots};
use std::process::Abort;
use std::test::Fail;
use store_model::Sizes;
use term_create::{Full, create};
use term_model::{Head, Row, Symbol};
use terms_api::Deep;

// A store of two rows and two passes.
const SMALL: Sizes = Sizes {
    rows: 2,
    buckets: 1,
    start: 1,
    seats: 2,
    depth: 4,
    arity: 1,
    first: 1,
};

// The last of the passes that are left.
fn last_pass(rt: &impl Abort, store: &Store, passes: &mut Vec<Pass>) -> Pass
    requires passes { All (λ p. IsSeated store.now p × IsOut (view_of p)) passes.old.items }
    requires told { All Tells passes.old.items }
    ensures told { All Tells passes.new.items }
    ensures left { All (λ p. IsSeated store.now p × IsOut (view_of p)) passes.new.items }
    ensures pass { IsSeated store.now result × IsOut (view_of result) × Tells result }
{
    match passes.pop() {
        Some(pass) => pass,
        None => panic!(rt; "a pass is left"),
    }
}

// Enters shared access.
fn enter(rt: &impl Abort, store: &Store, pass: &mut Pass)
    requires store { IsOpen store.now }
    requires pass { IsSeated store.now pass.old × IsOut (view_of pass.old) × Tells pass.old }
    ensures inside { IsInside store.now pass.new }
    ensures shared { (view_of pass.new).lock.phase ≡ Shared }
{
    match store.try_enter_shared(pass) {
        Ok(()) => {}
        Err(_) => panic!(rt; "nobody is in exclusive access"),
    }
}

// A constant, whose row is then protected.
fn protect_constant(rt: &impl Abort, store: &Store, pass: &mut Pass, symbol: u32) -> Row
    requires inside { IsInside store.now pass.old }
    requires shared { (view_of pass.old).lock.phase ≡ Shared }
    ensures inside { IsInside store.now pass.new }
    ensures shared { (view_of pass.new).lock.phase ≡ Shared }
    ensures uses { In result.0 (view_of pass.new).store.got }
    ensures keeps { (r : ℕ) → In r (view_of pass.old).store.got
        → In r (view_of pass.new).store.got }
{
    match create(store, pass, Head::App(Symbol(symbol)), &[]) {
        Ok(row) => {
            let pushed = push_root(store, pass, row);
            assert_eq!(rt; pushed, Ok(()));
            row
        }
        Err(_) => panic!(rt; "a row is free"),
    }
}

// Two constants, whose rows are then protected.
fn protect_two(rt: &impl Abort, store: &Store, pass: &mut Pass, symbol: u32) -> (Row, Row)
    requires inside { IsInside store.now pass.old }
    requires shared { (view_of pass.old).lock.phase ≡ Shared }
    requires below { symbol < 8 }
    ensures inside { IsInside store.now pass.new }
    ensures shared { (view_of pass.new).lock.phase ≡ Shared }
    ensures first { In result.0.0 (view_of pass.new).store.got }
    ensures second { In result.1.0 (view_of pass.new).store.got }
    ensures keeps { (r : ℕ) → In r (view_of pass.old).store.got
        → In r (view_of pass.new).store.got }
{
    let first = protect_constant(rt, store, pass, symbol);
    let second = protect_constant(rt, store, pass, symbol + 1);
    (first, second)
}

// Four constants, whose rows are then protected in order.
fn protect_four(rt: &impl Abort, store: &Store, pass: &mut Pass) -> [Row; 4]
    requires inside { IsInside store.now pass.old }
    requires shared { (view_of pass.old).lock.phase ≡ Shared }
    ensures inside { IsInside store.now pass.new }
    ensures shared { (view_of pass.new).lock.phase ≡ Shared }
    ensures uses { Each (λ r. In r (view_of pass.new).store.got) (names result) }
{
    let (a, b) = protect_two(rt, store, pass, 0);
    let (c, d) = protect_two(rt, store, pass, 2);
    [a, b, c, d]
}

// Protects four rows in place of those before, and of these keeps the first and the last.
fn keep_two(store: &Store, pass: &mut Pass, rows: &[Row])
    requires inside { IsInside store.now pass.old }
    requires four { (length rows.now ≡ 4) × (store.now.sizes.depth ≡ 4) }
    requires uses { Each (λ r. In r (view_of pass.old).store.got) (names rows.now) }
    ensures inside { IsInside store.now pass.new }
    ensures lock { (view_of pass.new).lock ≡ (view_of pass.old).lock }
    ensures two { length (protected_in (view_of pass.new).store) ≡ 2 }
{
    store_roots(store, pass, rows);
    keep_roots(store, pass, 1, 1);
}

// The two protected rows.
fn two_roots(store: &Store, pass: &mut Pass) -> (Row, Row)
    requires inside { IsInside store.now pass.old }
    requires two { length (protected_in (view_of pass.old).store) ≡ 2 }
    ensures inside { IsInside store.now pass.new }
    ensures lock { (view_of pass.new).lock ≡ (view_of pass.old).lock }
{
    let first = root_at(store, pass, 0);
    let second = root_at(store, pass, 1);
    (first, second)
}

// In shared access of the second pass: the constant that the first pass made, another one, and a
// term over the first, which is Full.
fn create_past_the_room(rt: &impl Abort, store: &Store, pass: &mut Pass, row: Row)
    requires inside { IsInside store.now pass.old }
    requires shared { (view_of pass.old).lock.phase ≡ Shared }
    ensures inside { IsInside store.now pass.new }
    ensures shared { (view_of pass.new).lock.phase ≡ Shared }
{
    let same = protect_constant(rt, store, pass, 0);
    assert_eq!(rt; same, row);
    let other = create(store, pass, Head::App(Symbol(1)), &[]);
    assert!(rt; other.is_ok() && other != Ok(row));
    let third = create(store, pass, Head::App(Symbol(2)), &[same]);
    assert_eq!(rt; third, Err(Full));
}

#[test]
fn two_rows_are_full_by_two_passes(rt: HostRuntime) -> Result<(), Fail> {
    let (store, mut passes) = Store::make(rt.alloc(), SMALL)?;
    let mut second = last_pass(&rt, &store, &mut passes);
    let mut first = last_pass(&rt, &store, &mut passes);
    enter(&rt, &store, &mut first);
    let row = protect_constant(&rt, &store, &mut first, 0);
    store.leave_shared(&mut first);
    enter(&rt, &store, &mut second);
    create_past_the_room(&rt, &store, &mut second, row);
    store.leave_shared(&mut second);
    Ok(())
}

// While the first pass is in shared access, the second one is refused exclusive access.
fn refused_beside(rt: &impl Abort, store: &Store, first: &mut Pass, second: &mut Pass) -> Busy
    requires store { IsOpen store.now }
    requires first { IsSeated store.now first.old × IsOut (view_of first.old) × Tells first.old }
    requires second { IsSeated store.now second.old × IsOut (view_of second.old)
        × Tells second.old }
    ensures first { IsSeated store.now first.new × IsOut (view_of first.new) × Tells first.new }
    ensures second { IsSeated store.now second.new × IsOut (view_of second.new)
        × Tells second.new }
{
    enter(rt, store, first);
    let Err(busy) = store.try_enter_exclusive(second) else {
        panic!(rt; "the first pass is in");
    };
    store.leave_shared(first);
    busy
}

// While the second pass is in exclusive access, the first one is refused shared access, and then
// exclusive access.
fn refused_behind(
    rt: &impl Abort,
    store: &Store,
    first: &mut Pass,
    second: &mut Pass,
) -> (Busy, Busy)
    requires store { IsOpen store.now }
    requires first { IsSeated store.now first.old × IsOut (view_of first.old) × Tells first.old }
    requires second { IsSeated store.now second.old × IsOut (view_of second.old)
        × Tells second.old }
{
    let Ok(()) = store.try_enter_exclusive(second) else {
        panic!(rt; "nobody is in");
    };
    let Err(shared) = store.try_enter_shared(first) else {
        panic!(rt; "the second pass is in");
    };
    let Err(exclusive) = store.try_enter_exclusive(first) else {
        panic!(rt; "the second pass has the mutex");
    };
    store.leave_exclusive(second);
    (shared, exclusive)
}

#[test]
fn exclusive_access_waits_for_shared(rt: HostRuntime) -> Result<(), Fail> {
    let (store, mut passes) = Store::make(rt.alloc(), SMALL)?;
    let mut second = last_pass(&rt, &store, &mut passes);
    let mut first = last_pass(&rt, &store, &mut passes);
    assert_eq!(rt;
        refused_beside(&rt, &store, &mut first, &mut second),
        Busy::Seat(0)
    );
    assert_eq!(rt;
        refused_behind(&rt, &store, &mut first, &mut second),
        (Busy::Forbidden, Busy::Mutex)
    );
    Ok(())
}

// All four places are taken, so a fifth row is `Deep`. The four rows are then stored in the other
// order, of which the first and the last are kept.
#[test]
fn protected_rows_are_stored_kept_and_read(rt: HostRuntime) -> Result<(), Fail> {
    let sizes = Sizes { rows: 4, ..SMALL };
    let (store, mut passes) = Store::make(rt.alloc(), sizes)?;
    let mut pass = last_pass(&rt, &store, &mut passes);
    enter(&rt, &store, &mut pass);
    let [a, b, c, d] = protect_four(&rt, &store, &mut pass);
    assert_eq!(rt; push_root(&store, &mut pass, a), Err(Deep));
    keep_two(&store, &mut pass, &[d, c, b, a]);
    assert_eq!(rt; two_roots(&store, &mut pass), (d, a));
    assert!(rt; a != d);
    store.leave_shared(&mut pass);
    Ok(())
}
