//! Passes of one store, on one thread.
ghost use Rattle.std.specs.Prelude.{All};
ghost use Rattle.node_rows.specs.Belonging.{IsSeated, IsOpen};
ghost use Rattle.node_rows.specs.Passes.{IsOut};
ghost use Rattle.node_rows.specs.Told.{Tells, view_of};

use busy_forbidden::Busy;
use node_rows::{Last, Pass, Store, kept, last};
use std::process::Abort;
use std::test::Fail;
use store_model::Sizes;
use term_model::Row;

const SMALL: Sizes = Sizes {
    rows: 4,
    buckets: 2,
    start: 1,
    seats: 2,
    depth: 3,
    arity: 2,
    first: 1,
};

// The last of the passes that are left.
fn last_pass(rt: &impl Abort, store: &Store, passes: &mut Vec<Pass>) -> Pass
    requires passes { All (λ p. IsSeated store.now p × IsOut (view_of p)) passes.old.items }
    requires told { All Tells passes.old.items }
    ensures left { All (λ p. IsSeated store.now p × IsOut (view_of p)) passes.new.items }
    ensures left_told { All Tells passes.new.items }
    ensures pass { IsSeated store.now result × IsOut (view_of result) }
    ensures told { Tells result }
{
    match passes.pop() {
        Some(pass) => pass,
        None => panic!(rt; "a pass is left"),
    }
}

// Enters and leaves shared access, and gives the base and the number of buckets in use that the
// entry loaded.
fn visit(rt: &impl Abort, store: &Store, pass: &mut Pass) -> (u64, u64)
    requires store { IsOpen store.now }
    requires pass { IsSeated store.now pass.old × IsOut (view_of pass.old) }
    ensures pass { IsSeated store.now pass.new × IsOut (view_of pass.new) }
    ensures told { Tells pass.old → Tells pass.new }
{
    match store.try_enter_shared(pass) {
        Ok(()) => {
            store.leave_shared(pass);
            (pass.base, pass.in_use)
        }
        Err(_) => panic!(rt; "nobody is in"),
    }
}

// While the first pass is in exclusive access, the second one is refused both ways.
fn refuses(rt: &impl Abort, store: &Store, first: &mut Pass, second: &mut Pass) -> (Busy, Busy)
    requires store { IsOpen store.now }
    requires first { IsSeated store.now first.old × IsOut (view_of first.old) }
    requires second { IsSeated store.now second.old × IsOut (view_of second.old) }
    ensures first { IsSeated store.now first.new × IsOut (view_of first.new) }
    ensures second { IsSeated store.now second.new × IsOut (view_of second.new) }
{
    match store.try_enter_exclusive(first) {
        Ok(()) => {}
        Err(_) => panic!(rt; "nobody is in"),
    }
    let shared = match store.try_enter_shared(second) {
        Ok(()) => panic!(rt; "the first pass is in"),
        Err(busy) => busy,
    };
    let exclusive = match store.try_enter_exclusive(second) {
        Ok(()) => panic!(rt; "the first pass has the mutex"),
        Err(busy) => busy,
    };
    store.leave_exclusive(first);
    (shared, exclusive)
}

#[test]
fn passes_enter_and_leave(rt: HostRuntime) -> Result<(), Fail> {
    let (store, mut passes) = Store::make(rt.alloc(), SMALL)?;
    let mut second = last_pass(&rt, &store, &mut passes);
    let mut first = last_pass(&rt, &store, &mut passes);
    assert_eq!(rt; visit(&rt, &store, &mut first), (1, 1));
    let (shared, exclusive) = refuses(&rt, &store, &mut first, &mut second);
    assert_eq!(rt; shared, Busy::Forbidden);
    assert_eq!(rt; exclusive, Busy::Mutex);
    assert_eq!(rt; visit(&rt, &store, &mut second), (1, 1));
    Ok(())
}

// The first base is 1, so all that a pass without entries has seen is 0.
#[test]
fn a_leave_is_the_last_entry(rt: HostRuntime) -> Result<(), Fail> {
    let (store, mut passes) = Store::make(rt.alloc(), SMALL)?;
    let mut pass = last_pass(&rt, &store, &mut passes);
    assert_eq!(rt; last(&pass), Last::Nothing);
    visit(&rt, &store, &mut pass);
    assert_eq!(rt; last(&pass), Last::Roots(0));
    assert!(rt; !kept(&pass, Row(0)));
    assert!(rt; !kept(&pass, Row(4)));
    Ok(())
}

#[test]
fn two_seats_give_two_passes_which_close_the_store(rt: HostRuntime) -> Result<(), Fail> {
    let (store, passes) = Store::make(rt.alloc(), SMALL)?;
    assert_eq!(rt; passes.len(), 2);
    let _ = store.close(passes);
    Ok(())
}
