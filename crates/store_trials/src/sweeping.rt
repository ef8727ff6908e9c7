//! Collections on one thread, in stores with answers worked out by hand.
ghost use Rattle.std.specs.Prelude.{◌≡◌, All};
ghost use Rattle.lock_core.specs.declared.parts.Phase.TheVariants.{Shared};
ghost use Rattle.store_model.specs.Machine.{In};
ghost use Rattle.node_rows.specs.Belonging.{IsSeated, IsOpen};
ghost use Rattle.node_rows.specs.Inside.{IsInside};
ghost use Rattle.node_rows.specs.Told.{Tells, view_of};
ghost use Rattle.node_rows.specs.Passes.{IsOut};

use busy_forbidden::Busy;
use node_rows::{Last, Pass, Store, kept, last};
use root_sets::push_root;
use std::process::Abort;
use std::test::Fail;
use store_model::Sizes;
use sweep_phase::{Kept, TryCollect, Worn, collect, collect_now};
use term_create::{Full, create};
use term_model::{Head, Row, Symbol};

mod creating;

// A store of one pass, with no room for protected rows but one.
const fn worn_sizes(first: u64) -> Sizes
    ensures { result
        ≡ record {
          rows = 2;
          buckets = 1;
          start = 1;
          seats = 1;
          depth = 1;
          arity = 0;
          first = first;
        } }
{
    Sizes {
        rows: 2,
        buckets: 1,
        start: 1,
        seats: 1,
        depth: 1,
        arity: 0,
        first,
    }
}

// The last of the passes that are left.
fn last_pass(rt: &impl Abort, store: &Store, passes: &mut Vec<Pass>) -> Pass
    requires passes { All (λ p. IsSeated store.now p × IsOut (view_of p)) passes.old.items }
    requires told { All Tells passes.old.items }
    ensures told { All Tells passes.new.items }
    ensures left { All (λ p. IsSeated store.now p × IsOut (view_of p)) passes.new.items }
    ensures pass { IsSeated store.now result × IsOut (view_of result) × Tells result }
{
    match passes.pop() {
        Some(pass) => pass,
        None => panic!(rt; "a pass is left"),
    }
}

// Enters shared access.
fn enter(rt: &impl Abort, store: &Store, pass: &mut Pass)
    requires store { IsOpen store.now }
    requires pass { IsSeated store.now pass.old × IsOut (view_of pass.old) × Tells pass.old }
    ensures inside { IsInside store.now pass.new }
    ensures shared { (view_of pass.new).lock.phase ≡ Shared }
{
    match store.try_enter_shared(pass) {
        Ok(()) => {}
        Err(_) => panic!(rt; "nobody is in exclusive access"),
    }
}

// A constant, whose row is then protected.
fn protect_constant(rt: &impl Abort, store: &Store, pass: &mut Pass, symbol: u32) -> Row
    requires inside { IsInside store.now pass.old }
    requires shared { (view_of pass.old).lock.phase ≡ Shared }
    ensures inside { IsInside store.now pass.new }
    ensures shared { (view_of pass.new).lock.phase ≡ Shared }
{
    match create(store, pass, Head::App(Symbol(symbol)), &[]) {
        Ok(row) => {
            let pushed = push_root(store, pass, row);
            assert!(rt; pushed.is_ok());
            row
        }
        Err(_) => panic!(rt; "a row is free"),
    }
}

// A collection in an access of its own, and the last entry before the leave.
fn collect_and_tell(rt: &impl Abort, store: &Store, pass: &mut Pass) -> (Result<Kept, Worn>, Last)
    requires store { IsOpen store.now }
    requires pass { IsSeated store.now pass.old × IsOut (view_of pass.old) × Tells pass.old }
    ensures pass { IsSeated store.now pass.new × IsOut (view_of pass.new) × Tells pass.new }
{
    let Ok(()) = store.try_enter_exclusive(pass) else {
        panic!(rt; "nobody is in");
    };
    let kept = collect(store, pass);
    let told = last(pass);
    store.leave_exclusive(pass);
    (kept, told)
}

// With first 2^62 - 5 there is room for one collection: base + claim + 1 + span is
// 2^62 - 5 + 0 + 1 + (2 + 1 + 1). Its number is the base, and the next one is worn.
#[test]
fn a_store_wears_out(rt: HostRuntime) -> Result<(), Fail> {
    let (store, mut passes) = Store::make(rt.alloc(), worn_sizes((1 << 62) - 5))?;
    let mut pass = last_pass(&rt, &store, &mut passes);
    let first = collect_and_tell(&rt, &store, &mut pass);
    let second = collect_and_tell(&rt, &store, &mut pass);
    let kept = Kept {
        live: 0,
        buckets: 1,
    };
    let collected = (Ok(kept), Last::Collect((1 << 62) - 5));
    let worn = (Err(Worn), Last::Roots((1 << 62) - 5));
    assert_eq!(rt; [first, second], [collected, worn]);
    Ok(())
}

// In one shared access: two constants, whose rows are then protected.
fn protect_two(rt: &impl Abort, store: &Store, pass: &mut Pass) -> (Row, Row)
    requires store { IsOpen store.now }
    requires pass { IsSeated store.now pass.old × IsOut (view_of pass.old) × Tells pass.old }
    ensures pass { IsSeated store.now pass.new × IsOut (view_of pass.new) × Tells pass.new }
{
    enter(rt, store, pass);
    let first = protect_constant(rt, store, pass, 0);
    let second = protect_constant(rt, store, pass, 1);
    store.leave_shared(pass);
    (first, second)
}

// Three collections, each in an access of its own.
fn collect_thrice(rt: &impl Abort, store: &Store, pass: &mut Pass) -> [Result<Kept, Worn>; 3]
    requires store { IsOpen store.now }
    requires pass { IsSeated store.now pass.old × IsOut (view_of pass.old) × Tells pass.old }
    ensures pass { IsSeated store.now pass.new × IsOut (view_of pass.new) × Tells pass.new }
{
    let (first, _) = collect_and_tell(rt, store, pass);
    let (second, _) = collect_and_tell(rt, store, pass);
    let (third, _) = collect_and_tell(rt, store, pass);
    [first, second, third]
}

// In one shared access: the same two constants.
fn find_two(
    rt: &impl Abort,
    store: &Store,
    pass: &mut Pass,
) -> (Result<Row, Full>, Result<Row, Full>)
    requires store { IsOpen store.now }
    requires pass { IsSeated store.now pass.old × IsOut (view_of pass.old) × Tells pass.old }
{
    enter(rt, store, pass);
    let first = create(store, pass, Head::App(Symbol(0)), &[]);
    let second = create(store, pass, Head::App(Symbol(1)), &[]);
    store.leave_shared(pass);
    (first, second)
}

const fn kept_two(buckets: u32) -> Result<Kept, Worn> {
    Ok(Kept { live: 2, buckets })
}

// Two constants are protected, of a store of four rows and four buckets, of which one is in use.
// Twice 2 exceeds 1 and then 2, but not 4.
#[test]
fn buckets_in_use_double_up_to_all(rt: HostRuntime) -> Result<(), Fail> {
    let sizes = Sizes {
        rows: 4,
        buckets: 4,
        start: 1,
        seats: 1,
        depth: 4,
        arity: 1,
        first: 1,
    };
    let (store, mut passes) = Store::make(rt.alloc(), sizes)?;
    let mut pass = last_pass(&rt, &store, &mut passes);
    let made = protect_two(&rt, &store, &mut pass);
    let kept = collect_thrice(&rt, &store, &mut pass);
    let found = find_two(&rt, &store, &mut pass);
    assert_eq!(rt; kept, [kept_two(2), kept_two(4), kept_two(4)]);
    assert_eq!(rt; found, (Ok(made.0), Ok(made.1)));
    Ok(())
}

// In one shared access: a constant, whose row is then protected.
fn protect_one(rt: &impl Abort, store: &Store, pass: &mut Pass) -> Row
    requires store { IsOpen store.now }
    requires pass { IsSeated store.now pass.old × IsOut (view_of pass.old) × Tells pass.old }
    ensures pass { IsSeated store.now pass.new × IsOut (view_of pass.new) × Tells pass.new }
{
    enter(rt, store, pass);
    let row = protect_constant(rt, store, pass, 0);
    store.leave_shared(pass);
    row
}

// In one shared access: a constant, whose row is then protected, and one that nobody protects.
fn protect_and_make(rt: &impl Abort, store: &Store, pass: &mut Pass) -> (Row, Result<Row, Full>)
    requires store { IsOpen store.now }
    requires pass { IsSeated store.now pass.old × IsOut (view_of pass.old) × Tells pass.old }
    ensures pass { IsSeated store.now pass.new × IsOut (view_of pass.new) × Tells pass.new }
{
    enter(rt, store, pass);
    let row = protect_constant(rt, store, pass, 1);
    let other = create(store, pass, Head::App(Symbol(2)), &[]);
    store.leave_shared(pass);
    (row, other)
}

// In one shared access: a constant that is new.
fn make_another(rt: &impl Abort, store: &Store, pass: &mut Pass) -> Result<Row, Full>
    requires store { IsOpen store.now }
    requires pass { IsSeated store.now pass.old × IsOut (view_of pass.old) × Tells pass.old }
{
    enter(rt, store, pass);
    let row = create(store, pass, Head::App(Symbol(3)), &[]);
    store.leave_shared(pass);
    row
}

// Two passes protect a constant each, and a third one is made that nobody protects: it alone is
// freed, whoever collects.
#[test]
fn rows_of_both_passes_stay(rt: HostRuntime) -> Result<(), Fail> {
    let sizes = Sizes {
        rows: 3,
        buckets: 2,
        start: 2,
        seats: 2,
        depth: 2,
        arity: 1,
        first: 1,
    };
    let (store, mut passes) = Store::make(rt.alloc(), sizes)?;
    let mut second = last_pass(&rt, &store, &mut passes);
    let mut first = last_pass(&rt, &store, &mut passes);
    let a = protect_one(&rt, &store, &mut first);
    let (b, c) = protect_and_make(&rt, &store, &mut second);
    let (result, _) = collect_and_tell(&rt, &store, &mut first);
    let stay = kept(&first, a) && kept(&first, b);
    let again = make_another(&rt, &store, &mut first);
    assert_eq!(rt; result, kept_two(2));
    assert!(rt; stay && c.is_ok() && c != Ok(a) && c != Ok(b) && again == c);
    Ok(())
}

// Three passes. While the first is in shared access a collection of the second is refused, by its
// seat; the third may enter then, so no flag is left set. When both have left, the collection frees
// the row that nobody protects.
#[test]
fn a_collection_now_is_refused_beside_a_reader(rt: HostRuntime) -> Result<(), Fail> {
    let sizes = Sizes {
        rows: 2,
        buckets: 1,
        start: 1,
        seats: 3,
        depth: 1,
        arity: 1,
        first: 1,
    };
    let (store, mut passes) = Store::make(rt.alloc(), sizes)?;
    let mut third = last_pass(&rt, &store, &mut passes);
    let mut second = last_pass(&rt, &store, &mut passes);
    let mut first = last_pass(&rt, &store, &mut passes);
    enter(&rt, &store, &mut first);
    let made = create(&store, &mut first, Head::App(Symbol(0)), &[]);
    assert!(rt; made.is_ok());
    let refused = collect_now(&store, &mut second);
    assert_eq!(rt; refused, Err(TryCollect::Busy(Busy::Seat(0))));
    enter(&rt, &store, &mut third);
    store.leave_shared(&mut third);
    store.leave_shared(&mut first);
    let kept = collect_now(&store, &mut second);
    assert_eq!(rt;
        kept,
        Ok(Kept {
            live: 0,
            buckets: 1
        })
    );
    Ok(())
}
