//! Creations after a collection, in stores with answers worked out by hand.
ghost use Rattle.std.specs.Prelude.{◌≡◌, true};
ghost use Rattle.lock_core.specs.declared.parts.Phase.TheVariants.{Shared};
ghost use Rattle.store_model.specs.NewStore.{MaySize};
ghost use Rattle.store_model.specs.Machine.{In};
ghost use Rattle.node_rows.specs.Belonging.{IsExclusive, IsSeated, IsOpen};
ghost use Rattle.node_rows.specs.Inside.{IsInside};
ghost use Rattle.node_rows.specs.Told.{Tells, view_of};
ghost use Rattle.node_rows.specs.Passes.{IsOut};

use crate::sweeping::{enter, last_pass, protect_constant, protect_one, protect_two};
use node_rows::{Last, Pass, Store, last};
use root_sets::root_at;
use std::alloc::Global;
use std::process::Abort;
use std::test::Fail;
use store_model::Sizes;
use sweep_phase::{Kept, TryCollect, collect, collect_now, create_exclusive};
use term_create::{Full, create};
use term_model::{Head, Row, Symbol};

// Enters exclusive access and collects.
fn collect_here(rt: &impl Abort, store: &Store, pass: &mut Pass) -> Kept
    requires store { IsOpen store.now }
    requires pass { IsSeated store.now pass.old × IsOut (view_of pass.old) × Tells pass.old }
    ensures inside { IsInside store.now pass.new }
    ensures granted { IsExclusive pass.new }
    ensures fresh { (view_of pass.new).store.fresh ≡ true }
{
    let Ok(()) = store.try_enter_exclusive(pass) else {
        panic!(rt; "nobody is in");
    };
    match collect(store, pass) {
        Ok(kept) => kept,
        Err(_) => panic!(rt; "there is room for an epoch"),
    }
}

// A constant, after a collection.
fn make_constant(store: &Store, pass: &mut Pass, symbol: u32) -> Result<Row, Full>
    requires inside { IsInside store.now pass.old }
    requires granted { IsExclusive pass.old }
    requires fresh { (view_of pass.old).store.fresh ≡ true }
    ensures inside { IsInside store.now pass.new }
    ensures granted { IsExclusive pass.new }
    ensures fresh { (view_of pass.new).store.fresh ≡ true }
{
    create_exclusive(store, pass, Head::App(Symbol(symbol)), &[])
}

// A symbol over the first protected row, after a collection.
fn make_over_root(rt: &impl Abort, store: &Store, pass: &mut Pass, symbol: u32) -> Result<Row, Full>
    requires inside { IsInside store.now pass.old }
    requires granted { IsExclusive pass.old }
    requires fresh { (view_of pass.old).store.fresh ≡ true }
    ensures inside { IsInside store.now pass.new }
    ensures granted { IsExclusive pass.new }
    ensures fresh { (view_of pass.new).store.fresh ≡ true }
{
    assert!(rt; pass.root_count > 0);
    let root = root_at(store, pass, 0);
    create_exclusive(store, pass, Head::App(Symbol(symbol)), &[root])
}

// In shared access of the second pass of a store of two rows: the constant that the first pass
// made, which is then protected, and another one, which is not. Then no row is free.
fn fill(rt: &impl Abort, store: &Store, pass: &mut Pass, row: Row) -> Row
    requires inside { IsInside store.now pass.old }
    requires shared { (view_of pass.old).lock.phase ≡ Shared }
    ensures inside { IsInside store.now pass.new }
    ensures shared { (view_of pass.new).lock.phase ≡ Shared }
{
    let same = protect_constant(rt, store, pass, 0);
    assert_eq!(rt; same, row);
    assert_eq!(rt; last(pass), Last::Find(1));
    let Ok(other) = create(store, pass, Head::App(Symbol(1)), &[]) else {
        panic!(rt; "a row is free");
    };
    assert_eq!(rt; last(pass), Last::Make(2));
    let full = create(store, pass, Head::App(Symbol(2)), &[]);
    assert_eq!(rt; full, Err(Full));
    other
}

// A collection of the pass, and in its access a term over the first protected row, the constant of
// symbol 0, and that of symbol 3: what was kept, what each creation gave, and the last entry after
// each of the four.
fn collect_and_make(
    rt: &impl Abort,
    store: &Store,
    pass: &mut Pass,
) -> (Kept, [Result<Row, Full>; 3], [Last; 4])
    requires store { IsOpen store.now }
    requires pass { IsSeated store.now pass.old × IsOut (view_of pass.old) × Tells pass.old }
{
    let kept = collect_here(rt, store, pass);
    let collected = last(pass);
    let made = make_over_root(rt, store, pass, 2);
    let after_made = last(pass);
    let found = make_constant(store, pass, 0);
    let after_found = last(pass);
    let refused = make_constant(store, pass, 3);
    let after_refused = last(pass);
    store.leave_exclusive(pass);
    (
        kept,
        [made, found, refused],
        [collected, after_made, after_found, after_refused],
    )
}

// In one shared access: the same constant, and the row of another one, which is not protected.
fn visit_and_fill(rt: &impl Abort, store: &Store, pass: &mut Pass, row: Row) -> Row
    requires store { IsOpen store.now }
    requires pass { IsSeated store.now pass.old × IsOut (view_of pass.old) × Tells pass.old }
    ensures pass { IsSeated store.now pass.new × IsOut (view_of pass.new) × Tells pass.new }
{
    enter(rt, store, pass);
    let freed = fill(rt, store, pass, row);
    store.leave_shared(pass);
    freed
}

// Two rows, two passes, and so many buckets, all in use.
const fn two_rows(buckets: u32) -> Sizes
    ensures { result
        ≡ record {
          rows = 2;
          buckets = buckets;
          start = buckets;
          seats = 2;
          depth = 4;
          arity = 1;
          first = 1;
        } }
{
    Sizes {
        rows: 2,
        buckets,
        start: buckets,
        seats: 2,
        depth: 4,
        arity: 1,
        first: 1,
    }
}

// A store of such sizes: what is seen is what was worked out.
fn freed_row_is_taken<R: Abort + Alloc<A = Global>>(rt: &R, sizes: Sizes) -> Result<(), Fail>
    requires { MaySize sizes }
{
    let (store, mut passes) = Store::make(rt.alloc(), sizes)?;
    let mut second = last_pass(rt, &store, &mut passes);
    let mut first = last_pass(rt, &store, &mut passes);
    let row = protect_one(rt, &store, &mut first);
    let freed = visit_and_fill(rt, &store, &mut second, row);
    let (kept, made, lasts) = collect_and_make(rt, &store, &mut second);
    let buckets = sizes.buckets;
    assert_eq!(rt; kept, Kept { live: 1, buckets });
    assert_eq!(rt; made, [Ok(freed), Ok(row), Err(Full)]);
    assert_eq!(rt;
        lasts,
        [
            Last::Collect(3),
            Last::Make(4),
            Last::Find(4),
            Last::Find(4)
        ]
    );
    Ok(())
}

// A store of two rows and two passes, with one bucket, and with four. The first pass protects a
// constant, and the second one too, which makes another. Its collection, number 3, frees that row,
// and a term over the constant takes it, with number 4. Then no row is free: the constant is found,
// and another one is refused.
#[test]
fn a_creation_takes_the_row_that_was_freed(rt: HostRuntime) -> Result<(), Fail> {
    freed_row_is_taken(&rt, two_rows(1))?;
    freed_row_is_taken(&rt, two_rows(4))
}

// A collection of the pass, and in its access a term over the first protected row, and the
// constants of symbols 1 and 0: what was kept, what each creation gave, and the last entry after
// the first of them.
fn collect_and_find(
    rt: &impl Abort,
    store: &Store,
    pass: &mut Pass,
) -> (Kept, [Result<Row, Full>; 3], Last)
    requires store { IsOpen store.now }
    requires pass { IsSeated store.now pass.old × IsOut (view_of pass.old) × Tells pass.old }
{
    let kept = collect_here(rt, store, pass);
    let refused = make_over_root(rt, store, pass, 2);
    let told = last(pass);
    let one = make_constant(store, pass, 1);
    let zero = make_constant(store, pass, 0);
    store.leave_exclusive(pass);
    (kept, [refused, one, zero], told)
}

// Both rows are protected, so a collection frees none: another constant is refused, and each of
// theirs is found.
#[test]
fn a_creation_is_refused_where_all_rows_are_protected(rt: HostRuntime) -> Result<(), Fail> {
    let sizes = Sizes {
        rows: 2,
        buckets: 1,
        start: 1,
        seats: 1,
        depth: 2,
        arity: 1,
        first: 1,
    };
    let (store, mut passes) = Store::make(rt.alloc(), sizes)?;
    let mut pass = last_pass(&rt, &store, &mut passes);
    let (a, b) = protect_two(&rt, &store, &mut pass);
    let (kept, made, told) = collect_and_find(&rt, &store, &mut pass);
    let all = Kept {
        live: 2,
        buckets: 1,
    };
    assert_eq!(rt; (kept, told), (all, Last::Collect(3)));
    assert_eq!(rt; made, [Err(Full), Ok(b), Ok(a)]);
    Ok(())
}

// A collection of the pass, and in its access three constants: what was kept, what each creation
// gave, and the last entry after the collection and after two of them.
fn collect_and_make_three(
    rt: &impl Abort,
    store: &Store,
    pass: &mut Pass,
) -> (Kept, [Result<Row, Full>; 3], [Last; 3])
    requires store { IsOpen store.now }
    requires pass { IsSeated store.now pass.old × IsOut (view_of pass.old) × Tells pass.old }
    ensures pass { IsSeated store.now pass.new × IsOut (view_of pass.new) × Tells pass.new }
{
    let kept = collect_here(rt, store, pass);
    let collected = last(pass);
    let first = make_constant(store, pass, 0);
    let after_first = last(pass);
    let second = make_constant(store, pass, 1);
    let after_second = last(pass);
    let third = make_constant(store, pass, 2);
    store.leave_exclusive(pass);
    (
        kept,
        [first, second, third],
        [collected, after_first, after_second],
    )
}

// With first 2^62 - 5 there is room for one collection, and so for two rows after it: their numbers
// are 2^62 - 4 and 2^62 - 3. The next collection is worn.
#[test]
fn rows_are_made_in_the_last_epoch(rt: HostRuntime) -> Result<(), Fail> {
    let sizes = Sizes {
        rows: 2,
        buckets: 1,
        start: 1,
        seats: 1,
        depth: 1,
        arity: 0,
        first: (1 << 62) - 5,
    };
    let (store, mut passes) = Store::make(rt.alloc(), sizes)?;
    let mut pass = last_pass(&rt, &store, &mut passes);
    let (kept, made, told) = collect_and_make_three(&rt, &store, &mut pass);
    let none = Kept {
        live: 0,
        buckets: 1,
    };
    assert_eq!(rt; kept, none);
    assert!(rt; made[0].is_ok() && made[1].is_ok() && made[0] != made[1] && made[2] == Err(Full));
    assert_eq!(rt;
        told,
        [
            Last::Collect((1 << 62) - 5),
            Last::Make((1 << 62) - 4),
            Last::Make((1 << 62) - 3)
        ]
    );
    let worn = collect_now(&store, &mut pass);
    assert_eq!(rt; worn, Err(TryCollect::Worn));
    Ok(())
}
