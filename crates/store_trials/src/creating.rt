//! Passes of one store, on one thread and on two.
ghost use Rattle.std.specs.Prelude.{◌≡◌, ◌<◌, All, IfOk};
ghost use Rattle.lock_core.specs.declared.parts.Phase.TheVariants.{Shared};
ghost use Rattle.store_model.specs.Machine.{In};
ghost use Rattle.node_rows.specs.Belonging.{IsSeated, IsOpen};
ghost use Rattle.node_rows.specs.Inside.{IsInside};
ghost use Rattle.node_rows.specs.Told.{Tells, view_of};
ghost use Rattle.node_rows.specs.Passes.{IsOut};

use node_rows::{Pass, Store};
use std::hint::spin_loop;
use std::process::Abort;
use std::sync::atomic::{AtomicBool, Ordering};
use std::test::Fail;
use std::thread;
use store_model::Sizes;
use term_create::{Full, child_of, count_of, create, head_of};
use term_model::{Head, Row, Symbol};

mod four;

// The last of the passes that are left.
fn last_pass(rt: &impl Abort, store: &Store, passes: &mut Vec<Pass>) -> Pass
    requires passes { All (λ p. IsSeated store.now p × IsOut (view_of p)) passes.old.items }
    requires told { All Tells passes.old.items }
    ensures told { All Tells passes.new.items }
    ensures left { All (λ p. IsSeated store.now p × IsOut (view_of p)) passes.new.items }
    ensures pass { IsSeated store.now result × IsOut (view_of result) × Tells result }
{
    match passes.pop() {
        Some(pass) => pass,
        None => panic!(rt; "a pass is left"),
    }
}

// Enters shared access.
fn enter(rt: &impl Abort, store: &Store, pass: &mut Pass)
    requires store { IsOpen store.now }
    requires pass { IsSeated store.now pass.old × IsOut (view_of pass.old) × Tells pass.old }
    ensures inside { IsInside store.now pass.new }
    ensures shared { (view_of pass.new).lock.phase ≡ Shared }
{
    match store.try_enter_shared(pass) {
        Ok(()) => {}
        Err(_) => panic!(rt; "nobody is in exclusive access"),
    }
}

// Creates a symbol over an integer and the empty list.
fn create_three(store: &Store, pass: &mut Pass) -> Result<Row, Full>
    requires inside { IsInside store.now pass.old }
    requires shared { (view_of pass.old).lock.phase ≡ Shared }
    ensures inside { IsInside store.now pass.new }
    ensures shared { (view_of pass.new).lock.phase ≡ Shared }
    ensures gets { IfOk result (λ row. In row.0 (view_of pass.new).store.got) }
{
    let a = create(store, pass, Head::Int(5), &[])?;
    let b = create(store, pass, Head::Nil, &[])?;
    create(store, pass, Head::App(Symbol(7)), &[a, b])
}

// The same in one shared access.
fn visit(rt: &impl Abort, store: &Store, pass: &mut Pass) -> Result<Row, Full>
    requires store { IsOpen store.now }
    requires pass { IsSeated store.now pass.old × IsOut (view_of pass.old) × Tells pass.old }
    ensures pass { IsSeated store.now pass.new × IsOut (view_of pass.new) × Tells pass.new }
{
    enter(rt, store, pass);
    let row = create_three(store, pass);
    store.leave_shared(pass);
    row
}

#[test]
fn two_passes_share_a_term(rt: HostRuntime) -> Result<(), Fail> {
    let sizes = Sizes {
        rows: 3,
        buckets: 2,
        start: 1,
        seats: 2,
        depth: 2,
        arity: 2,
        first: 1,
    };
    let (store, mut passes) = Store::make(rt.alloc(), sizes)?;
    let mut second = last_pass(&rt, &store, &mut passes);
    let mut first = last_pass(&rt, &store, &mut passes);
    let row = visit(&rt, &store, &mut first);
    assert!(rt; row.is_ok());
    assert_eq!(rt; visit(&rt, &store, &mut second), row);
    Ok(())
}

// In one shared access: a symbol over an integer and the empty list, which fills three rows; a
// constant, which is Full; and the first again.
fn fill(rt: &impl Abort, store: &Store, pass: &mut Pass) -> [Result<Row, Full>; 3]
    requires store { IsOpen store.now }
    requires pass { IsSeated store.now pass.old × IsOut (view_of pass.old) × Tells pass.old }
{
    enter(rt, store, pass);
    let made = create_three(store, pass);
    let past = create(store, pass, Head::App(Symbol(8)), &[]);
    let found = create_three(store, pass);
    store.leave_shared(pass);
    [made, past, found]
}

#[test]
fn one_pass_is_full_where_each_row_has_a_tree(rt: HostRuntime) -> Result<(), Fail> {
    let sizes = Sizes {
        rows: 3,
        buckets: 2,
        start: 1,
        seats: 1,
        depth: 2,
        arity: 0,
        first: 1,
    };
    let (store, mut passes) = Store::make(rt.alloc(), sizes)?;
    let mut pass = last_pass(&rt, &store, &mut passes);
    let [made, past, found] = fill(&rt, &store, &mut pass);
    assert!(rt; made.is_ok());
    assert_eq!(rt; past, Err(Full));
    assert_eq!(rt; found, made);
    Ok(())
}

// The head of a row, and its count of arguments.
fn read_row(store: &Store, pass: &mut Pass, row: Row) -> (Head, u32)
    requires inside { IsInside store.now pass.old }
    requires shared { (view_of pass.old).lock.phase ≡ Shared }
    requires uses { In row.0 (view_of pass.old).store.got }
    ensures inside { IsInside store.now pass.new }
    ensures shared { (view_of pass.new).lock.phase ≡ Shared }
{
    let head = head_of(store, pass, row);
    (head, count_of(store, pass, row))
}

// The head of argument `j`, where there are so many.
fn read_child(store: &Store, pass: &mut Pass, row: Row, j: u32) -> Option<Head>
    requires inside { IsInside store.now pass.old }
    requires shared { (view_of pass.old).lock.phase ≡ Shared }
    requires uses { In row.0 (view_of pass.old).store.got }
    ensures inside { IsInside store.now pass.new }
    ensures shared { (view_of pass.new).lock.phase ≡ Shared }
{
    if j >= count_of(store, pass, row) {
        return None;
    }
    let child = child_of(store, pass, row, j);
    Some(head_of(store, pass, child))
}

// In one shared access: a symbol over an integer and the empty list, its head, and its count of
// arguments.
fn visit_row(rt: &impl Abort, store: &Store, pass: &mut Pass) -> (Head, u32)
    requires store { IsOpen store.now }
    requires pass { IsSeated store.now pass.old × IsOut (view_of pass.old) × Tells pass.old }
    ensures pass { IsSeated store.now pass.new × IsOut (view_of pass.new) × Tells pass.new }
{
    enter(rt, store, pass);
    let Ok(row) = create_three(store, pass) else {
        panic!(rt; "three rows suffice");
    };
    let read = read_row(store, pass, row);
    store.leave_shared(pass);
    read
}

// The same, and the head of its argument `j`.
fn visit_child(rt: &impl Abort, store: &Store, pass: &mut Pass, j: u32) -> Option<Head>
    requires store { IsOpen store.now }
    requires pass { IsSeated store.now pass.old × IsOut (view_of pass.old) × Tells pass.old }
    ensures pass { IsSeated store.now pass.new × IsOut (view_of pass.new) × Tells pass.new }
{
    enter(rt, store, pass);
    let Ok(row) = create_three(store, pass) else {
        panic!(rt; "three rows suffice");
    };
    let read = read_child(store, pass, row, j);
    store.leave_shared(pass);
    read
}

#[test]
fn reads_give_what_was_created(rt: HostRuntime) -> Result<(), Fail> {
    let sizes = Sizes {
        rows: 3,
        buckets: 2,
        start: 1,
        seats: 1,
        depth: 2,
        arity: 0,
        first: 1,
    };
    let (store, mut passes) = Store::make(rt.alloc(), sizes)?;
    let mut pass = last_pass(&rt, &store, &mut passes);
    assert_eq!(rt;
        visit_row(&rt, &store, &mut pass),
        (Head::App(Symbol(7)), 2)
    );
    assert_eq!(rt; visit_child(&rt, &store, &mut pass, 0), Some(Head::Int(5)));
    assert_eq!(rt; visit_child(&rt, &store, &mut pass, 1), Some(Head::Nil));
    assert_eq!(rt; visit_child(&rt, &store, &mut pass, 2), None);
    Ok(())
}

// In one shared access: a constant, and its row.
fn constant(rt: &impl Abort, store: &Store, pass: &mut Pass, symbol: u32) -> Result<Row, Full>
    requires store { IsOpen store.now }
    requires pass { IsSeated store.now pass.old × IsOut (view_of pass.old) × Tells pass.old }
    ensures pass { IsSeated store.now pass.new × IsOut (view_of pass.new) × Tells pass.new }
{
    enter(rt, store, pass);
    let row = create(store, pass, Head::App(Symbol(symbol)), &[]);
    store.leave_shared(pass);
    row
}

// In one shared access: the constants of ten symbols in order, and their rows.
fn create_ten<R: Abort>(rt: &R, store: &Store, mut pass: Pass) -> [Row; 10]
    requires store { IsOpen store.now }
    requires pass { IsSeated store.now pass × IsOut (view_of pass) × Tells pass }
{
    let mut rows = [Row(0); 10];
    for symbol in 0..10 {
        match constant(rt, store, &mut pass, symbol) {
            Ok(row) => rows[symbol as usize] = row,
            Err(_) => panic!(rt; "twenty rows suffice"),
        }
    }
    rows
}

// Waits for the other thread, for at most a million turns: whether it came.
fn meet(mine: &AtomicBool, other: &AtomicBool) -> bool {
    mine.store(true, Ordering::SeqCst);
    for _ in 0..1_000_000 {
        if other.load(Ordering::SeqCst) {
            return true;
        }
        for _ in 0..100 {
            spin_loop();
        }
    }
    false
}

#[test]
fn two_threads_at_once_share_ten_constants(rt: HostRuntime) -> Result<(), Fail> {
    let sizes = Sizes {
        rows: 20,
        buckets: 1,
        start: 1,
        seats: 2,
        depth: 4,
        arity: 1,
        first: 1,
    };
    let (store, mut passes) = Store::make(rt.alloc(), sizes)?;
    let two = last_pass(&rt, &store, &mut passes);
    let one = last_pass(&rt, &store, &mut passes);
    let (handle, shared) = (&rt, &store);
    let (first_came, second_came) = (AtomicBool::new(false), AtomicBool::new(false));
    let (came, went) = (&first_came, &second_came);
    let ((first_ran, first), (second_ran, second)) = thread::join(
        handle,
        move || -> (bool, [Row; 10])
            requires { IsOpen shared.now
                × IsSeated shared.now one × IsOut (view_of one) × Tells one }
        { (meet(came, went), create_ten(handle, shared, one)) },
        move || -> (bool, [Row; 10])
            requires { IsOpen shared.now
                × IsSeated shared.now two × IsOut (view_of two) × Tells two }
        { (meet(went, came), create_ten(handle, shared, two)) },
    );
    assert!(rt; first_ran && second_ran, "both threads run at once");
    assert_eq!(rt; first, second);
    for i in 0..10usize {
        for j in 0..i {
            assert!(rt; first[i] != first[j]);
        }
    }
    Ok(())
}
