// Seats on one thread, and on several.
ghost use Rattle.std.specs.Prelude.{All};
ghost use Rattle.busy_forbidden.specs.Dealt.{IsReady};

use busy_forbidden::{
    Busy, LockOnly, Seat, Table, enter_exclusive, enter_shared, leave_exclusive, leave_shared,
    try_enter_exclusive, try_enter_shared,
};
use std::process::Abort;
use std::sync::Wait;
use std::sync::atomic::{AtomicU64, Ordering};
use std::test::Fail;
use std::thread;
use std::thread::Threads;

// The last of the seats that are left.
fn last_seat(
    rt: &impl Abort,
    table: &Table<LockOnly>,
    seats: &mut Vec<Seat<LockOnly>>,
) -> Seat<LockOnly>
    requires { All (λ s. IsReady table.now.shared.table_id table.now.shared.key s.seat s.seats)
        seats.old.items }
    ensures left { All (λ s. IsReady table.now.shared.table_id table.now.shared.key s.seat s.seats)
        seats.new.items }
    ensures seat { IsReady table.now.shared.table_id table.now.shared.key result.seat result.seats }
{
    match seats.pop() {
        Some(seat) => seat,
        None => panic!(rt; "a seat is left"),
    }
}

#[test]
fn two_seats_on_one_thread(rt: HostRuntime) -> Result<(), Fail> {
    let (table, mut seats) = LockOnly::make(rt.alloc(), 2)?;
    let mut one = last_seat(&rt, &table, &mut seats);
    let mut zero = last_seat(&rt, &table, &mut seats);
    let Ok(()) = try_enter_shared(&table, &mut zero) else {
        panic!(rt; "seat 0 shares");
    };
    let Err(busy) = try_enter_exclusive(&table, &mut one) else {
        panic!(rt; "seat 0 is in");
    };
    assert_eq!(rt; busy, Busy::Seat(0));
    leave_shared(&table, &mut zero);
    let Ok(()) = try_enter_exclusive(&table, &mut one) else {
        panic!(rt; "nobody is in");
    };
    let Err(busy) = try_enter_shared(&table, &mut zero) else {
        panic!(rt; "seat 1 is in");
    };
    assert_eq!(rt; busy, Busy::Forbidden);
    let Err(busy) = try_enter_exclusive(&table, &mut zero) else {
        panic!(rt; "seat 1 is in");
    };
    assert_eq!(rt; busy, Busy::Mutex);
    leave_exclusive(&table, &mut one);
    let Ok(()) = try_enter_shared(&table, &mut zero) else {
        panic!(rt; "nobody is in");
    };
    leave_shared(&table, &mut zero);
    Ok(())
}

const ROUNDS: u64 = 2000;

// Raises the counter in exclusive access, by a read and then a write, and reads it twice in shared
// access. Gives how often the two reads differed.
fn take_turns<R: Wait>(
    rt: &R,
    table: &Table<LockOnly>,
    mut seat: Seat<LockOnly>,
    counter: &AtomicU64,
) -> u64
    requires { IsReady table.now.shared.table_id table.now.shared.key seat.seat seat.seats }
{
    let mut torn = 0u64;
    for _ in 0..ROUNDS {
        enter_exclusive(rt, table, &mut seat);
        let count = counter.load(Ordering::SeqCst);
        counter.store(count.wrapping_add(1), Ordering::SeqCst);
        leave_exclusive(table, &mut seat);
        enter_shared(rt, table, &mut seat);
        let first = counter.load(Ordering::SeqCst);
        if counter.load(Ordering::SeqCst) != first {
            torn = torn.wrapping_add(1);
        }
        leave_shared(table, &mut seat);
    }
    torn
}

fn two_threads<R: Wait + Threads + Sync>(
    rt: &R,
    table: &Table<LockOnly>,
    one: Seat<LockOnly>,
    two: Seat<LockOnly>,
    counter: &AtomicU64,
) -> u64
    requires one { IsReady table.now.shared.table_id table.now.shared.key one.seat one.seats }
    requires two { IsReady table.now.shared.table_id table.now.shared.key two.seat two.seats }
{
    let (first, second) = thread::join(
        rt,
        move || -> u64
            requires { IsReady table.now.shared.table_id table.now.shared.key one.seat one.seats }
        { take_turns(rt, table, one, counter) },
        move || -> u64
            requires { IsReady table.now.shared.table_id table.now.shared.key two.seat two.seats }
        { take_turns(rt, table, two, counter) },
    );
    first.wrapping_add(second)
}

#[test]
fn four_threads_take_turns(rt: HostRuntime) -> Result<(), Fail> {
    let (table, mut seats) = LockOnly::make(rt.alloc(), 4)?;
    let d = last_seat(&rt, &table, &mut seats);
    let c = last_seat(&rt, &table, &mut seats);
    let b = last_seat(&rt, &table, &mut seats);
    let a = last_seat(&rt, &table, &mut seats);
    let counter = AtomicU64::new(0);
    let (handle, shared, count) = (&rt, &table, &counter);
    let (first, second) = thread::join(
        handle,
        move || -> u64
            requires { IsReady shared.now.shared.table_id shared.now.shared.key a.seat a.seats
                × IsReady shared.now.shared.table_id shared.now.shared.key b.seat b.seats }
        { two_threads(handle, shared, a, b, count) },
        move || -> u64
            requires { IsReady shared.now.shared.table_id shared.now.shared.key c.seat c.seats
                × IsReady shared.now.shared.table_id shared.now.shared.key d.seat d.seats }
        { two_threads(handle, shared, c, d, count) },
    );
    assert_eq!(rt; first, 0);
    assert_eq!(rt; second, 0);
    assert_eq!(rt; counter.load(Ordering::SeqCst), 4 * ROUNDS);
    Ok(())
}
