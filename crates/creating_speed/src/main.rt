//! Creates chains of terms on threads: a benchmark of the shared store, which docs/PERFORMANCE.md
//! says how to run.
#![tactic(auto)]

ghost use Rattle.std.specs.Prelude.{◌≡◌};
ghost use Rattle.lock_core.specs.declared.parts.Phase.TheVariants.{Shared};
ghost use Rattle.node_rows.specs.Belonging.{IsSeated, IsOpen};
ghost use Rattle.node_rows.specs.Inside.{IsInside};
ghost use Rattle.node_rows.specs.Told.{Tells, view_of};
ghost use Rattle.node_rows.specs.Passes.{IsOut};

use node_rows::{Pass, Store};
use std::{env, io, thread};
use store_model::Sizes;
use term_create::create;
use term_model::{Head, Symbol};

const ROWS: u32 = 262_144;

const UNARY: u32 = u32::MAX;

/// What each thread is to do.
#[derive(Clone, Copy)]
struct Work {
    /// Whether each thread makes a chain of its own.
    own: bool,
    /// How many terms a chain has.
    count: u32,
    /// How often the chain is made.
    laps: u32,
}

// Creates a chain of so many terms, a symbol over a symbol, and says how many there are: fewer
// where the rows don't suffice.
fn create_chain(store: &Store, pass: &mut Pass, symbol: u32, count: u32) -> u64
    requires inside { IsInside store.now pass.old }
    requires shared { (view_of pass.old).lock.phase ≡ Shared }
    ensures inside { IsInside store.now pass.new }
    ensures shared { (view_of pass.new).lock.phase ≡ Shared }
{
    let Ok(mut row) = create(store, pass, Head::App(Symbol(symbol)), &[]) else {
        return 0;
    };
    let mut created: u64 = 1;
    for _ in 1..count {
        match create(store, pass, Head::App(Symbol(UNARY)), &[row]) {
            Ok(over) => row = over,
            Err(_) => return created,
        }
        created = created.saturating_add(1);
    }
    created
}

// The laps of one thread: how many terms it has created.
fn create_laps(store: &Store, mut pass: Pass, work: Work) -> u64
    requires store { IsOpen store.now }
    requires pass { IsSeated store.now pass × IsOut (view_of pass) × Tells pass }
{
    let symbol = if work.own { pass.seat.number } else { 0 };
    let mut created: u64 = 0;
    for _ in 0..work.laps {
        if store.try_enter_shared(&mut pass).is_err() {
            return created;
        }
        created = created.saturating_add(create_chain(store, &mut pass, symbol, work.count));
        store.leave_shared(&mut pass);
    }
    created
}

// The number in a word, and 0 where there is none.
fn number(word: Option<String>) -> u32 {
    match word {
        Some(word) => word.parse().unwrap_or(0),
        None => 0,
    }
}

fn main(rt: HostRuntime) -> io::Result<()> {
    let mut words = env::args(&rt)?.skip(1);
    let own = words.next().as_deref() == Some("own");
    let count = number(words.next());
    let laps = number(words.next());
    let threads = number(words.next()).clamp(1, 16);
    let sizes = Sizes {
        rows: ROWS,
        buckets: ROWS,
        start: ROWS,
        seats: threads,
        depth: 4,
        arity: 2,
        first: 1,
    };
    let Ok((store, passes)) = Store::make(rt.alloc(), sizes) else {
        return println!(rt; "out of memory");
    };
    let work = Work { own, count, laps };
    let shared = &store;
    let job = |pass: Pass| -> u64
        requires { IsOpen shared.now
            × IsSeated shared.now pass × IsOut (view_of pass) × Tells pass }
    { create_laps(shared, pass, work) };
    let Ok(counts) = thread::map_vec(&rt, passes, &job) else {
        return println!(rt; "out of memory");
    };
    let mut created: u64 = 0;
    for one in counts {
        created = created.saturating_add(one);
    }
    println!(rt; "terms {created}")
}
