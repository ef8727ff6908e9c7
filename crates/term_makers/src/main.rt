//! Threads that make the same terms on one store: a walk through the store as a library, which
//! docs/LIBRARY.md explains.
#![tactic(auto)]

ghost use Rattle.std.specs.Prelude.{◌≤◌, IfSome, All};
ghost use Rattle.store_model.specs.NewStore.{MaySize};
ghost use Rattle.node_rows.specs.Belonging.{IsSeated, IsOpen};
ghost use Rattle.node_rows.specs.Passes.{IsOut};
ghost use Rattle.node_rows.specs.Told.{Tells, view_of};

mod maker;

use maker::{Tally, make_and_read};
use node_rows::{Pass, Store};
use std::{env, io, thread};
use store_model::Sizes;
use sweep_phase::collect_now;

// The number in a word, and 0 where there is none.
fn number(word: Option<String>) -> u32 {
    match word {
        Some(word) => word.parse().unwrap_or(0),
        None => 0,
    }
}

// Each thread may lose a row for each term where another one makes the same term at the same time,
// until a collection.
fn sizes_for(threads: u32, terms: u32) -> Sizes
    requires { (1 ≤ threads) × (threads ≤ 15) }
    ensures { MaySize result }
{
    let rows = threads.saturating_mul(terms).clamp(1, 262_144);
    Sizes {
        rows,
        buckets: rows,
        start: rows,
        seats: threads + 1,
        depth: 2,
        arity: 1,
        first: 1,
    }
}

// The last pass, for the thread that waits for the others.
fn last_pass(store: &Store, passes: &mut Vec<Pass>) -> Option<Pass>
    requires passes { All (λ p. IsSeated store.now p × IsOut (view_of p)) passes.old.items }
    requires told { All Tells passes.old.items }
    ensures left { All (λ p. IsSeated store.now p × IsOut (view_of p)) passes.new.items }
    ensures left_told { All Tells passes.new.items }
    ensures pass { IfSome result (λ p. IsSeated store.now p × IsOut (view_of p) × Tells p) }
{
    passes.pop()
}

fn main(rt: HostRuntime) -> io::Result<()> {
    let mut words = env::args(&rt)?.skip(1);
    let threads = number(words.next()).clamp(1, 15);
    let terms = number(words.next()).clamp(2, 65_536);
    let Ok((store, mut passes)) = Store::make(rt.alloc(), sizes_for(threads, terms)) else {
        return println!(rt; "out of memory");
    };
    let Some(mut own) = last_pass(&store, &mut passes) else {
        return println!(rt; "no pass");
    };
    let shared = &store;
    let job = |pass: Pass| -> Tally
        requires { IsOpen shared.now
            × IsSeated shared.now pass × IsOut (view_of pass) × Tells pass }
    { make_and_read(&rt, shared, pass, terms) };
    let Ok(tallies) = thread::map_vec(&rt, passes, &job) else {
        return println!(rt; "out of memory");
    };
    let mut sum = Tally::NONE;
    for tally in &tallies {
        sum = sum.and(*tally);
    }
    match collect_now(&store, &mut own) {
        Ok(kept) => println!(rt;
            "made {}\nfound {}\nread {}\nkept {}",
            sum.made, sum.found, sum.read, kept.live
        ),
        Err(_) => println!(rt; "not collected"),
    }
}
