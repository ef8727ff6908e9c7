//! Builds trees in a store, and collects: a benchmark of it, which docs/PERFORMANCE.md says how to
//! run.
#![tactic(auto)]

ghost use Rattle.std.specs.Prelude.{◌≡◌, ◌≤◌, ◌<◌, true};

use plain_store::PlainStore;
use std::{env, io};
use term_model::{Head, Symbol};
use terms_api::Terms;

const ROWS: u32 = 262_144;

const UNARY: u32 = u32::MAX;

// Builds a symbol over the last `n` places, if there are so many, and says whether it was built.
fn build_symbol<T: Terms>(terms: &mut T, symbol: u32, n: u32) -> bool
    requires inside { (T.store terms.old).inside ≡ true }
    requires width { n ≤ (T.store terms.old).widest }
    ensures inside { (T.store terms.new).inside ≡ true }
    ensures widest { (T.store terms.new).widest ≡ (T.store terms.old).widest }
{
    terms.depth() >= n && terms.build(Head::App(Symbol(symbol)), n).is_ok()
}

// Builds as many pairs of a leaf and a node over it, the leaves being so many different ones in
// turn, and takes them from the stack. Gives the number of trees that were built.
fn build_pairs<T: Terms>(terms: &mut T, pairs: u32, leaves: u32) -> u64
    requires inside { (T.store terms.old).inside ≡ true }
    requires width { 1 ≤ (T.store terms.old).widest }
    requires leaves { 0 < leaves }
{
    let mut built: u64 = 0;
    for i in 0..pairs {
        if build_symbol(terms, i % leaves, 0) && build_symbol(terms, UNARY, 1) {
            built = built.saturating_add(2);
        }
        terms.keep(0, 0);
    }
    built
}

// Builds one tree of so many nodes that stays on the stack, and leaves that don't stay.
fn build_beside<T: Terms>(terms: &mut T, nodes: u32, leaves: u32) -> u64
    requires inside { (T.store terms.old).inside ≡ true }
    requires width { 1 ≤ (T.store terms.old).widest }
{
    let mut built: u64 = build_symbol(terms, 0, 0) as u64;
    for _ in 1..nodes {
        built = built.saturating_add(build_symbol(terms, UNARY, 1) as u64);
    }
    for leaf in 1..leaves {
        built = built.saturating_add(build_symbol(terms, leaf, 0) as u64);
        if terms.depth() > 0 {
            terms.keep(1, 0);
        }
    }
    built
}

fn main(rt: HostRuntime) -> io::Result<()> {
    let Ok(mut store) = PlainStore::new(rt.alloc(), ROWS, 4, 2) else {
        return println!(rt; "out of memory");
    };
    let mut words = env::args(&rt)?.skip(1);
    let work = words.next();
    let count = match words.next() {
        Some(word) => word.parse().unwrap_or(0),
        None => 0,
    };
    store.enter();
    let built = match work.as_deref() {
        Some("new") => build_pairs(&mut store, count, u32::MAX),
        Some("found") => build_pairs(&mut store, count, ROWS / 2),
        Some("beside") => build_beside(&mut store, ROWS - 1, count),
        _ => 0,
    };
    println!(rt; "trees {built}")
}
