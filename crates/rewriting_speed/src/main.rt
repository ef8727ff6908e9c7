//! Rewrites the terms of a specification by one thread, on a store of its own and on a shared one
//! in turn, and says how many have values. How long each took stands on the error output: a
//! benchmark, which docs/PERFORMANCE.md says how to run.
#![tactic(auto)]

mod laps;
mod stores;

ghost use Rattle.std.specs.Prelude.{◌≡◌, IfOk};
ghost use Rattle.rec_check.specs.Run.{MayBeRun};
ghost use Rattle.rec_check.specs.Spec.{specified};
ghost use Rattle.rec_check.specs.Symbols.{widest_of};

use laps::Lap;
use rec_check::{Spec, check};
use rec_reader::{ReadFail, read};
use rule_match::Plan;
use std::alloc::Global;
use std::io::Read;
use std::{env, io};
use stores::rewrite_beside;

/// What the bytes spell.
fn spec_of(alloc: Global, bytes: &[u8]) -> Result<Spec, ReadFail>
    ensures may_be_run { IfOk result (λ spec. MayBeRun (specified spec)) }
    ensures widest { IfOk result (λ spec. spec.widest ≡ widest_of spec.symbols) }
{
    let syntax = read(alloc, bytes)?;
    check(alloc, &syntax)
}

/// The number in a word, and 1 where there is none.
fn number(word: Option<String>) -> u32 {
    match word {
        Some(word) => word.parse().unwrap_or(1),
        None => 1,
    }
}

/// How many milliseconds some laps took.
fn millis(lap: Lap) -> u128 {
    lap.took.as_millis()
}

fn main(rt: HostRuntime) -> io::Result<()> {
    let laps = number(env::args(&rt)?.nth(1));
    let mut bytes = Vec::new(rt.alloc());
    rt.reader().read_to_end(&mut bytes)?;
    let Ok(spec) = spec_of(rt.alloc(), &bytes) else {
        return println!(rt; "refused");
    };
    if spec.widest > 16 {
        return println!(rt; "too wide");
    }
    let Ok(plan) = Plan::of(rt.alloc(), spec.rules, spec.widest) else {
        return println!(rt; "out of memory");
    };
    let Ok(both) = rewrite_beside(&rt, rt.alloc(), &plan, &spec.terms, laps) else {
        return println!(rt; "out of memory");
    };
    println!(rt; "own store {}", both.own.values)?;
    println!(rt; "shared store {}", both.shared.values)?;
    eprintln!(rt;
        "own store {} ms, shared store {} ms",
        millis(both.own),
        millis(both.shared)
    )
}
