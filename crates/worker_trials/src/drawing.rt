//! Workers on one desk and on two, by stores that tell when they build and gates that wait.
ghost use Rattle.std.specs.Prelude.{◌≡◌, ◌<◌, ◌^◌, All, IfOk, length};
ghost use Rattle.plain_store.specs.Contents.{store_of};
ghost use Rattle.work_order.specs.Works.{MayWork};
ghost use Rattle.rewrite_workers.specs.Trials.{IsEmptyDesk};

use crate::told::{Hears, Told};
use ends::{Gate, OpenGate};
use rewrite_workers::{AllFault, Lines, Work, rewrite_all};
use rule_fitness::may_be_normalized;
use rule_match::Plan;
use settings::{Command, Settings};
use std::alloc::Global;
use std::process::Abort;
use std::sync::atomic::{AtomicU32, AtomicU64, Ordering};
use std::test::Fail;
use std::thread::{Threads, yield_now};
use symbol_pool::Symbols;
use term_lines::LineKind;
use term_syntax::{Flats, read_terms};

/// How often one who waits for another looks, before it gives up.
const MOST_TURNS: u32 = 1_000_000;

/// Terms without rules, and the names of their symbols.
#[derive(Drop)]
struct Trial {
    plan: Plan,
    symbols: Symbols,
    terms: Flats,
}

// The terms of a text.
#[tactic(auto, using(rewrite_workers::proofs::Trying::may_work))]
fn input(rt: &impl Abort, alloc: Global, text: &[u8]) -> Result<Trial, Fail>
    ensures { IfOk result (λ i. MayWork i.plan i.symbols i.terms × (i.plan.widest ≡ 2)) }
{
    let mut symbols = Symbols::new(alloc);
    let terms = read_terms(alloc, text, &mut symbols)?;
    let plan = Plan::of(alloc, Vec::new(alloc), 2)?;
    assert!(rt; terms.as_slice().len() < 100);
    assert!(rt;
        terms
            .as_slice()
            .iter()
            .all(|term| may_be_normalized(term, 2))
    );
    Ok(Trial {
        plan,
        symbols,
        terms,
    })
}

// Rewrites the terms of a text on some desks of so many rows.
#[tactic(auto, using(rewrite_workers::proofs::Trying::desks_ready))]
fn rewrite<R: Threads + Abort + Sync, H: Hears, G: Gate>(
    rt: &R,
    alloc: Global,
    text: &[u8],
    rows: u32,
    desks: &mut [Told<H>],
    gate: &G,
) -> Result<Result<Lines, AllFault>, Fail>
    requires some { 0 < length desks.old }
    requires few { length desks.old < 2 ^ 32 }
    requires ready { All (λ d. IsEmptyDesk rows (store_of d.store)) desks.old }
{
    let input = input(rt, alloc, text)?;
    let work = Work {
        plan: &input.plan,
        symbols: &input.symbols,
        terms: input.terms.as_slice(),
        settings: Settings {
            command: Command::Rewrite,
            workers: 1,
            fuel: 100,
            rows,
            depth: 8,
            cache: 0,
            sizes: false,
            log: false,
            trace: false,
            count: 0,
            seats: 2,
        },
    };
    Ok(rewrite_all(rt, alloc, &work, desks, gate))
}

/// Has each of two desks wait at its first build until the other is about to build, and counts
/// those that gave up.
#[derive(Drop)]
struct Meeting {
    desks: AtomicU32,
    missed: AtomicU32,
}

impl Hears for Meeting {
    fn enters(&self, _desk: u32) {}

    fn leaves(&self, _desk: u32) {}

    fn builds(&self, desk: u32) {
        let mine = if desk == 0 { 1 } else { 2 };
        if self.desks.fetch_or(mine, Ordering::SeqCst) & mine != 0 {
            return;
        }
        for _turn in 0..MOST_TURNS {
            if self.desks.load(Ordering::SeqCst) == 3 {
                return;
            }
            yield_now();
        }
        self.missed.fetch_add(1, Ordering::SeqCst);
    }
}

/// Holds term 0 until term 1 has begun, and counts where it gave up.
#[derive(Drop)]
struct Holding {
    begun: AtomicU32,
    missed: AtomicU32,
}

impl Gate for Holding {
    fn before(&self, term: u32) {
        if term == 1 {
            self.begun.store(1, Ordering::SeqCst);
        }
        if term != 0 {
            return;
        }
        for _turn in 0..MOST_TURNS {
            if self.begun.load(Ordering::SeqCst) == 1 {
                return;
            }
            yield_now();
        }
        self.missed.fetch_add(1, Ordering::SeqCst);
    }

    fn after(&self, _term: u32) {}
}

/// What a gate and a desk are told, in order, as the digits of a number: 1 before a term and 5
/// after it, 2 where the desk goes inside, 3 where it builds, and 4 where it goes outside.
#[derive(Drop)]
struct Log {
    digits: AtomicU64,
}

impl Log {
    fn note(&self, digit: u64) {
        let digits = self.digits.load(Ordering::SeqCst);
        self.digits.store(
            digits.wrapping_mul(10).wrapping_add(digit),
            Ordering::SeqCst,
        );
    }
}

impl Hears for Log {
    fn enters(&self, _desk: u32) {
        self.note(2);
    }

    fn builds(&self, _desk: u32) {
        self.note(3);
    }

    fn leaves(&self, _desk: u32) {
        self.note(4);
    }
}

impl Gate for Log {
    fn before(&self, _term: u32) {
        self.note(1);
    }

    fn after(&self, _term: u32) {
        self.note(5);
    }
}

/// Hears nothing.
#[derive(Drop)]
struct Deaf;

impl Hears for Deaf {
    fn enters(&self, _desk: u32) {}

    fn builds(&self, _desk: u32) {}

    fn leaves(&self, _desk: u32) {}
}

// The texts of the lines in order, each with a line feed.
fn text_of(alloc: Global, lines: &Lines) -> Result<Vec<u8>, Fail> {
    let mut text = Vec::new(alloc);
    for line in &lines.list {
        text.extend_from_slice(&line.text)?;
        text.push(b'\n')?;
    }
    Ok(text)
}

#[test]
fn two_desks_build_at_the_same_time(rt: HostRuntime) -> Result<(), Fail> {
    let alloc = rt.alloc();
    let meeting = Meeting {
        desks: AtomicU32::new(0),
        missed: AtomicU32::new(0),
    };
    let mut desks = [
        Told::new(alloc, 10, 0, &meeting)?,
        Told::new(alloc, 10, 1, &meeting)?,
    ];
    let lines = rewrite(&rt, alloc, b"f(a) g(b)", 10, &mut desks, &OpenGate)?;
    let lines = lines.ok().ok_or("no lines")?;
    assert_eq!(rt; meeting.missed.load(Ordering::SeqCst), 0);
    assert_eq!(rt;
        text_of(alloc, &lines)?.as_slice(),
        b"f(a)\ng(b)\n".as_slice()
    );
    assert_eq!(rt; lines.list.len(), 2);
    assert!(rt; lines.list[0].worker != lines.list[1].worker);
    Ok(())
}

#[test]
fn a_term_begins_while_another_is_held(rt: HostRuntime) -> Result<(), Fail> {
    let alloc = rt.alloc();
    let gate = Holding {
        begun: AtomicU32::new(0),
        missed: AtomicU32::new(0),
    };
    let mut desks = [
        Told::new(alloc, 10, 0, &Deaf)?,
        Told::new(alloc, 10, 1, &Deaf)?,
    ];
    let lines = rewrite(&rt, alloc, b"f(a) a b", 10, &mut desks, &gate)?;
    let lines = lines.ok().ok_or("no lines")?;
    assert_eq!(rt; gate.missed.load(Ordering::SeqCst), 0);
    assert_eq!(rt;
        text_of(alloc, &lines)?.as_slice(),
        b"f(a)\na\nb\n".as_slice()
    );
    Ok(())
}

#[test]
fn the_gate_is_told_outside_before_and_after_the_work_of_a_term(
    rt: HostRuntime,
) -> Result<(), Fail> {
    let alloc = rt.alloc();
    let log = Log {
        digits: AtomicU64::new(0),
    };
    let mut desks = [Told::new(alloc, 10, 0, &log)?];
    let lines = rewrite(&rt, alloc, b"a f(b)", 10, &mut desks, &log)?;
    let lines = lines.ok().ok_or("no lines")?;
    // The second term is built as b and then f(b).
    assert_eq!(rt; log.digits.load(Ordering::SeqCst), 12345_123345);
    for line in &lines.list {
        assert!(rt; line.kind == LineKind::Value);
        assert_eq!(rt; line.spent, 0);
        assert_eq!(rt; line.worker, 0);
    }
    Ok(())
}

#[test]
fn a_full_desk_is_told(rt: HostRuntime) -> Result<(), Fail> {
    let alloc = rt.alloc();
    let mut desks = [Told::new(alloc, 1, 0, &Deaf)?];
    let lines = rewrite(&rt, alloc, b"a f(a) b", 1, &mut desks, &OpenGate)?;
    assert_eq!(rt; lines.err(), Some(AllFault::StoreFull));
    Ok(())
}

#[test]
fn no_term_has_no_line(rt: HostRuntime) -> Result<(), Fail> {
    let alloc = rt.alloc();
    let mut desks = [
        Told::new(alloc, 1, 0, &Deaf)?,
        Told::new(alloc, 1, 1, &Deaf)?,
    ];
    let lines = rewrite(&rt, alloc, b"", 1, &mut desks, &OpenGate)?;
    let lines = lines.ok().ok_or("no lines")?;
    assert_eq!(rt; lines.list.len(), 0);
    Ok(())
}
