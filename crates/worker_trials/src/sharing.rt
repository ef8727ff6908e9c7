//! Terms on one shared store, by one worker and by several, with values worked out by hand.
ghost use Rattle.std.specs.Prelude.{◌≡◌, ◌≤◌, IfOk};
ghost use Rattle.settings.specs.Words.{AreInRange};
ghost use Rattle.work_order.specs.Works.{MayWork};

use ends::OpenGate;
use rule_fitness::may_be_normalized;
use rule_match::Plan;
use settings::{Command, Settings};
use shared_work::{AllFault, Lines, Work, rewrite_shared};
use std::alloc::Global;
use std::process::Abort;
use std::sync::Wait;
use std::test::Fail;
use std::thread::Threads;
use symbol_pool::Symbols;
use term_syntax::{Flats, read_terms};

/// Terms without rules, and the names of their symbols.
#[derive(Drop)]
struct Trial {
    plan: Plan,
    symbols: Symbols,
    terms: Flats,
}

// The terms of a text.
#[tactic(auto, using(rewrite_workers::proofs::Trying::may_work))]
fn input(rt: &impl Abort, alloc: Global, text: &[u8]) -> Result<Trial, Fail>
    ensures { IfOk result (λ i. MayWork i.plan i.symbols i.terms × (i.plan.widest ≡ 2)) }
{
    let mut symbols = Symbols::new(alloc);
    let terms = read_terms(alloc, text, &mut symbols)?;
    let plan = Plan::of(alloc, Vec::new(alloc), 2)?;
    assert!(rt; terms.as_slice().len() < 100);
    assert!(rt;
        terms
            .as_slice()
            .iter()
            .all(|term| may_be_normalized(term, 2))
    );
    Ok(Trial {
        plan,
        symbols,
        terms,
    })
}

// So many workers, and a store of so many rows.
fn settings_for(workers: u32, rows: u32) -> Settings
    requires workers { (1 ≤ workers) × (workers ≤ 16) }
    requires rows { (1 ≤ rows) × (rows ≤ 262144) }
    ensures { AreInRange result }
{
    Settings {
        command: Command::Rewrite,
        workers,
        fuel: 100,
        rows,
        depth: 16,
        cache: 0,
        sizes: false,
        log: false,
        trace: false,
        count: 0,
        seats: 2,
    }
}

// What comes of the terms of a text, by so many workers on a store of so many rows.
fn rewrite<R: Threads + Wait + Abort + Sync>(
    rt: &R,
    alloc: Global,
    text: &[u8],
    workers: u32,
    rows: u32,
) -> Result<Result<Lines, AllFault>, Fail>
    requires workers { (1 ≤ workers) × (workers ≤ 16) }
    requires rows { (1 ≤ rows) × (rows ≤ 262144) }
{
    let input = input(rt, alloc, text)?;
    let work = Work {
        plan: &input.plan,
        symbols: &input.symbols,
        terms: input.terms.as_slice(),
        settings: settings_for(workers, rows),
    };
    Ok(rewrite_shared(rt, alloc, &work, &OpenGate).lines)
}

// The texts of the lines in order, each with a line feed.
fn text_of(alloc: Global, lines: &Lines) -> Result<Vec<u8>, Fail> {
    let mut text = Vec::new(alloc);
    for line in &lines.list {
        text.extend_from_slice(&line.text)?;
        text.push(b'\n')?;
    }
    Ok(text)
}

// The different trees are a, b, f(a), g(a,b) and f(g(a,b)), so five rows suffice for any number of
// workers. Where two make one tree at the same time each may lose a row until one collects.
#[test]
fn the_lines_are_the_same_for_any_number_of_workers(rt: HostRuntime) -> Result<(), Fail> {
    let alloc = rt.alloc();
    for workers in [1, 2, 16] {
        let lines = rewrite(&rt, alloc, b"f(a) g(a,b) f(a) f(g(a,b)) b", workers, 5)?;
        let lines = lines.ok().ok_or("no lines")?;
        assert_eq!(rt;
            text_of(alloc, &lines)?.as_slice(),
            b"f(a)\ng(a,b)\nf(a)\nf(g(a,b))\nb\n".as_slice()
        );
        for line in &lines.list {
            assert!(rt; line.worker < workers);
            assert_eq!(rt; line.spent, 0);
        }
    }
    Ok(())
}

// In two rows f(a) needs both; the next terms collect what the one before left, one after another.
#[test]
fn rows_are_used_again(rt: HostRuntime) -> Result<(), Fail> {
    let alloc = rt.alloc();
    let lines = rewrite(&rt, alloc, b"f(a) f(b) f(c) f(a)", 1, 2)?;
    let lines = lines.ok().ok_or("no lines")?;
    assert_eq!(rt;
        text_of(alloc, &lines)?.as_slice(),
        b"f(a)\nf(b)\nf(c)\nf(a)\n".as_slice()
    );
    Ok(())
}

// f(f(a)) has three different subtrees, and there are two rows.
#[test]
fn too_few_rows_are_told(rt: HostRuntime) -> Result<(), Fail> {
    let alloc = rt.alloc();
    let lines = rewrite(&rt, alloc, b"f(a) f(f(a)) b", 1, 2)?;
    assert_eq!(rt; lines.err(), Some(AllFault::StoreFull));
    Ok(())
}

// a under so many f: one more different trees than that.
fn nested(alloc: Global, depth: u32) -> Result<Vec<u8>, Fail> {
    let mut text = Vec::new(alloc);
    for _ in 0..depth {
        text.extend_from_slice(b"f(")?;
    }
    text.push(b'a')?;
    for _ in 0..depth {
        text.push(b')')?;
    }
    Ok(text)
}

// A term of as many different trees as there are rows has its line, and one of one more has too few
// rows.
fn has_its_edge_at<R: Threads + Wait + Abort + Sync>(
    rt: &R,
    alloc: Global,
    workers: u32,
    rows: u32,
) -> Result<(), Fail>
    requires workers { (1 ≤ workers) × (workers ≤ 16) }
    requires rows { (1 ≤ rows) × (rows ≤ 8) }
{
    let mut text = nested(alloc, rows - 1)?;
    let lines = rewrite(rt, alloc, text.as_slice(), workers, rows)?;
    let lines = lines.ok().ok_or("no lines")?;
    text.push(b'\n')?;
    assert_eq!(rt; text_of(alloc, &lines)?.as_slice(), text.as_slice());
    let lines = rewrite(rt, alloc, nested(alloc, rows)?.as_slice(), workers, rows)?;
    assert_eq!(rt; lines.err(), Some(AllFault::StoreFull));
    Ok(())
}

// One term is drawn by one worker, however many there are.
#[test]
fn the_store_is_full_at_its_edge(rt: HostRuntime) -> Result<(), Fail> {
    let alloc = rt.alloc();
    for workers in [1, 2, 16] {
        for rows in 1..9 {
            has_its_edge_at(&rt, alloc, workers, rows)?;
        }
    }
    Ok(())
}
