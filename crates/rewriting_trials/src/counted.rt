//! What a counting store tells of normalizing: its load, its sweeps, and how often others are let
//! in.

ghost use Rattle.std.specs.Prelude.{◌≡◌, ◌≤◌, true};
ghost use Rattle.plain_store.specs.Contents.{store_of};
ghost use Rattle.innermost.specs.Machines.{IsFor};

use crate::adding::{ONE_AND_ONE, sums};
use crate::chance::{Dice, plan, term};
use crate::counting::{Counting, Counts};
use crate::sight::{Limits, Order, STORE_FULL, answer_of};
use crate::writing::{F, WIDEST, Z, flat, plan_of};
use innermost::{Machine, Normal, RunFault};
use plain_rewriting::need;
use rule_match::Plan;
use std::alloc::Global;
use std::test::Fail;
use term_model::Flat;
use terms_api::Terms;

/// The answer for the last of some terms one after another, each on an empty stack.
fn last_answer(
    machine: &mut Machine,
    plan: &Plan,
    terms: &[Flat],
    limits: Limits,
    store: &mut Counting,
) -> Option<Result<Normal, RunFault>>
    requires inside { (store_of store.old.store).inside ≡ true }
    requires machine { IsFor plan.now machine.old }
    requires depth { machine.old.depth ≡ limits.depth }
    requires wide { plan.now.widest ≤ (store_of store.old.store).widest }
    ensures inside { (store_of store.new.store).inside ≡ true }
{
    let mut last = Ok(Normal::OutOfFuel);
    let Limits {
        fuel,
        depth,
        rows: _,
    } = limits;
    for term in terms {
        store.keep(0, 0);
        last = answer_of(machine, plan, depth, Order::Innermost, term, fuel, store)?;
    }
    Some(last)
}

/// The same by a new machine.
fn last_anew(
    alloc: Global,
    plan: &Plan,
    terms: &[Flat],
    limits: Limits,
    store: &mut Counting,
) -> Result<Option<Result<Normal, RunFault>>, Fail>
    requires inside { (store_of store.old.store).inside ≡ true }
    requires wide { plan.now.widest ≤ (store_of store.old.store).widest }
    ensures inside { (store_of store.new.store).inside ≡ true }
{
    let mut machine = Machine::new(alloc, plan, limits.depth)?;
    Ok(last_answer(&mut machine, plan, terms, limits, store))
}

/// The same, and what the store tells then.
fn counted_in(
    alloc: Global,
    plan: &Plan,
    terms: &[Flat],
    limits: Limits,
    store: &mut Counting,
) -> Result<(Result<Normal, RunFault>, Counts), Fail>
    requires inside { (store_of store.old.store).inside ≡ true }
    requires wide { plan.now.widest ≤ (store_of store.old.store).widest }
{
    let last = last_anew(alloc, plan, terms, limits, store)?;
    store.look();
    match last {
        Some(answer) => Ok((answer, store.counts())),
        None => Err(Fail::from("not a term of the plan")),
    }
}

/// The same in a new store.
fn counted(
    alloc: Global,
    plan: &Plan,
    terms: &[Flat],
    limits: Limits,
) -> Result<(Result<Normal, RunFault>, Counts), Fail>
    requires { plan.now.widest ≤ 2 }
{
    let mut store = Counting::new(alloc, limits.rows, limits.depth, WIDEST)?;
    store.enter();
    counted_in(alloc, plan, terms, limits, &mut store)
}

/// How many rows there are; and then the builds, the refusals, the sweeps, the load and the answer.
type Loaded = (u32, u32, u32, u32, usize, Result<Normal, RunFault>);

static LOADS: [Loaded; 3] = [
    (99, 7, 0, 0, 3, Ok(Normal::Value { left: 0 })),
    // In three rows the two sums are lost one after the other.
    (3, 7, 0, 2, 3, Ok(Normal::Value { left: 0 })),
    (2, 4, 1, 0, 2, STORE_FULL),
];

fn is_counted(alloc: Global, plan: &Plan, terms: &[Flat], row: &Loaded) -> Result<bool, Fail>
    requires { plan.now.widest ≤ 2 }
{
    let (rows, builds, refusals, sweeps, load, answer) = *row;
    let limits = Limits {
        fuel: 2,
        depth: 6,
        rows,
    };
    let want = Counts {
        builds,
        refusals,
        sweeps,
        load,
        breaths: 0,
        longest: builds,
    };
    Ok(counted(alloc, plan, terms, limits)? == (answer, want))
}

/// The first of the rows, by its number, of which a store tells otherwise.
fn first_load(alloc: Global, plan: &Plan, terms: &[Flat]) -> Result<Option<usize>, Fail>
    requires { plan.now.widest ≤ 2 }
{
    for (number, row) in LOADS.iter().enumerate() {
        if !is_counted(alloc, plan, terms, row)? {
            return Ok(Some(number));
        }
    }
    Ok(None)
}

fn one(alloc: Global, term: Flat) -> Result<Vec<Flat>, Fail> {
    let mut terms = Vec::new(alloc);
    terms.push(term)?;
    Ok(terms)
}

fn first_other_load(alloc: Global) -> Result<Option<usize>, Fail> {
    let terms = one(alloc, flat(alloc, &ONE_AND_ONE)?)?;
    let plan = sums(alloc)?;
    first_load(alloc, &plan, &terms)
}

#[test]
fn one_and_one_is_counted(rt: HostRuntime) -> Result<(), Fail> {
    assert_eq!(rt; first_other_load(rt.alloc())?, None);
    Ok(())
}

/// A constant under so many levels of a symbol.
fn tower(alloc: Global, levels: usize) -> Result<Flat, Fail> {
    let mut items = Vec::new(alloc);
    items.push(Z)?;
    for _ in 0..levels {
        items.push(F)?;
    }
    flat(alloc, &items)
}

fn towers(alloc: Global, levels: &[usize]) -> Result<Vec<Flat>, Fail> {
    let mut terms = Vec::new(alloc);
    for levels in levels {
        terms.push(tower(alloc, *levels)?)?;
    }
    Ok(terms)
}

/// The levels of towers; and then the builds, how often others are let in, and the most builds in a
/// row without that.
type Long = (&'static [usize], u32, u32, u32);

static LONG: [Long; 4] = [
    (&[254], 255, 0, 255),
    (&[255], 256, 1, 255),
    (&[600], 601, 2, 256),
    // One machine goes on counting from term to term.
    (&[199, 199], 400, 1, 255),
];

fn is_let_in(alloc: Global, plan: &Plan, row: &Long) -> Result<bool, Fail>
    requires { plan.now.widest ≤ 2 }
{
    let (levels, builds, breaths, longest) = *row;
    let limits = Limits {
        fuel: 0,
        depth: 700,
        rows: 700,
    };
    let terms = towers(alloc, levels)?;
    let counts = counted(alloc, plan, &terms, limits)?.1;
    Ok((counts.builds, counts.breaths, counts.longest) == (builds, breaths, longest))
}

/// The first of the rows, by its number, in which others are let in otherwise.
fn first_long(alloc: Global, plan: &Plan) -> Result<Option<usize>, Fail>
    requires { plan.now.widest ≤ 2 }
{
    for (number, row) in LONG.iter().enumerate() {
        if !is_let_in(alloc, plan, row)? {
            return Ok(Some(number));
        }
    }
    Ok(None)
}

fn first_other_long(alloc: Global) -> Result<Option<usize>, Fail> {
    let plan = plan_of(alloc, &[])?;
    first_long(alloc, &plan)
}

#[test]
fn others_are_let_in_before_each_256th_build(rt: HostRuntime) -> Result<(), Fail> {
    assert_eq!(rt; first_other_long(rt.alloc())?, None);
    Ok(())
}

/// Whether what a store tells is what the contract of normalizing allows, for a term that needs so
/// many rows.
fn is_allowed(answer: Result<Normal, RunFault>, counts: Counts, needed: usize) -> bool {
    let refused = match answer {
        Ok(_) => 0,
        Err(_) => 1,
    };
    counts.load <= needed
        && counts.refusals == refused
        && counts.sweeps <= counts.builds.saturating_add(refused)
}

/// How many sweeps and refusals there were.
#[derive(Clone, Copy)]
struct Seen {
    swept: u32,
    full: u32,
}

/// Whether terms do what is allowed in so many rows less than are needed, and aren't stopped by a
/// full store where none is less.
fn is_in_bounds(
    alloc: Global,
    plan: &Plan,
    terms: &[Flat],
    needed: usize,
    less: u32,
    seen: &mut Seen,
) -> Result<bool, Fail>
    requires { plan.now.widest ≤ 2 }
{
    let limits = Limits {
        fuel: 8,
        depth: 40,
        rows: (needed.min(400) as u32).saturating_sub(less),
    };
    let (answer, counts) = counted(alloc, plan, terms, limits)?;
    seen.swept = seen.swept.saturating_add(counts.sweeps);
    seen.full = seen.full.saturating_add(counts.refusals);
    Ok(is_allowed(answer, counts, needed) && (less > 0 || answer.is_ok()))
}

/// Whether a term does so in as many rows as it needs, and in a few less.
fn are_in_bounds(alloc: Global, plan: &Plan, term: Flat, seen: &mut Seen) -> Result<bool, Fail>
    requires { plan.now.widest ≤ 2 }
{
    let needed = need(alloc, plan.rules(), &term, 8, 40)?;
    let terms = one(alloc, term)?;
    for less in 0..3 {
        if !is_in_bounds(alloc, plan, &terms, needed, less, seen)? {
            return Ok(false);
        }
    }
    Ok(true)
}

/// Whether the next chance term does so by the next chance rules.
fn next_is_in_bounds(alloc: Global, dice: &mut Dice, seen: &mut Seen) -> Result<bool, Fail> {
    let plan = plan(alloc, dice, false)?;
    let term = term(alloc, dice)?;
    are_in_bounds(alloc, &plan, term, seen)
}

/// The first set of chance rules, by its number, that does not.
fn first_out_of_bounds(alloc: Global, seen: &mut Seen) -> Result<Option<u32>, Fail> {
    let mut dice = Dice::of(2);
    for number in 0..200 {
        if !next_is_in_bounds(alloc, &mut dice, seen)? {
            return Ok(Some(number));
        }
    }
    Ok(None)
}

#[test]
fn chance_rules_protect_no_more_than_is_needed(rt: HostRuntime) -> Result<(), Fail> {
    let mut seen = Seen { swept: 0, full: 0 };
    assert_eq!(rt; first_out_of_bounds(rt.alloc(), &mut seen)?, None);
    assert!(rt;
        seen.swept > 100 && seen.full > 100,
        "{} {}",
        seen.swept,
        seen.full
    );
    Ok(())
}
