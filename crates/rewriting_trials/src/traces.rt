//! Events of normalizations, worked out by hand.

mod ends;

ghost use Rattle.std.specs.Prelude.{◌≡◌, ◌≤◌, true};
ghost use Rattle.innermost.specs.Machines.{IsFor};

use crate::adding::{ONE_AND_ONE, SUMS};
use crate::writing::{A, B, C, E, F, G, PLUS, S, WIDEST, Written, X, Y, Z, flat, plan_of};
use innermost::{Event, Machine, Normal, TraceFault};
use plain_store::PlainStore;
use rule_fitness::may_be_normalized;
use rule_match::Plan;
use std::alloc::Global;
use std::process::Abort;
use std::test::Fail;
use term_model::{Flat, Item};
use terms_api::Terms;

/// Normalizes a term that may be normalized, and appends its events; else there is no answer.
fn answer_of<T: Terms>(
    machine: &mut Machine,
    plan: &Plan,
    depth: u32,
    term: &Flat,
    fuel: u64,
    terms: &mut T,
    events: &mut Vec<Event>,
) -> Option<Result<Normal, TraceFault>>
    requires inside { (T.store terms.old).inside ≡ true }
    requires machine { IsFor plan.now machine.old }
    requires depth { machine.old.depth ≡ depth }
    requires wide { plan.now.widest ≤ (T.store terms.old).widest }
{
    let free = terms.room() - terms.depth();
    if free < depth || !may_be_normalized(term, plan.widest()) {
        return None;
    }
    Some(machine.normalize_traced(plan, term, fuel, terms, events))
}

/// Normalizes a term by a new machine, and appends its events.
fn answer_anew<T: Terms>(
    alloc: Global,
    plan: &Plan,
    depth: u32,
    term: &Flat,
    fuel: u64,
    terms: &mut T,
    events: &mut Vec<Event>,
) -> Result<Option<Result<Normal, TraceFault>>, Fail>
    requires inside { (T.store terms.old).inside ≡ true }
    requires wide { plan.now.widest ≤ (T.store terms.old).widest }
{
    let mut machine = Machine::new(alloc, plan, depth)?;
    Ok(answer_of(&mut machine, plan, depth, term, fuel, terms, events))
}

/// The same in a new store of so many rows.
fn trace_term(
    alloc: Global,
    plan: &Plan,
    term: &Flat,
    limits: (u64, u32, u32),
    events: &mut Vec<Event>,
) -> Result<Option<Result<Normal, TraceFault>>, Fail>
    requires { plan.now.widest ≤ 2 }
{
    let (fuel, depth, rows) = limits;
    let mut store = PlainStore::new(alloc, rows, depth, WIDEST)?;
    store.enter();
    answer_anew(alloc, plan, depth, term, fuel, &mut store, events)
}

fn trace(
    alloc: Global,
    plan: &Plan,
    term: &[Item],
    limits: (u64, u32, u32),
    events: &mut Vec<Event>,
) -> Result<Option<Result<Normal, TraceFault>>, Fail>
    requires { plan.now.widest ≤ 2 }
{
    let term = flat(alloc, term)?;
    trace_term(alloc, plan, &term, limits, events)
}

/// Rules, a term, its fuel, its room and how many rows there are; and then the answer, and the
/// events.
type Traced = (
    &'static [Written],
    &'static [Item],
    (u64, u32, u32),
    Result<Normal, TraceFault>,
    &'static [Event],
);

const AMPLE: (u64, u32, u32) = (1000, 99, 99);

fn are_same(events: &[Event], told: &[Event]) -> bool {
    events == told
}

/// Whether a row has its answer, and there are its events then.
fn is_traced(alloc: Global, row: &Traced, events: &mut Vec<Event>) -> Result<bool, Fail> {
    let (rules, term, limits, want, told) = row;
    let plan = plan_of(alloc, rules)?;
    let got = trace(alloc, &plan, term, *limits, events)?;
    Ok(got == Some(*want) && are_same(events, told))
}

/// The first of the rows, by its number, that has another answer or other events, where there are
/// some before.
fn first_after(alloc: Global, rows: &[Traced], before: &[Event]) -> Result<Option<usize>, Fail> {
    for (number, row) in rows.iter().enumerate() {
        let mut events = before.to_vec(alloc)?;
        if !is_traced(alloc, row, &mut events)? {
            return Ok(Some(number));
        }
    }
    Ok(None)
}

/// Expects each of the rows to be so, where there are some events before.
fn expect<R: Abort + Alloc<A = Global>>(
    rt: &R,
    rows: &[Traced],
    before: &[Event],
) -> Result<(), Fail> {
    assert_eq!(rt; first_after(rt.alloc(), rows, before)?, None);
    Ok(())
}

/// The sum of one and one, at each limit.
static ONE_AND_ONES: [Traced; 5] = [
    (
        &SUMS,
        &ONE_AND_ONE,
        (1000, 99, 99),
        Ok(Normal::Value { left: 998 }),
        &[Event::Rule(1), Event::Down(1), Event::Rule(0)],
    ),
    (
        &SUMS,
        &ONE_AND_ONE,
        (1, 99, 99),
        Ok(Normal::OutOfFuel),
        &[Event::Rule(1)],
    ),
    (&SUMS, &ONE_AND_ONE, (0, 99, 99), Ok(Normal::OutOfFuel), &[]),
    (
        &SUMS,
        &ONE_AND_ONE,
        (1000, 5, 99),
        Ok(Normal::TooDeep),
        &[Event::Rule(1)],
    ),
    (
        &SUMS,
        &ONE_AND_ONE,
        (1000, 99, 2),
        Err(TraceFault::StoreFull),
        &[],
    ),
];

#[test]
fn one_and_one_is_traced(rt: HostRuntime) -> Result<(), Fail> {
    expect(&rt, &ONE_AND_ONES, &[])
}

/// Two uses of one rule, behind an event that was there before.
static APPENDED: [Traced; 1] = [(
    &[(&[X, F], &[X], 1, &[])],
    &[A, F, F],
    AMPLE,
    Ok(Normal::Value { left: 998 }),
    &[
        Event::Up,
        Event::Down(1),
        Event::Rule(0),
        Event::Up,
        Event::Rule(0),
    ],
)];

#[test]
fn events_are_appended(rt: HostRuntime) -> Result<(), Fail> {
    expect(&rt, &APPENDED, &[Event::Up])
}

/// Moves up, no further than is shared.
static SHARED: [Traced; 1] = [(
    &[(&[X, F], &[C], 1, &[])],
    &[A, F, B, F, PLUS, A, F, PLUS],
    AMPLE,
    Ok(Normal::Value { left: 997 }),
    &[
        Event::Down(1),
        Event::Down(1),
        Event::Rule(0),
        Event::Up,
        Event::Down(2),
        Event::Rule(0),
        Event::Up,
        Event::Up,
        Event::Down(2),
        Event::Rule(0),
    ],
)];

#[test]
fn moves_go_up_no_further_than_is_shared(rt: HostRuntime) -> Result<(), Fail> {
    expect(&rt, &SHARED, &[])
}

/// A right side in which rules are used.
static INTO_RIGHT_SIDES: [Traced; 1] = [(
    &[
        (&[X, G], &[X, F, X, F, S, PLUS], 1, &[]),
        (&[X, F], &[X], 1, &[]),
    ],
    &[Z, A, G, PLUS],
    AMPLE,
    Ok(Normal::Value { left: 997 }),
    &[
        Event::Down(2),
        Event::Rule(0),
        Event::Down(1),
        Event::Rule(1),
        Event::Up,
        Event::Down(2),
        Event::Down(1),
        Event::Rule(1),
    ],
)];

#[test]
fn moves_go_into_right_sides(rt: HostRuntime) -> Result<(), Fail> {
    expect(&rt, &INTO_RIGHT_SIDES, &[])
}

/// A rule after a rule, in its place.
static IN_ITS_PLACE: [Traced; 1] = [(
    &[
        (&[X, F], &[X, S, G], 1, &[]),
        (&[X, G], &[X], 1, &[]),
        (&[X, S], &[B], 1, &[]),
    ],
    &[A, F],
    AMPLE,
    Ok(Normal::Value { left: 997 }),
    &[
        Event::Rule(0),
        Event::Down(1),
        Event::Rule(2),
        Event::Up,
        Event::Rule(1),
    ],
)];

#[test]
fn a_rule_may_follow_a_rule_in_its_place(rt: HostRuntime) -> Result<(), Fail> {
    expect(&rt, &IN_ITS_PLACE, &[])
}

/// A rule whose condition uses another.
const GUARDED: [Written; 2] = [
    (&[X, G], &[B], 1, &[]),
    (&[X, F], &[E], 1, &[(&[X, G], &[B], true)]),
];

fn guarded_answer(alloc: Global) -> Result<Option<Result<Normal, TraceFault>>, Fail> {
    let mut events = Vec::new(alloc);
    let plan = plan_of(alloc, &GUARDED)?;
    trace(alloc, &plan, &[A, F], AMPLE, &mut events)
}

#[test]
fn conditions_leave_the_answer(rt: HostRuntime) -> Result<(), Fail> {
    assert_eq!(rt;
        guarded_answer(rt.alloc())?,
        Some(Ok(Normal::Value { left: 998 }))
    );
    Ok(())
}
