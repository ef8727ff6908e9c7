//! What normalizing leaves of a store: its rows, and the places of its stack.

ghost use Rattle.std.specs.Prelude.{◌≡◌, ◌≤◌, true};
ghost use Rattle.plain_store.specs.Contents.{store_of};
ghost use Rattle.innermost.specs.Machines.{IsFor};

use crate::adding::{BUILDS, ONE_AND_ONE, TWO, sums};
use crate::building::build_terms;
use crate::sight::{
    Limits, OUT_OF_FUEL, Order, STORE_FULL, TOO_DEEP, answer_anew, answer_of, is_on_top,
};
use crate::watched::Watched;
use crate::writing::{C, F, PLUS, WIDEST, X, Z, boxed, flat, plan_of, tree};
use innermost::{Machine, Normal, RunFault};
use plain_rewriting::Term;
use plain_store::PlainStore;
use rule_match::Plan;
use std::alloc::Global;
use std::test::Fail;
use term_model::{Flat, Item, Row};
use terms_api::Terms;

/// Whether the tree on top is a constant under so many levels of a symbol over one tree twice.
fn is_doubled<T: Terms>(levels: u32, terms: &mut T) -> bool
    requires inside { (T.store terms.old).inside ≡ true }
{
    let places = terms.depth();
    if places == 0 {
        return false;
    }
    let mut row = terms.at(places - 1);
    for _ in 0..levels {
        if Some(terms.head(row)) != PLUS.head() || terms.count(row) != 2 {
            return false;
        }
        let first = terms.child(row, 0);
        if terms.child(row, 1) != first {
            return false;
        }
        row = first;
    }
    Some(terms.head(row)) == Z.head()
}

/// A constant under so many levels of a symbol.
fn tower(alloc: Global, levels: u32) -> Result<Flat, Fail> {
    let mut items = vec![in alloc; F; levels as usize + 1]?;
    items[0] = Z;
    flat(alloc, &items)
}

/// How often a constant is doubled, in how much room and how many rows; and then the answer. A
/// value has one more different nodes than it has levels.
type Doubled = (u32, u32, u32, Result<Normal, RunFault>);

static DOUBLES: [Doubled; 6] = [
    (19, 22, 20, Ok(Normal::Value { left: 80 })),
    (19, 21, 20, TOO_DEEP),
    (19, 22, 19, STORE_FULL),
    (64, 67, 65, Ok(Normal::Value { left: 35 })),
    (64, 66, 65, TOO_DEEP),
    (64, 67, 64, STORE_FULL),
];

/// Whether the answer comes, and the doubled tree just where it is a value.
fn is_answered_in(
    alloc: Global,
    plan: &Plan,
    row: &Doubled,
    term: &Flat,
    store: &mut PlainStore,
) -> Result<bool, Fail>
    requires inside { (store_of store.old).inside ≡ true }
    requires wide { plan.now.widest ≤ (store_of store.old).widest }
{
    let (levels, depth, _, want) = *row;
    let got = answer_anew(alloc, plan, depth, Order::Innermost, term, 99, store)?;
    let is_value = matches!(want, Ok(Normal::Value { .. }));
    Ok(got == Some(want) && is_doubled(levels, store) == is_value)
}

fn is_answered(alloc: Global, plan: &Plan, row: &Doubled) -> Result<bool, Fail>
    requires { plan.now.widest ≤ 2 }
{
    let (levels, depth, rows, _) = *row;
    let term = tower(alloc, levels)?;
    let mut store = PlainStore::new(alloc, rows, depth, WIDEST)?;
    store.enter();
    is_answered_in(alloc, plan, row, &term, &mut store)
}

/// The first of the rows, by its number, that has another answer.
fn first_double(alloc: Global, plan: &Plan) -> Result<Option<usize>, Fail>
    requires { plan.now.widest ≤ 2 }
{
    for (number, row) in DOUBLES.iter().enumerate() {
        if !is_answered(alloc, plan, row)? {
            return Ok(Some(number));
        }
    }
    Ok(None)
}

fn first_other_double(alloc: Global) -> Result<Option<usize>, Fail> {
    let plan = plan_of(alloc, &[(&[X, F], &[X, X, PLUS], 1, &[])])?;
    first_double(alloc, &plan)
}

#[test]
fn doubled_terms_take_a_row_a_level(rt: HostRuntime) -> Result<(), Fail> {
    assert_eq!(rt; first_other_double(rt.alloc())?, None);
    Ok(())
}

fn lowest<T: Terms>(terms: &mut T) -> Option<Row>
    requires inside { (T.store terms.old).inside ≡ true }
    ensures unchanged { T.store terms.new ≡ T.store terms.old }
{
    if terms.depth() == 0 {
        return None;
    }
    Some(terms.at(0))
}

/// Normalizes a term on a stack that isn't empty: the answer, and how many places are in use then,
/// if the lowest of them has the row that it had.
fn answer_above(
    alloc: Global,
    plan: &Plan,
    term: &Flat,
    limits: Limits,
    store: &mut PlainStore,
) -> Result<Option<(Result<Normal, RunFault>, u32)>, Fail>
    requires inside { (store_of store.old).inside ≡ true }
    requires two { plan.now.widest ≤ 2 }
    requires wide { 2 ≤ (store_of store.old).widest }
{
    if !build_terms(&[C, F], store) {
        return Ok(None);
    }
    let before = lowest(store);
    let Limits {
        fuel,
        depth,
        rows: _,
    } = limits;
    let answer = answer_anew(alloc, plan, depth, Order::Innermost, term, fuel, store)?;
    let stays = before.is_some() && lowest(store) == before;
    Ok(match answer {
        Some(answer) if stays => Some((answer, store.depth())),
        _ => None,
    })
}

/// Fuel, room and rows; and then the answer, and how many places are in use.
type Above = (u64, u32, u32, Result<Normal, RunFault>, u32);

static ABOVE: [Above; 5] = [
    (2, 6, 99, Ok(Normal::Value { left: 0 }), 2),
    (1, 6, 99, OUT_OF_FUEL, 1),
    (2, 5, 99, TOO_DEEP, 1),
    (2, 6, 5, Ok(Normal::Value { left: 0 }), 2),
    (2, 6, 4, STORE_FULL, 1),
];

fn is_answered_above(alloc: Global, plan: &Plan, term: &Flat, row: &Above) -> Result<bool, Fail>
    requires { plan.now.widest ≤ 2 }
{
    let (fuel, depth, rows, answer, places) = *row;
    let limits = Limits { fuel, depth, rows };
    let mut store = PlainStore::new(alloc, rows, depth.saturating_add(1), WIDEST)?;
    store.enter();
    let got = answer_above(alloc, plan, term, limits, &mut store)?;
    Ok(got == Some((answer, places)))
}

/// The first of the rows, by its number, that has another answer, or other places in use.
fn first_above(alloc: Global, plan: &Plan, term: &Flat) -> Result<Option<usize>, Fail>
    requires { plan.now.widest ≤ 2 }
{
    for (number, row) in ABOVE.iter().enumerate() {
        if !is_answered_above(alloc, plan, term, row)? {
            return Ok(Some(number));
        }
    }
    Ok(None)
}

fn first_other_above(alloc: Global) -> Result<Option<usize>, Fail> {
    let term = flat(alloc, &ONE_AND_ONE)?;
    let plan = sums(alloc)?;
    first_above(alloc, &plan, &term)
}

#[test]
fn what_lies_on_the_stack_stays_there(rt: HostRuntime) -> Result<(), Fail> {
    assert_eq!(rt; first_other_above(rt.alloc())?, None);
    Ok(())
}

/// Whether a term comes to the wanted value once more, on an empty stack, which is empty again
/// then.
fn comes_again(
    machine: &mut Machine,
    plan: &Plan,
    depth: u32,
    term: &Flat,
    value: &Term,
    store: &mut Watched,
) -> bool
    requires inside { (store_of store.old.store).inside ≡ true }
    requires machine { IsFor plan.now machine.old }
    requires depth { machine.old.depth ≡ depth }
    requires wide { plan.now.widest ≤ (store_of store.old.store).widest }
    ensures inside { (store_of store.new.store).inside ≡ true }
    ensures wide { plan.now.widest ≤ (store_of store.new.store).widest }
    ensures machine { machine.new ≡ machine.old }
{
    let answer = answer_of(machine, plan, depth, Order::Innermost, term, 2, store);
    let is_right = is_on_top(value, store) && store.depth() == 1;
    store.keep(0, 0);
    is_right && answer == Some(Ok(Normal::Value { left: 0 }))
}

/// What four sums are to build.
fn four_wanted(alloc: Global) -> Result<Vec<Term>, Fail> {
    let mut wanted = Vec::new(alloc);
    for _ in 0..4 {
        wanted.append(&mut boxed(alloc, &BUILDS)?)?;
    }
    Ok(wanted)
}

/// Whether a term comes to the wanted value four times, and what was built is what is wanted.
fn comes_four_times(
    machine: &mut Machine,
    plan: &Plan,
    term: &Flat,
    value: &Term,
    store: &mut Watched,
) -> bool
    requires inside { (store_of store.old.store).inside ≡ true }
    requires machine { IsFor plan.now machine.old }
    requires depth { machine.old.depth ≡ 6 }
    requires wide { plan.now.widest ≤ (store_of store.old.store).widest }
    ensures inside { (store_of store.new.store).inside ≡ true }
{
    let first = comes_again(machine, plan, 6, term, value, store);
    let second = comes_again(machine, plan, 6, term, value, store);
    let third = comes_again(machine, plan, 6, term, value, store);
    let fourth = comes_again(machine, plan, 6, term, value, store);
    first && second && third && fourth && store.in_order() && store.built() == 28
}

/// The same by a new machine, and the store's epoch then.
fn comes_anew(
    alloc: Global,
    plan: &Plan,
    term: &Flat,
    value: &Term,
    store: &mut Watched,
) -> Result<(bool, Option<u64>), Fail>
    requires inside { (store_of store.old.store).inside ≡ true }
    requires wide { plan.now.widest ≤ (store_of store.old.store).widest }
{
    let mut machine = Machine::new(alloc, plan, 6)?;
    let as_wanted = comes_four_times(&mut machine, plan, term, value, store);
    Ok((as_wanted, store.epoch()))
}

fn four_sums_by(
    alloc: Global,
    plan: &Plan,
    term: &Flat,
    value: &Term,
    rows: u32,
) -> Result<(bool, Option<u64>), Fail>
    requires { plan.now.widest ≤ 2 }
{
    let mut store = Watched::new(alloc, rows, 6, WIDEST, four_wanted(alloc)?)?;
    store.enter();
    comes_anew(alloc, plan, term, value, &mut store)
}

/// Four sums of one and one in a store of so many rows: whether each comes to two and builds what
/// it is to build, and the store's epoch then.
fn four_sums(alloc: Global, rows: u32) -> Result<(bool, Option<u64>), Fail> {
    let value = tree(alloc, &TWO)?;
    let term = flat(alloc, &ONE_AND_ONE)?;
    let plan = sums(alloc)?;
    four_sums_by(alloc, &plan, &term, &value, rows)
}

#[test]
fn four_terms_share_a_store(rt: HostRuntime) -> Result<(), Fail> {
    let alloc = rt.alloc();
    assert_eq!(rt; four_sums(alloc, 5)?, (true, Some(0)));
    let (as_wanted, epoch) = four_sums(alloc, 3)?;
    assert!(rt; as_wanted && epoch > Some(0), "{epoch:?}");
    Ok(())
}
