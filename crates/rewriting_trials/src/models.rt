//! Worked rows by the plain program: what terms come to, and their single steps.

use crate::sight::Order;
use crate::writing::{Written, flat, rules_of, tree};
use plain_rewriting::{End, Term, evaluation, outermost, steps};
use rewrite_model::Rule;
use std::alloc::Global;
use std::process::Abort;
use std::test::Fail;
use term_model::{Flat, Item, Symbol};

pub(crate) const X: Item = Item::Var(0);

pub(crate) const Y: Item = Item::Var(1);

pub(crate) const Z: Item = Item::App(Symbol(0), 0);

pub(crate) const S: Item = Item::App(Symbol(1), 1);

pub(crate) const PLUS: Item = Item::App(Symbol(2), 2);

pub(crate) const A: Item = Item::App(Symbol(4), 0);

const B: Item = Item::App(Symbol(5), 0);

pub(crate) const C: Item = Item::App(Symbol(6), 0);

const E: Item = Item::App(Symbol(7), 0);

pub(crate) const F: Item = Item::App(Symbol(8), 1);

pub(crate) const G: Item = Item::App(Symbol(9), 1);

const EQ: Item = Item::App(Symbol(10), 2);

pub(crate) const D: Item = Item::App(Symbol(11), 1);

const L: Item = Item::App(Symbol(13), 0);

pub(crate) const P: Item = Item::App(Symbol(12), 2);

pub(crate) const SUMS: [Written; 2] = [
    (&[X, Z, PLUS], &[X], 1, &[]),
    (&[X, Y, S, PLUS], &[X, Y, PLUS, S], 2, &[]),
];

/// Sums, and two rules for one symbol.
const DOUBLING: [Written; 4] = [
    (&[X, Z, PLUS], &[X], 1, &[]),
    (&[X, Y, S, PLUS], &[X, Y, PLUS, S], 2, &[]),
    (&[X, D], &[X, X, P], 1, &[]),
    (&[X, D], &[A], 1, &[]),
];

const EQUAL: [Written; 1] = [(&[X, X, EQ], &[A], 1, &[])];

/// A rule with two conditions, between one that its first condition uses and one that is used where
/// a condition fails.
const GUARDED: [Written; 3] = [
    (&[X, G], &[B], 1, &[]),
    (
        &[X, F],
        &[A],
        1,
        &[(&[X, G], &[B], true), (&[X], &[C], false)],
    ),
    (&[X, F], &[E], 1, &[]),
];

/// A rule that leaves its argument out, and a constant without a value.
const ENDLESS: [Written; 2] = [(&[X, F], &[A], 1, &[]), (&[L], &[L], 0, &[])];

pub(crate) const ONE_AND_ONE: [Item; 5] = [Z, S, Z, S, PLUS];

const TWO: [Item; 3] = [Z, S, S];

/// What a term is to come to: its value, with so much fuel left, or what else.
#[derive(Clone, Copy)]
enum Wanted {
    Value(u64),
    OutOfFuel,
    TooDeep,
}

/// Rules, a term and its value; and its runs, with their fuel and room, and what they come to.
struct Evaluations {
    rules: &'static [Written],
    term: &'static [Item],
    value: &'static [Item],
    runs: &'static [Run],
}

type Run = (Order, u64, u32, Wanted);

fn is_end(end: &End, value: &Term, want: Wanted) -> bool {
    match end {
        End::Value(got, left) => match want {
            Wanted::Value(fuel) => *left == fuel && got.is_same(value),
            _ => false,
        },
        End::OutOfFuel => matches!(want, Wanted::OutOfFuel),
        End::TooDeep => matches!(want, Wanted::TooDeep),
    }
}

fn comes_so(
    alloc: Global,
    rules: &[Rule],
    term: &Flat,
    value: &Term,
    run: &Run,
) -> Result<bool, Fail> {
    let (order, fuel, room, want) = *run;
    let got = match order {
        Order::Innermost => evaluation(alloc, rules, term, fuel, room)?,
        Order::Outermost => outermost(alloc, rules, term, fuel, room)?,
    };
    Ok(is_end(&got.end, value, want))
}

/// The first of the runs, by its number, that comes to something else.
fn first_run(
    alloc: Global,
    rules: &[Rule],
    term: &Flat,
    value: &Term,
    runs: &[Run],
) -> Result<Option<usize>, Fail> {
    for (number, run) in runs.iter().enumerate() {
        if !comes_so(alloc, rules, term, value, run)? {
            return Ok(Some(number));
        }
    }
    Ok(None)
}

/// The first run of some evaluations, by its number, that comes to something else.
fn first_other(alloc: Global, given: &Evaluations) -> Result<Option<usize>, Fail> {
    let value = tree(alloc, given.value)?;
    let term = flat(alloc, given.term)?;
    let rules = rules_of(alloc, given.rules)?;
    first_run(alloc, &rules, &term, &value, given.runs)
}

/// Expects each run of some evaluations to be as it says.
fn expect<R: Abort + Alloc<A = Global>>(rt: &R, given: &Evaluations) -> Result<(), Fail> {
    assert_eq!(rt; first_other(rt.alloc(), given)?, None, "{:?}", given.term);
    Ok(())
}

static ONE_AND_ONES: Evaluations = Evaluations {
    rules: &SUMS,
    term: &ONE_AND_ONE,
    value: &TWO,
    runs: &[
        (Order::Innermost, 2, 6, Wanted::Value(0)),
        (Order::Innermost, 1, 6, Wanted::OutOfFuel),
        (Order::Innermost, 2, 5, Wanted::TooDeep),
        (Order::Outermost, 2, 99, Wanted::Value(0)),
        (Order::Outermost, 1, 99, Wanted::OutOfFuel),
    ],
};

#[test]
fn one_and_one_is_two(rt: HostRuntime) -> Result<(), Fail> {
    expect(&rt, &ONE_AND_ONES)
}

static SAME: Evaluations = Evaluations {
    rules: &EQUAL,
    term: &[Z, S, Z, S, EQ],
    value: &[A],
    runs: &[(Order::Innermost, 9, 99, Wanted::Value(8))],
};

static OTHER: Evaluations = Evaluations {
    rules: &EQUAL,
    term: &[Z, S, Z, EQ],
    value: &[Z, S, Z, EQ],
    runs: &[(Order::Innermost, 9, 99, Wanted::Value(9))],
};

#[test]
fn a_repeated_variable_needs_equal_trees(rt: HostRuntime) -> Result<(), Fail> {
    expect(&rt, &SAME)?;
    expect(&rt, &OTHER)
}

/// The second condition fails.
static FAILING: Evaluations = Evaluations {
    rules: &GUARDED,
    term: &[C, F],
    value: &[E],
    runs: &[
        (Order::Innermost, 3, 99, Wanted::Value(0)),
        (Order::Innermost, 2, 99, Wanted::OutOfFuel),
    ],
};

/// Both conditions hold.
static HOLDING: Evaluations = Evaluations {
    rules: &GUARDED,
    term: &[A, F],
    value: &[A],
    runs: &[(Order::Innermost, 2, 99, Wanted::Value(0))],
};

#[test]
fn conditions_are_tried_in_order(rt: HostRuntime) -> Result<(), Fail> {
    expect(&rt, &FAILING)?;
    expect(&rt, &HOLDING)
}

static ROOT: Evaluations = Evaluations {
    rules: &ENDLESS,
    term: &[L, F],
    value: &[A],
    runs: &[
        (Order::Outermost, 1, 2, Wanted::Value(0)),
        (Order::Outermost, 1, 1, Wanted::TooDeep),
        (Order::Innermost, 5, 99, Wanted::OutOfFuel),
    ],
};

#[test]
fn the_outermost_position_goes_first(rt: HostRuntime) -> Result<(), Fail> {
    expect(&rt, &ROOT)
}

/// Whether a tree is the one of these items.
fn is_tree(alloc: Global, given: &Term, items: &[Item]) -> Result<bool, Fail> {
    let want = tree(alloc, items)?;
    Ok(given.is_same(&want))
}

/// Whether trees are those of these lists of items, in this order.
fn are_trees(alloc: Global, trees: &[Term], wants: &[&[Item]]) -> Result<bool, Fail> {
    let mut same = trees.len() == wants.len();
    for (given, want) in trees.iter().zip(wants) {
        same = same && is_tree(alloc, given, want)?;
    }
    Ok(same)
}

/// Rules, a term, and its single steps in order.
type Stepping = (
    &'static [Written],
    &'static [Item],
    &'static [&'static [Item]],
);

/// One position, a normal form, and both rules of the root before its argument.
static STEPS: [Stepping; 3] = [
    (&SUMS, &ONE_AND_ONE, &[&[Z, S, Z, PLUS, S]]),
    (&SUMS, &TWO, &[]),
    (
        &DOUBLING,
        &[Z, S, Z, PLUS, D],
        &[&[Z, S, Z, PLUS, Z, S, Z, PLUS, P], &[A], &[Z, S, D]],
    ),
];

fn steps_of(alloc: Global, rules: &[Written], term: &[Item]) -> Result<Vec<Term>, Fail> {
    let rules = rules_of(alloc, rules)?;
    let term = tree(alloc, term)?;
    Ok(steps(alloc, &rules, &term)?)
}

fn are_steps(alloc: Global, row: &Stepping) -> Result<bool, Fail> {
    let (rules, term, wants) = *row;
    let list = steps_of(alloc, rules, term)?;
    are_trees(alloc, &list, wants)
}

/// The first of the rows, by its number, that has other steps.
fn first_steps(alloc: Global) -> Result<Option<usize>, Fail> {
    for (number, row) in STEPS.iter().enumerate() {
        if !are_steps(alloc, row)? {
            return Ok(Some(number));
        }
    }
    Ok(None)
}

#[test]
fn all_single_steps_stand_in_order(rt: HostRuntime) -> Result<(), Fail> {
    assert_eq!(rt; first_steps(rt.alloc())?, None);
    Ok(())
}
