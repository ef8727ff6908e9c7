//! Worked rows: values, fuel, room, rows and conditions. What is to be built was worked out by
//! hand.

use crate::adding::{BUILDS, ONE_AND_ONE, SUMS, TWO};
use crate::sight::{OUT_OF_FUEL, Order, STORE_FULL, TOO_DEEP, Work, expect};
use crate::writing::{A, B, C, E, EQ, F, G, PLUS, S, Written, X, Z, flat, rules_of};
use innermost::Normal;
use plain_rewriting::need;
use std::alloc::Global;
use std::test::Fail;
use term_model::Item;

/// The sum of one and one.
static ONE_AND_ONES: Work = Work {
    rules: &SUMS,
    term: &ONE_AND_ONE,
    order: Order::Innermost,
    builds: &BUILDS,
    value: &TWO,
    runs: &[
        (1000, 99, 99, Ok(Normal::Value { left: 998 }), 7),
        (2, 99, 99, Ok(Normal::Value { left: 0 }), 7),
        (1, 99, 99, OUT_OF_FUEL, 6),
        (0, 99, 99, OUT_OF_FUEL, 5),
        (1000, 6, 99, Ok(Normal::Value { left: 998 }), 7),
        (1000, 5, 99, TOO_DEEP, 5),
        (1000, 0, 99, TOO_DEEP, 0),
        (1000, 99, 3, Ok(Normal::Value { left: 998 }), 7),
        (1000, 99, 2, STORE_FULL, 4),
        (1000, 99, 1, STORE_FULL, 1),
        (1000, 99, 0, STORE_FULL, 0),
    ],
};

#[test]
fn one_and_one_is_two(rt: HostRuntime) -> Result<(), Fail> {
    expect(&rt, &ONE_AND_ONES)
}

/// A term of two nodes.
static WITHOUT_RULES: Work = Work {
    rules: &[],
    term: &[A, F],
    order: Order::Innermost,
    builds: &[&[A], &[A, F]],
    value: &[A, F],
    runs: &[
        (0, 2, 2, Ok(Normal::Value { left: 0 }), 2),
        (0, 1, 2, TOO_DEEP, 0),
        (0, 0, 2, TOO_DEEP, 0),
    ],
};

#[test]
fn a_term_without_rules_needs_room_for_its_nodes(rt: HostRuntime) -> Result<(), Fail> {
    expect(&rt, &WITHOUT_RULES)
}

const EQUAL: [Written; 1] = [(&[X, X, EQ], &[A], 1, &[])];

/// Two equal arguments.
static SAME: Work = Work {
    rules: &EQUAL,
    term: &[Z, S, Z, S, EQ],
    order: Order::Innermost,
    builds: &[&[Z], &[Z, S], &[Z], &[Z, S], &[Z, S, Z, S, EQ], &[A]],
    value: &[A],
    runs: &[(1000, 99, 99, Ok(Normal::Value { left: 999 }), 6)],
};

/// Two different arguments.
static OTHER: Work = Work {
    rules: &EQUAL,
    term: &[Z, S, Z, EQ],
    order: Order::Innermost,
    builds: &[&[Z], &[Z, S], &[Z], &[Z, S, Z, EQ]],
    value: &[Z, S, Z, EQ],
    runs: &[(1000, 99, 99, Ok(Normal::Value { left: 1000 }), 4)],
};

#[test]
fn a_repeated_variable_needs_equal_trees(rt: HostRuntime) -> Result<(), Fail> {
    expect(&rt, &SAME)?;
    expect(&rt, &OTHER)
}

/// A rule with two conditions, between one that its first condition uses and one that is used where
/// a condition fails.
const GUARDED: [Written; 3] = [
    (&[X, G], &[B], 1, &[]),
    (
        &[X, F],
        &[A],
        1,
        &[(&[X, G], &[B], true), (&[X], &[C], false)],
    ),
    (&[X, F], &[E], 1, &[]),
];

/// A condition that fails.
static FAILING: Work = Work {
    rules: &GUARDED,
    term: &[C, F],
    order: Order::Innermost,
    builds: &[&[C], &[C, F], &[C, G], &[B], &[B], &[C], &[E]],
    value: &[E],
    runs: &[
        (3, 99, 99, Ok(Normal::Value { left: 0 }), 7),
        (2, 99, 99, OUT_OF_FUEL, 6),
        (1, 99, 99, OUT_OF_FUEL, 3),
    ],
};

/// Conditions that hold.
static HOLDING: Work = Work {
    rules: &GUARDED,
    term: &[A, F],
    order: Order::Innermost,
    builds: &[&[A], &[A, F], &[A, G], &[B], &[B], &[C], &[A]],
    value: &[A],
    runs: &[
        (3, 99, 99, Ok(Normal::Value { left: 1 }), 7),
        (2, 99, 99, Ok(Normal::Value { left: 0 }), 7),
    ],
};

#[test]
fn conditions_are_tried_in_order(rt: HostRuntime) -> Result<(), Fail> {
    expect(&rt, &FAILING)?;
    expect(&rt, &HOLDING)
}

/// A condition that asks for the value of its own left side.
static OWN_RULE: Work = Work {
    rules: &[(&[X, F], &[A], 1, &[(&[X, F], &[B], true)])],
    term: &[C, F],
    order: Order::Innermost,
    builds: &[&[C], &[C, F], &[C, F], &[C, F], &[C, F]],
    value: &[A],
    runs: &[(3, 99, 99, OUT_OF_FUEL, 5)],
};

#[test]
fn a_condition_may_ask_for_its_own_rule(rt: HostRuntime) -> Result<(), Fail> {
    expect(&rt, &OWN_RULE)
}

/// Two rules that fit.
static TWO_FIT: Work = Work {
    rules: &[(&[X, F], &[A], 1, &[]), (&[B, F], &[C], 0, &[])],
    term: &[B, F],
    order: Order::Innermost,
    builds: &[&[B], &[B, F], &[A]],
    value: &[A],
    runs: &[(1000, 99, 99, Ok(Normal::Value { left: 999 }), 3)],
};

#[test]
fn the_first_rule_that_fits_is_used(rt: HostRuntime) -> Result<(), Fail> {
    expect(&rt, &TWO_FIT)
}

/// An argument without a value, under a rule that leaves it out.
static ENDLESS: Work = Work {
    rules: &[(&[X, F], &[A], 1, &[]), (&[B], &[B], 0, &[])],
    term: &[B, F],
    order: Order::Innermost,
    builds: &[&[B], &[B], &[B], &[B], &[B], &[B]],
    value: &[A],
    runs: &[(5, 99, 99, OUT_OF_FUEL, 6)],
};

#[test]
fn arguments_come_before_the_head(rt: HostRuntime) -> Result<(), Fail> {
    expect(&rt, &ENDLESS)
}

/// Rules, a term, its fuel and its room, and how many trees are needed at once.
type Needed = (&'static [Written], &'static [Item], u64, u32, usize);

static NEEDS: [Needed; 5] = [
    (&SUMS, &ONE_AND_ONE, 2, 6, 3),
    (&SUMS, &ONE_AND_ONE, 0, 6, 3),
    (&SUMS, &ONE_AND_ONE, 2, 3, 2),
    (&SUMS, &ONE_AND_ONE, 2, 0, 0),
    (
        &[(&[X, F], &[X, X, PLUS], 1, &[])],
        &[Z, F, F, F],
        1000,
        99,
        4,
    ),
];

fn is_needed(alloc: Global, row: &Needed) -> Result<bool, Fail> {
    let (rules, term, fuel, depth, want) = row;
    let rules = rules_of(alloc, rules)?;
    let term = flat(alloc, term)?;
    Ok(need(alloc, &rules, &term, *fuel, *depth)? == *want)
}

/// The first of the rows, by its number, that needs another count.
fn first_need(alloc: Global) -> Result<Option<usize>, Fail> {
    for (number, row) in NEEDS.iter().enumerate() {
        if !is_needed(alloc, row)? {
            return Ok(Some(number));
        }
    }
    Ok(None)
}

#[test]
fn needs_are_those_worked_out_by_hand(rt: HostRuntime) -> Result<(), Fail> {
    assert_eq!(rt; first_need(rt.alloc())?, None);
    Ok(())
}
