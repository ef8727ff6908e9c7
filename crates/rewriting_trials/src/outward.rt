//! Worked rows of outermost rewriting. What is to be built was worked out by hand.

use crate::adding::{ONE_AND_ONE, SUMS, TWO};
use crate::sight::{OUT_OF_FUEL, Order, STORE_FULL, TOO_DEEP, Work, expect};
use crate::writing::{A, B, C, F, G, PLUS, S, Written, X, Z};
use innermost::Normal;
use std::test::Fail;
use term_model::Item;

/// A rule that leaves its argument out, and a constant without a value.
const ENDLESS: [Written; 2] = [(&[X, F], &[A], 1, &[]), (&[C], &[C], 0, &[])];

/// Innermost, which begins inside.
static INSIDE: Work = Work {
    rules: &ENDLESS,
    term: &[C, F],
    order: Order::Innermost,
    builds: &[&[C], &[C], &[C], &[C], &[C], &[C]],
    value: &[A],
    runs: &[(5, 2, 9, OUT_OF_FUEL, 6)],
};

/// Outermost, which begins at the root.
static OUTSIDE: Work = Work {
    rules: &ENDLESS,
    term: &[C, F],
    order: Order::Outermost,
    builds: &[&[C], &[C, F], &[A]],
    value: &[A],
    runs: &[
        (5, 2, 9, Ok(Normal::Value { left: 4 }), 3),
        (5, 1, 9, TOO_DEEP, 0),
    ],
};

#[test]
fn outermost_ends_where_innermost_has_no_fuel(rt: HostRuntime) -> Result<(), Fail> {
    expect(&rt, &INSIDE)?;
    expect(&rt, &OUTSIDE)
}

/// The sum of one and one, and what it builds, in order.
static ONE_AND_ONES: Work = Work {
    rules: &SUMS,
    term: &ONE_AND_ONE,
    order: Order::Outermost,
    builds: &[
        &[Z],
        &[Z, S],
        &[Z],
        &[Z, S],
        &[Z, S, Z, S, PLUS],
        &[Z, S, Z, PLUS],
        &[Z, S, Z, PLUS, S],
        &[Z, S, S],
    ],
    value: &TWO,
    runs: &[
        (9, 99, 99, Ok(Normal::Value { left: 7 }), 8),
        (2, 99, 99, Ok(Normal::Value { left: 0 }), 8),
        (1, 99, 99, OUT_OF_FUEL, 7),
        (0, 99, 99, OUT_OF_FUEL, 5),
        (2, 5, 99, Ok(Normal::Value { left: 0 }), 8),
        (2, 4, 99, TOO_DEEP, 5),
        (0, 4, 99, OUT_OF_FUEL, 5),
        (2, 3, 99, TOO_DEEP, 2),
        (2, 0, 99, TOO_DEEP, 0),
        (2, 99, 2, STORE_FULL, 4),
        (2, 99, 1, STORE_FULL, 1),
        (2, 99, 0, STORE_FULL, 0),
    ],
};

#[test]
fn one_and_one_is_two_outermost(rt: HostRuntime) -> Result<(), Fail> {
    expect(&rt, &ONE_AND_ONES)
}

/// A rule for the root, and one for its argument.
static ROOT: Work = Work {
    rules: &[(&[X, G], &[B], 1, &[]), (&[X, G, F], &[A], 1, &[])],
    term: &[C, G, F],
    order: Order::Outermost,
    builds: &[&[C], &[C, G], &[C, G, F], &[A]],
    value: &[A],
    runs: &[(1, 9, 9, Ok(Normal::Value { left: 0 }), 4)],
};

#[test]
fn the_root_is_rewritten_before_its_arguments(rt: HostRuntime) -> Result<(), Fail> {
    expect(&rt, &ROOT)
}

/// Two arguments that are rewritten.
static ARGUMENTS: Work = Work {
    rules: &[(&[X, F], &[A], 1, &[])],
    term: &[C, F, C, F, PLUS],
    order: Order::Outermost,
    builds: &[
        &[C],
        &[C, F],
        &[C],
        &[C, F],
        &[C, F, C, F, PLUS],
        &[A],
        &[A, C, F, PLUS],
        &[A],
        &[A, A, PLUS],
    ],
    value: &[A, A, PLUS],
    runs: &[
        (2, 9, 9, Ok(Normal::Value { left: 0 }), 9),
        (1, 9, 9, OUT_OF_FUEL, 7),
        (0, 9, 9, OUT_OF_FUEL, 5),
    ],
};

#[test]
fn the_first_argument_is_rewritten_first(rt: HostRuntime) -> Result<(), Fail> {
    expect(&rt, &ARGUMENTS)
}

/// A tree that a rule puts at two places.
static TWICE: Work = Work {
    rules: &[(&[X, G], &[X, X, PLUS], 1, &[]), (&[X, F], &[X], 1, &[])],
    term: &[A, F, G],
    order: Order::Outermost,
    builds: &[
        &[A],
        &[A, F],
        &[A, F, G],
        &[A, F, A, F, PLUS],
        &[A, A, F, PLUS],
        &[A, A, PLUS],
    ],
    value: &[A, A, PLUS],
    runs: &[
        (3, 9, 9, Ok(Normal::Value { left: 0 }), 6),
        (2, 9, 9, OUT_OF_FUEL, 5),
        (1, 9, 9, OUT_OF_FUEL, 4),
    ],
};

#[test]
fn a_tree_that_stands_twice_is_rewritten_at_each_place(rt: HostRuntime) -> Result<(), Fail> {
    expect(&rt, &TWICE)
}
