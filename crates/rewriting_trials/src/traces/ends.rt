//! Events of normalizations that have just enough room, or too little room or too few rows.

use super::{Traced, expect};
use crate::writing::{A, B, F, G, PLUS, S, Written, X, Y};
use innermost::{Event, Normal, TraceFault};
use std::test::Fail;
use term_model::Item;

const LEAVING: [Written; 2] = [
    (&[X, G], &[X, F, S], 1, &[]),
    (&[X, Y, PLUS, F], &[X], 2, &[]),
];

/// A rule that has room, and one that has none.
static WITHOUT_ROOM: [Traced; 2] = [
    (
        &LEAVING,
        &[A, B, PLUS, G],
        (1000, 5, 99),
        Ok(Normal::Value { left: 998 }),
        &[Event::Rule(0), Event::Down(1), Event::Rule(1)],
    ),
    (
        &LEAVING,
        &[A, B, PLUS, G],
        (1000, 4, 99),
        Ok(Normal::TooDeep),
        &[Event::Rule(0)],
    ),
];

#[test]
fn a_rule_without_room_is_not_told(rt: HostRuntime) -> Result<(), Fail> {
    expect(&rt, &WITHOUT_ROOM, &[])
}

const INTO: [Written; 1] = [(&[X, F], &[X, G], 1, &[])];

/// By f(X) -> g(X), f(b): in room 3 the argument of g(X) has room 1. In room 2 it has none, behind
/// the rule. In room 1 b has none, before it.
static RIGHT_SIDES_WITHOUT_ROOM: [Traced; 3] = [
    (
        &INTO,
        &[B, F],
        (1000, 3, 99),
        Ok(Normal::Value { left: 999 }),
        &[Event::Rule(0)],
    ),
    (
        &INTO,
        &[B, F],
        (1000, 2, 99),
        Ok(Normal::TooDeep),
        &[Event::Rule(0)],
    ),
    (&INTO, &[B, F], (1000, 1, 99), Ok(Normal::TooDeep), &[]),
];

#[test]
fn a_rule_is_told_whose_right_side_has_no_room(rt: HostRuntime) -> Result<(), Fail> {
    expect(&rt, &RIGHT_SIDES_WITHOUT_ROOM, &[])
}

/// A build that is refused.
static REFUSED: [Traced; 1] = [(
    &[(&[X, F], &[X, S, X, G, PLUS], 1, &[])],
    &[A, F],
    (1000, 99, 2),
    Err(TraceFault::StoreFull),
    &[Event::Rule(0)],
)];

#[test]
fn what_was_replaced_is_told_where_a_build_is_refused(rt: HostRuntime) -> Result<(), Fail> {
    expect(&rt, &REFUSED, &[])
}
