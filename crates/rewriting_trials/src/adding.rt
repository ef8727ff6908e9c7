//! The rules of sums, and the sum of one and one.

ghost use Rattle.std.specs.Prelude.{◌≡◌, IfOk};

use crate::writing::{PLUS, S, Written, X, Y, Z, plan_of};
use rule_match::Plan;
use std::alloc::Global;
use std::test::Fail;
use term_model::Item;

pub(crate) const ONE_AND_ONE: [Item; 5] = [Z, S, Z, S, PLUS];

pub(crate) const TWO: [Item; 3] = [Z, S, S];

/// What the sum of one and one builds, in order.
pub(crate) const BUILDS: [&[Item]; 7] = [
    &[Z],
    &[Z, S],
    &[Z],
    &[Z, S],
    &[Z, S, Z, S, PLUS],
    &[Z, S, Z, PLUS],
    &[Z, S, S],
];

/// The rules of sums.
pub(crate) const SUMS: [Written; 2] = [
    (&[X, Z, PLUS], &[X], 1, &[]),
    (&[X, Y, S, PLUS], &[X, Y, PLUS, S], 2, &[]),
];

pub(crate) fn sums(alloc: Global) -> Result<Plan, Fail>
    ensures { IfOk result (λ plan. plan.widest ≡ 2) }
{
    plan_of(alloc, &SUMS)
}
