//! Matching left sides against rows of a store.

ghost use Rattle.std.specs.Prelude.{◌≡◌, ◌≤◌, true};
ghost use Rattle.row_match.specs.Binding.{HasRoom};

use crate::building::build_terms;
use crate::writing::{A, B, EQ, F, PLUS, WIDEST, Written, X, Y, plan_of};
use plain_store::PlainStore;
use row_match::{Binds, matches};
use rule_match::Plan;
use std::alloc::Global;
use std::test::Fail;
use term_model::{Item, Row};
use terms_api::Terms;

/// Three rules: over one variable, over two of which one is repeated, and over none.
static RULES: [Written; 3] = [
    (&[X, F], &[A], 1, &[]),
    (&[X, Y, X, EQ, PLUS], &[A], 2, &[]),
    (&[A, B, EQ], &[A], 0, &[]),
];

/// Whether the left side of a rule matches the tree on top of the stack.
pub(crate) fn matches_top<T: Terms>(
    plan: &Plan,
    rule: u32,
    binds: &mut Binds,
    terms: &mut T,
) -> bool
    requires inside { (T.store terms.old).inside ≡ true }
    requires room { HasRoom binds.old.room plan.now.rules }
    ensures unchanged { T.store terms.new ≡ T.store terms.old }
{
    let places = terms.depth();
    let count = plan.rules().len();
    if places == 0 || rule as usize >= count {
        return false;
    }
    let row = terms.at(places - 1);
    matches(plan, rule, terms, row, binds)
}

/// Whether these are the rows of the lowest places but the last, in order.
fn are_all_below_top<T: Terms>(rows: &[Row], terms: &mut T) -> bool
    requires inside { (T.store terms.old).inside ≡ true }
{
    let places = terms.depth() as usize;
    if places != rows.len() + 1 {
        return false;
    }
    for (place, row) in rows.iter().enumerate() {
        if terms.at(place as u32) != *row {
            return false;
        }
    }
    true
}

/// Whether a rule matches the tree on top, and then binds its variables to the rows of the places
/// below it, in order, else to none; no answer where it binds otherwise.
fn is_bound<T: Terms>(plan: &Plan, rule: u32, binds: &mut Binds, terms: &mut T) -> Option<bool>
    requires inside { (T.store terms.old).inside ≡ true }
    requires room { HasRoom binds.old.room plan.now.rules }
{
    let is_matched = matches_top(plan, rule, binds, terms);
    let is_right = if is_matched {
        are_all_below_top(binds.rows(), terms)
    } else {
        binds.rows().is_empty()
    };
    if is_right { Some(is_matched) } else { None }
}

/// The same of the last of some terms, after the terms before it; no answer where they aren't
/// built.
fn is_bound_over<T: Terms>(
    plan: &Plan,
    rule: u32,
    items: &[Item],
    binds: &mut Binds,
    terms: &mut T,
) -> Option<bool>
    requires inside { (T.store terms.old).inside ≡ true }
    requires wide { 2 ≤ (T.store terms.old).widest }
    requires room { HasRoom binds.old.room plan.now.rules }
{
    if build_terms(items, terms) {
        is_bound(plan, rule, binds, terms)
    } else {
        None
    }
}

fn is_matched(alloc: Global, plan: &Plan, rule: u32, items: &[Item]) -> Result<Option<bool>, Fail> {
    let mut binds = Binds::of(alloc, plan)?;
    let mut store = PlainStore::new(alloc, 99, 9, WIDEST)?;
    store.enter();
    Ok(is_bound_over(plan, rule, items, &mut binds, &mut store))
}

/// A rule, terms, and whether it matches the last of them.
static ROWS: [(u32, &[Item], bool); 10] = [
    (0, &[A, B, EQ, A, B, EQ, F], true),
    (0, &[A, A, B, EQ], false),
    (1, &[A, F, B, A, F, B, A, F, EQ, PLUS], true),
    (1, &[A, F, B, A, F, B, A, EQ, PLUS], false),
    (1, &[A, A, A, A, A, EQ, PLUS], true),
    (1, &[A, A, A, A, A, PLUS, PLUS], false),
    (1, &[A, A, A, A, A, EQ, EQ], false),
    (2, &[A, B, EQ], true),
    (2, &[A, A, EQ], false),
    (2, &[A], false),
];

/// The first of the rows, by its number, that has another answer.
fn first_row(alloc: Global, plan: &Plan) -> Result<Option<usize>, Fail> {
    for (number, (rule, items, want)) in ROWS.iter().enumerate() {
        if is_matched(alloc, plan, *rule, items)? != Some(*want) {
            return Ok(Some(number));
        }
    }
    Ok(None)
}

fn first_other(alloc: Global) -> Result<Option<usize>, Fail> {
    let plan = plan_of(alloc, &RULES)?;
    first_row(alloc, &plan)
}

#[test]
fn variables_are_bound_in_order_and_repeated_ones_once(rt: HostRuntime) -> Result<(), Fail> {
    assert_eq!(rt; first_other(rt.alloc())?, None);
    Ok(())
}
