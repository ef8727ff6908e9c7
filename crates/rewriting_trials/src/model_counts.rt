//! How many trees the plain program builds and keeps, and how large its values are.

use crate::models::{A, C, D, F, G, ONE_AND_ONE, P, PLUS, S, SUMS, X, Y, Z};
use crate::writing::{Written, flat, rules_of};
use plain_rewriting::{End, Term, distinct, evaluation, need};
use rewrite_model::Rule;
use std::alloc::Global;
use std::test::Fail;
use term_model::{Flat, Item, Symbol};

const MULT: Item = Item::App(Symbol(3), 2);

const PRODUCTS: [Written; 4] = [
    (&[X, Z, PLUS], &[X], 1, &[]),
    (&[X, Y, S, PLUS], &[X, Y, PLUS, S], 2, &[]),
    (&[X, Z, MULT], &[Z], 1, &[]),
    (&[X, Y, S, MULT], &[X, Y, MULT, X, PLUS], 2, &[]),
];

/// How many trees the sum of one and one builds, and how many different ones.
fn built(alloc: Global) -> Result<(usize, usize), Fail> {
    let rules = rules_of(alloc, &SUMS)?;
    let term = flat(alloc, &ONE_AND_ONE)?;
    let run = evaluation(alloc, &rules, &term, 99, 99)?;
    Ok((run.built.len(), distinct(&run.built)))
}

#[test]
fn one_and_one_builds_seven_trees(rt: HostRuntime) -> Result<(), Fail> {
    assert_eq!(rt; built(rt.alloc())?, (7, 5));
    Ok(())
}

/// How many trees are kept at once for a term with so much fuel and room.
fn needed(
    alloc: Global,
    rules: &[Written],
    term: &[Item],
    fuel: u64,
    room: u32,
) -> Result<usize, Fail> {
    let rules = rules_of(alloc, rules)?;
    let term = flat(alloc, term)?;
    Ok(need(alloc, &rules, &term, fuel, room)?)
}

/// A rule that leaves its argument out.
static LEAVING: [Written; 1] = [(&[X, F], &[A], 1, &[])];

/// The needs of one and one, and of a term whose first argument is kept.
fn needs(alloc: Global) -> Result<[usize; 2], Fail> {
    let sum = needed(alloc, &SUMS, &ONE_AND_ONE, 99, 99)?;
    let first_is_kept = needed(alloc, &LEAVING, &[Z, S, C, G, F, P], 1, 9)?;
    Ok([sum, first_is_kept])
}

#[test]
fn need_counts_the_trees_that_are_kept(rt: HostRuntime) -> Result<(), Fail> {
    assert_eq!(rt; needs(rt.alloc())?, [3, 5]);
    Ok(())
}

/// The nodes of a value, how many different subtrees it has, and the fuel that is left.
type Measured = (u64, usize, u64);

fn different_subtrees(alloc: Global, value: &Term) -> Result<usize, Fail> {
    let mut list = Vec::new(alloc);
    value.subtrees(alloc, &mut list)?;
    Ok(distinct(&list))
}

/// What is measured of the end of a run; None where there is no value.
fn measured(alloc: Global, end: &End) -> Result<Option<Measured>, Fail> {
    match end {
        End::Value(value, left) => {
            let different = different_subtrees(alloc, value)?;
            Ok(Some((value.nodes(), different, *left)))
        }
        _ => Ok(None),
    }
}

/// What is measured of a term's value; None where there is no value.
fn measure(
    alloc: Global,
    rules: &[Rule],
    term: &Flat,
    fuel: u64,
) -> Result<Option<Measured>, Fail> {
    let run = evaluation(alloc, rules, term, fuel, 1000)?;
    measured(alloc, &run.end)
}

/// A product of two numbers.
fn product(alloc: Global, a: u32, b: u32) -> Result<Flat, Fail> {
    let mut items = Vec::new(alloc);
    items.push(Z)?;
    for _ in 0..a {
        items.push(S)?;
    }
    items.push(Z)?;
    for _ in 0..b {
        items.push(S)?;
    }
    items.push(MULT)?;
    flat(alloc, &items)
}

/// Two numbers; the fuel of their product, its nodes, and as many different subtrees.
type Factors = (u32, u32, u64, u64, usize);

static FACTORS: [Factors; 3] = [(3, 1, 6, 4, 4), (10, 6, 73, 61, 61), (6, 11, 89, 67, 67)];

/// Whether a product has these nodes with just so much fuel, and no value with one less.
fn is_spent(alloc: Global, rules: &[Rule], row: &Factors) -> Result<bool, Fail> {
    let (a, b, spent, nodes, different) = *row;
    let term = product(alloc, a, b)?;
    let whole = measure(alloc, rules, &term, spent)?;
    let less = measure(alloc, rules, &term, spent.saturating_sub(1))?;
    Ok(whole == Some((nodes, different, 0)) && less.is_none())
}

/// The first product, by its number, that is otherwise.
fn first_of(alloc: Global, rules: &[Rule]) -> Result<Option<usize>, Fail> {
    for (number, row) in FACTORS.iter().enumerate() {
        if !is_spent(alloc, rules, row)? {
            return Ok(Some(number));
        }
    }
    Ok(None)
}

fn first_product(alloc: Global) -> Result<Option<usize>, Fail> {
    let rules = rules_of(alloc, &PRODUCTS)?;
    first_of(alloc, &rules)
}

#[test]
fn products_use_as_much_fuel_as_they_say(rt: HostRuntime) -> Result<(), Fail> {
    assert_eq!(rt; first_product(rt.alloc())?, None);
    Ok(())
}

fn doubled(alloc: Global) -> Result<Option<Measured>, Fail> {
    let rules = rules_of(alloc, &[(&[X, D], &[X, X, P], 1, &[])])?;
    let term = flat(alloc, &[Z, D, D, D])?;
    measure(alloc, &rules, &term, 3)
}

#[test]
fn doubled_terms_have_few_subtrees(rt: HostRuntime) -> Result<(), Fail> {
    assert_eq!(rt; doubled(rt.alloc())?, Some((15, 4, 0)));
    Ok(())
}
