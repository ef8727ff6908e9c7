//! Which rules make a plan, and in which order they are tried.

use crate::writing::{Written, rule, rules_of};
use rewrite_model::Rule;
use row_match::Binds;
use rule_fitness::may_be_planned;
use rule_match::Plan;
use std::alloc::Global;
use std::test::Fail;
use term_model::{Head, Item, Symbol};

const A: Item = Item::App(Symbol(0), 0);

const F: Item = Item::App(Symbol(1), 1);

const G: Item = Item::App(Symbol(2), 1);

/// The plan of rules that make one.
fn planned(alloc: Global, rules: Vec<Rule>) -> Result<Plan, Fail> {
    if !may_be_planned(&rules, 1) {
        return Err(Fail::from("no plan"));
    }
    let plan = Plan::of(alloc, rules, 1)?;
    Ok(plan)
}

/// Two rules of one symbol, with one of another between them.
static THREE: [Written; 3] = [
    (&[Item::Var(0), F], &[A], 1, &[]),
    (&[A, G], &[A], 0, &[]),
    (&[A, F], &[A], 0, &[]),
];

/// The first rules of some heads.
fn firsts(plan: &Plan) -> [Option<u32>; 5] {
    [
        plan.first(Head::App(Symbol(1))),
        plan.first(Head::App(Symbol(2))),
        plan.first(Head::App(Symbol(0))),
        plan.first(Head::App(Symbol(9))),
        plan.first(Head::Nil),
    ]
}

/// The rules after the first and after the last, where there are three.
fn nexts(plan: &Plan) -> Option<[Option<u32>; 2]> {
    if plan.rules().len() != 3 {
        return None;
    }
    Some([plan.next(0), plan.next(2)])
}

/// The widest symbol, whether no rows are bound at first, and the rules that are found.
type Seen = (u32, bool, [Option<u32>; 5], Option<[Option<u32>; 2]>);

fn seen(alloc: Global, plan: &Plan) -> Result<Seen, Fail> {
    let is_empty = Binds::of(alloc, plan)?.rows().is_empty();
    Ok((plan.widest(), is_empty, firsts(plan), nexts(plan)))
}

fn seen_of_three(alloc: Global) -> Result<Seen, Fail> {
    let plan = planned(alloc, rules_of(alloc, &THREE)?)?;
    seen(alloc, &plan)
}

#[test]
fn rules_of_one_head_are_found_in_written_order(rt: HostRuntime) -> Result<(), Fail> {
    let firsts = [Some(0), Some(1), None, None, None];
    let nexts = Some([Some(2), None]);
    assert_eq!(rt; seen_of_three(rt.alloc())?, (1, true, firsts, nexts));
    Ok(())
}

/// Single rules that make no plan.
static OTHERS: [[Written; 1]; 6] = [
    [(&[Item::Var(0)], &[A], 1, &[])],
    [(&[Item::Var(1), F], &[A], 1, &[])],
    [(&[Item::Var(0), F], &[Item::Var(1)], 1, &[])],
    [(&[Item::Var(0), F], &[A], 2, &[])],
    [(&[Item::Int(7), F], &[A], 0, &[])],
    [(&[A, A, Item::App(Symbol(3), 2)], &[A], 0, &[])],
];

/// The first of them, by its number, that may be planned.
fn first_planned(alloc: Global) -> Result<Option<usize>, Fail> {
    for (number, row) in OTHERS.iter().enumerate() {
        if may_be_planned(&rules_of(alloc, row)?, 1) {
            return Ok(Some(number));
        }
    }
    Ok(None)
}

#[test]
fn other_rules_make_no_plan(rt: HostRuntime) -> Result<(), Fail> {
    assert_eq!(rt; first_planned(rt.alloc())?, None);
    Ok(())
}

/// A rule whose left side is nested a million times.
fn deep(alloc: Global) -> Result<Vec<Rule>, Fail> {
    let mut left = vec![in alloc; F; 1_000_001]?;
    left[0] = A;
    let mut rules = Vec::new(alloc);
    rules.push(rule(alloc, &left, &[A], 0)?)?;
    Ok(rules)
}

fn first_of_deep(alloc: Global) -> Result<Option<u32>, Fail> {
    let plan = planned(alloc, deep(alloc)?)?;
    Ok(plan.first(Head::App(Symbol(1))))
}

#[test]
fn left_side_nested_a_million_times_is_planned(rt: HostRuntime) -> Result<(), Fail> {
    assert_eq!(rt; first_of_deep(rt.alloc())?, Some(0));
    Ok(())
}
