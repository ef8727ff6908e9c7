//! The rule that an automaton finds, by hand, and as each rule's own matching says.

mod by_chance;

ghost use Rattle.std.specs.Prelude.{◌≡◌, ◌<◌, ◌≤◌, IfSome, Some, length, true};
ghost use Rattle.term_model.specs.declared.Head.{Head};
ghost use Rattle.rule_match.specs.Groups.{head_at};
ghost use Rattle.row_match.specs.Binding.{HasRoom};
ghost use Rattle.rule_automaton.specs.Automata.{IsAutomaton};
ghost use Rattle.rule_automaton.specs.Running.{made};

use crate::building::build_terms;
use crate::matching::matches_top;
use crate::writing::{A, B, C, PLUS, S, WIDEST, Written, X, Y, Z, plan_of, planned, rule};
use plain_store::PlainStore;
use rewrite_model::Rule;
use row_match::Binds;
use rule_automaton::{Automaton, Places};
use rule_match::Plan;
use std::alloc::Global;
use std::test::Fail;
use term_model::{Item, Symbol};
use terms_api::Terms;

/// The rule after one that has its symbol, or itself.
fn from_or_after(plan: &Plan, rule: u32, after: bool) -> Option<u32>
    requires { rule < length plan.now.rules }
    ensures { (head : Head) → head_at plan.now.rules rule ≡ Some head
        → IfSome result (λ k. (k < length plan.now.rules)
        × (head_at plan.now.rules k ≡ Some head)) }
{
    if after { plan.next(rule) } else { Some(rule) }
}

/// The rule that an automaton finds for the tree on top of the stack, of all with its symbol or of
/// those after the first.
fn found_on_top<T: Terms>(
    plan: &Plan,
    automaton: &Automaton,
    after: bool,
    places: &mut Places,
    terms: &mut T,
) -> Option<u32>
    requires inside { (T.store terms.old).inside ≡ true }
    requires automaton { IsAutomaton plan.now.rules (made automaton.now) }
    requires places { (made automaton.now).places ≤ length places.old.rows.items }
{
    let depth = terms.depth();
    if depth == 0 {
        return None;
    }
    let row = terms.at(depth - 1);
    let head = terms.head(row);
    let Some(first) = plan.first(head) else {
        return None;
    };
    match from_or_after(plan, first, after) {
        Some(rule) => automaton.find_rule(plan, rule, row, terms, places),
        None => None,
    }
}

/// The same for the last of some terms, if they are built.
fn found_over<T: Terms>(
    plan: &Plan,
    automaton: &Automaton,
    items: &[Item],
    after: bool,
    places: &mut Places,
    terms: &mut T,
) -> Option<Option<u32>>
    requires inside { (T.store terms.old).inside ≡ true }
    requires wide { 2 ≤ (T.store terms.old).widest }
    requires automaton { IsAutomaton plan.now.rules (made automaton.now) }
    requires places { (made automaton.now).places ≤ length places.old.rows.items }
{
    if build_terms(items, terms) {
        Some(found_on_top(plan, automaton, after, places, terms))
    } else {
        None
    }
}

/// The rule that a plan's automaton finds for the last of some terms, in a new store.
fn found_anew(
    alloc: Global,
    plan: &Plan,
    automaton: &Automaton,
    items: &[Item],
    after: bool,
) -> Result<Option<Option<u32>>, Fail>
    requires { IsAutomaton plan.now.rules (made automaton.now) }
{
    let mut places = Places::of(alloc, automaton)?;
    let mut store = PlainStore::new(alloc, 99, 99, WIDEST)?;
    store.enter();
    Ok(found_over(plan, automaton, items, after, &mut places, &mut store))
}

/// The rule that a plan's automaton finds for the last of some terms.
fn found(
    alloc: Global,
    plan: &Plan,
    automaton: &Automaton,
    items: &[Item],
    after: bool,
) -> Result<Option<u32>, Fail>
    requires { IsAutomaton plan.now.rules (made automaton.now) }
{
    match found_anew(alloc, plan, automaton, items, after)? {
        Some(found) => Ok(found),
        None => Err(Fail::from("not built")),
    }
}

/// Whether a rule by itself matches the last of some terms, if they are built.
fn matches_over<T: Terms>(
    plan: &Plan,
    rule: u32,
    items: &[Item],
    binds: &mut Binds,
    terms: &mut T,
) -> Option<bool>
    requires inside { (T.store terms.old).inside ≡ true }
    requires wide { 2 ≤ (T.store terms.old).widest }
    requires room { HasRoom binds.old.room plan.now.rules }
{
    if build_terms(items, terms) {
        Some(matches_top(plan, rule, binds, terms))
    } else {
        None
    }
}

/// The same in a new store.
fn matches_anew(
    alloc: Global,
    plan: &Plan,
    rule: u32,
    items: &[Item],
) -> Result<Option<bool>, Fail> {
    let mut binds = Binds::of(alloc, plan)?;
    let mut store = PlainStore::new(alloc, 99, 99, WIDEST)?;
    store.enter();
    Ok(matches_over(plan, rule, items, &mut binds, &mut store))
}

/// Whether a rule by itself matches the last of some terms.
fn matches_last(alloc: Global, plan: &Plan, rule: u32, items: &[Item]) -> Result<bool, Fail> {
    match matches_anew(alloc, plan, rule, items)? {
        Some(is_matched) => Ok(is_matched),
        None => Err(Fail::from("not built")),
    }
}

/// Whether a rule has the symbol of the last of some terms.
fn has_symbol(rule: &Rule, items: &[Item]) -> bool {
    match items.last() {
        Some(item) => rule.left().root() == item.head(),
        None => false,
    }
}

/// The first rule that matches the last of some terms, each tried by itself, of all or of those
/// after the first with its symbol.
fn first_of(alloc: Global, plan: &Plan, items: &[Item], after: bool) -> Result<Option<u32>, Fail> {
    let mut passed = !after;
    for rule in 0..plan.rules().len() {
        if passed && matches_last(alloc, plan, rule as u32, items)? {
            return Ok(Some(rule as u32));
        }
        passed = passed || has_symbol(&plan.rules()[rule], items);
    }
    Ok(None)
}

/// Rules whose left sides overlap: variables beside symbols, and a repeated variable.
static OVERLAPPING: [Written; 6] = [
    (&[A, X, PLUS, Y, PLUS], &[A], 2, &[]),
    (&[X, A, PLUS], &[A], 1, &[]),
    (&[X, X, PLUS, B, PLUS], &[A], 1, &[]),
    (&[X, B, PLUS], &[A], 1, &[]),
    (&[X, X, PLUS], &[A], 1, &[]),
    (&[X, S, Z, PLUS], &[A], 1, &[]),
];

/// Terms, and the rule that is found for the last of them after the first rule with its symbol.
static AFTER: [(&[Item], Option<u32>); 6] = [
    (&[A, B, PLUS, A, PLUS], Some(1)),
    (&[A, A, PLUS, B, PLUS], Some(2)),
    (&[A, B, PLUS, B, PLUS], Some(3)),
    (&[B, A, PLUS, A, PLUS], Some(1)),
    (&[C, C, PLUS], Some(4)),
    (&[A, B, PLUS, C, PLUS], None),
];

/// Terms, and the first rule that is found for the last of them.
static FIRST: [(&[Item], Option<u32>); 11] = [
    (&[A, B, PLUS, A, PLUS], Some(0)),
    (&[B, A, PLUS, A, PLUS], Some(1)),
    (&[A, A, PLUS, B, PLUS], Some(0)),
    (&[B, B, PLUS, B, PLUS], Some(2)),
    (&[B, A, PLUS, B, PLUS], Some(3)),
    (&[B, A, PLUS], Some(1)),
    (&[B, B, PLUS], Some(3)),
    (&[C, C, PLUS], Some(4)),
    (&[C, S, C, S, PLUS], Some(4)),
    (&[C, S, Z, PLUS], Some(5)),
    (&[C, S, C, PLUS], None),
];

/// The first of the rows, by its number, for which another rule is found.
fn first_row(
    alloc: Global,
    plan: &Plan,
    automaton: &Automaton,
    rows: &[(&[Item], Option<u32>)],
    after: bool,
) -> Result<Option<usize>, Fail>
    requires { IsAutomaton plan.now.rules (made automaton.now) }
{
    for (number, (items, want)) in rows.iter().enumerate() {
        if found(alloc, plan, automaton, items, after)? != *want {
            return Ok(Some(number));
        }
    }
    Ok(None)
}

/// The first of the rows, by its number, for which another of the overlapping rules is found.
fn first_other(
    alloc: Global,
    rows: &[(&[Item], Option<u32>)],
    after: bool,
) -> Result<Option<usize>, Fail> {
    let plan = plan_of(alloc, &OVERLAPPING)?;
    let automaton = Automaton::of(alloc, &plan)?;
    first_row(alloc, &plan, &automaton, rows, after)
}

#[test]
fn search_goes_on_after_the_first_rule(rt: HostRuntime) -> Result<(), Fail> {
    assert_eq!(rt; first_other(rt.alloc(), &AFTER, true)?, None);
    Ok(())
}

#[test]
fn first_rule_in_written_order_is_found(rt: HostRuntime) -> Result<(), Fail> {
    assert_eq!(rt; first_other(rt.alloc(), &FIRST, false)?, None);
    Ok(())
}

/// A rule of one symbol for each of many constants, and a last one for all.
fn many(alloc: Global, constants: u32) -> Result<Vec<Rule>, Fail>
    requires { constants ≤ 9999 }
{
    let mut rules = Vec::new(alloc);
    for number in 0..constants {
        let constant = Item::App(Symbol(20 + number), 0);
        rules.push(rule(alloc, &[constant, X, PLUS], &[A], 1)?)?;
    }
    rules.push(rule(alloc, &[X, Y, PLUS], &[A], 2)?)?;
    Ok(rules)
}

/// Constants, by their symbols, and the rules that are found for them.
static CONSTANTS: [(u32, u32); 4] = [(20, 0), (520, 500), (1018, 998), (1019, 999)];

/// The first constant for which another rule is found.
fn first_constant(alloc: Global, plan: &Plan, automaton: &Automaton) -> Result<Option<u32>, Fail>
    requires { IsAutomaton plan.now.rules (made automaton.now) }
{
    for (symbol, want) in CONSTANTS {
        let items = [Item::App(Symbol(symbol), 0), A, PLUS];
        if found(alloc, plan, automaton, &items, false)? != Some(want) {
            return Ok(Some(symbol));
        }
    }
    Ok(None)
}

fn first_of_many(alloc: Global) -> Result<Option<u32>, Fail> {
    let plan = planned(alloc, many(alloc, 999)?)?;
    let automaton = Automaton::of(alloc, &plan)?;
    first_constant(alloc, &plan, &automaton)
}

#[test]
fn many_rules_of_one_symbol_are_told_apart(rt: HostRuntime) -> Result<(), Fail> {
    assert_eq!(rt; first_of_many(rt.alloc())?, None);
    Ok(())
}
