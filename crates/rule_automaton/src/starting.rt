//! The states at which a search begins, one for each rule.

ghost use Rattle.std.specs.Prelude.{◌≡◌, ◌-◌, ◌<◌, length, map, unwrap_or, IfOk, OnOk, IfSome};
ghost use Rattle.rule_match.specs.Groups.{head_at};
ghost use Rattle.rule_automaton.specs.Shapes.{numbers};
ghost use Rattle.rule_automaton.specs.Starting.{HavePassed, AreStarts, AddsGroup, in_turn_from};

use crate::states::{Op, State};
use faults::Memory;
use rule_match::Plan;
use std::alloc::Global;

/// The next rule of a rule's symbol.
fn next_of(plan: &Plan, rule: u32) -> Option<u32>
    requires { rule < length plan.now.rules }
    ensures next { IfSome result (λ next. (rule < next) × (next < length plan.now.rules)
        × (head_at plan.now.rules next ≡ head_at plan.now.rules rule)) }
    ensures passed { HavePassed plan.now.rules rule (unwrap_or result (length plan.now.rules)) }
{
    let _ = plan.rules();
    plan.next(rule)
}

/// Which rules are the first of their symbol.
pub(crate) fn firsts_of(alloc: Global, plan: &Plan) -> Result<Vec<bool>, Memory>
    ensures { IfOk result (λ firsts. length firsts.items ≡ length plan.now.rules) }
{
    let mut firsts = vec![in alloc; true; plan.rules().len()]?;
    for rule in 0..plan.rules().len() {
        if let Some(next) = next_of(plan, rule as u32) {
            firsts[next as usize] = false;
        }
    }
    Ok(firsts)
}

/// Which rules come after one of their symbol that has conditions.
pub(crate) fn others_of(alloc: Global, plan: &Plan) -> Result<Vec<bool>, Memory>
    ensures { IfOk result (λ others. length others.items ≡ length plan.now.rules) }
{
    let mut others = vec![in alloc; false; plan.rules().len()]?;
    for rule in 0..plan.rules().len() {
        if let Some(next) = next_of(plan, rule as u32) {
            others[next as usize] = !plan.rules()[rule].conditions().is_empty();
        }
    }
    Ok(others)
}

/// A state for each rule, with it and all rules after it.
pub(crate) fn states_below(alloc: Global, count: usize) -> Result<Vec<State>, Memory>
    ensures { IfOk result (λ states. states.items ≡ map (in_turn_from count) (numbers 0 count)) }
{
    let mut states = Vec::new(alloc);
    for from in 0..count {
        states.push(State {
            from,
            to: count,
            bound: 0,
            op: Op::Turn,
        })?;
    }
    Ok(states)
}

/// Adds a rule and those after it that have its symbol.
fn push_group(plan: &Plan, first: u32, rules: &mut Vec<u32>) -> Result<(), Memory>
    requires { first < length plan.now.rules }
    ensures { OnOk result (AddsGroup plan.now.rules rules.old.items rules.new.items) }
{
    let mut rule = Some(first);
    'rules: while let Some(next) = rule {
        rules.push(next)?;
        rule = next_of(plan, next);
    }
    Ok(())
}

/// Gives a rule and those after it that have its symbol states with these rules alone.
fn group(
    plan: &Plan,
    first: u32,
    rules: &mut Vec<u32>,
    states: &mut Vec<State>,
) -> Result<(), Memory>
    requires rule { first < length plan.now.rules }
    requires starts { AreStarts plan.now.rules rules.old.items states.old.items }
    ensures { OnOk result (AreStarts plan.now.rules rules.new.items states.new.items) }
{
    let from = rules.len();
    push_group(plan, first, rules)?;
    let to = rules.len();
    for at in from..to {
        let rule = rules[at];
        states[rule as usize] = State {
            from: at,
            to,
            bound: 0,
            op: Op::Turn,
        };
    }
    Ok(())
}

/// Gives each rule a state with the rules of its symbol from it on.
pub(crate) fn group_all(
    plan: &Plan,
    firsts: &[bool],
    rules: &mut Vec<u32>,
    states: &mut Vec<State>,
) -> Result<(), Memory>
    requires firsts { length firsts.now ≡ length plan.now.rules }
    requires starts { AreStarts plan.now.rules rules.old.items states.old.items }
    ensures { OnOk result (AreStarts plan.now.rules rules.new.items states.new.items) }
{
    let _ = plan.rules();
    for rule in 0..firsts.len() {
        if firsts[rule] {
            group(plan, rule as u32, rules, states)?;
        }
    }
    Ok(())
}
