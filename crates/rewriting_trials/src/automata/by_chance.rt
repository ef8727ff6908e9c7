//! The rules that automata of rules made by chance find, against each rule tried by itself.

ghost use Rattle.rule_automaton.specs.Automata.{IsAutomaton};
ghost use Rattle.rule_automaton.specs.Running.{made};

use super::{first_of, found};
use crate::chance::{Dice, plan, term};
use rule_automaton::Automaton;
use rule_match::Plan;
use std::alloc::Global;
use std::test::Fail;
use term_model::Item;

/// Whether a term has a rule; none where the automaton and the rules don't agree.
fn agreed(
    alloc: Global,
    plan: &Plan,
    automaton: &Automaton,
    items: &[Item],
    after: bool,
) -> Result<Option<bool>, Fail>
    requires { IsAutomaton plan.now.rules (made automaton.now) }
{
    let found = found(alloc, plan, automaton, items, after)?;
    let same = found == first_of(alloc, plan, items, after)?;
    Ok(if same { Some(found.is_some()) } else { None })
}

/// Counts a term once for all rules, and once for those after the first, where it has one; false
/// where the automaton and the rules don't agree.
fn agrees(
    alloc: Global,
    plan: &Plan,
    automaton: &Automaton,
    items: &[Item],
    count: &mut u32,
) -> Result<bool, Fail>
    requires { IsAutomaton plan.now.rules (made automaton.now) }
{
    for after in [false, true] {
        let Some(some) = agreed(alloc, plan, automaton, items, after)? else {
            return Ok(false);
        };
        *count = count.saturating_add(u32::from(some));
    }
    Ok(true)
}

/// Whether the automaton and the rules agree on four chance terms; counts those with a rule.
fn four_agree(
    alloc: Global,
    plan: &Plan,
    automaton: &Automaton,
    dice: &mut Dice,
    count: &mut u32,
) -> Result<bool, Fail>
    requires { IsAutomaton plan.now.rules (made automaton.now) }
{
    for _ in 0..4u8 {
        let term = term(alloc, dice)?;
        if !agrees(alloc, plan, automaton, term.items(), count)? {
            return Ok(false);
        }
    }
    Ok(true)
}

/// The same for the next chance rules.
fn rules_agree(
    alloc: Global,
    dice: &mut Dice,
    of_one: bool,
    count: &mut u32,
) -> Result<bool, Fail> {
    let plan = plan(alloc, dice, of_one)?;
    let automaton = Automaton::of(alloc, &plan)?;
    four_agree(alloc, &plan, &automaton, dice, count)
}

/// The first set of chance rules, by its number, on which the automaton and the rules don't agree;
/// counts the terms with a rule.
fn first_apart(alloc: Global, count: &mut u32) -> Result<Option<u8>, Fail> {
    let mut dice = Dice::of(11);
    for turn in 0..60u8 {
        if !rules_agree(alloc, &mut dice, turn % 2 == 1, count)? {
            return Ok(Some(turn));
        }
    }
    Ok(None)
}

#[test]
fn chance_rules_are_found_as_they_match(rt: HostRuntime) -> Result<(), Fail> {
    let mut count = 0;
    assert_eq!(rt; first_apart(rt.alloc(), &mut count)?, None);
    assert!(rt; count > 40, "{count}");
    Ok(())
}
