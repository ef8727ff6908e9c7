//! Matching the left side of a rule against a term.

ghost use Rattle.std.specs.Prelude.{◌≡◌, ◌<◌, ◌++◌, [], length, map, reverse, None, Some, All, IfOk, OnOk};
ghost use Rattle.std.specs.Bool.{OnTrue};
ghost use Rattle.term_model.specs.Tree.{arguments};
ghost use Rattle.term_model.specs.declared.Head.TheVariants.{App};
ghost use Rattle.rewrite_model.specs.Matching.{bind as bind_of};
ghost use Rattle.rule_match.specs.Planned.{match_at};
ghost use Rattle.rule_match.specs.Stands.{stands};
ghost use Rattle.run_checks.specs.Held.{IsThere, term_at};
ghost use Rattle.run_checks.specs.Matched.{IsMatched, Binds};

use crate::table::TermTable;
use faults::Memory;
use rule_match::Plan;
use std::alloc::{AllocError, Global};
use term_model::{Item, Symbol};

/// The terms that a rule's left side binds in a term, in the order of its variables; None where it
/// doesn't match. It takes time linear in the left side.
pub(crate) fn matched(
    alloc: Global,
    plan: &Plan,
    rule: u32,
    table: &TermTable,
    number: u32,
) -> Result<Option<Vec<u32>>, Memory>
    requires rule { rule < length plan.now.rules }
    requires there { IsThere table.now number }
    ensures { IfOk result
        (IsMatched table.now (match_at plan.now.rules rule (term_at table.now number))) }
{
    let mut bound = Vec::new(alloc);
    if run(alloc, plan, rule, table, number, &mut bound)? {
        Ok(Some(bound))
    } else {
        Ok(None)
    }
}

/// Whether a rule's left side matches a term; the terms of its variables are then bound in their
/// order. Arguments that wait for their patterns stand on a stack, the next one on top.
fn run(
    alloc: Global,
    plan: &Plan,
    rule: u32,
    table: &TermTable,
    number: u32,
    bound: &mut Vec<u32>,
) -> Result<bool, AllocError>
    requires rule { rule < length plan.now.rules }
    requires there { IsThere table.now number }
    requires empty { bound.old.items ≡ [] }
    ensures { IfOk result (Binds table.now bound.new.items
        (match_at plan.now.rules rule (term_at table.now number))) }
{
    let mut stack = vec![in alloc; number]?;
    for item in plan.program(rule) {
        let Some(top) = stack.pop() else {
            unreachable!()
        };
        match *item {
            Item::Var(variable) => {
                if !bind(table, variable, top, bound)? {
                    return Ok(false);
                }
            }
            Item::App(symbol, count) => {
                if !open(table, symbol, count, top, &mut stack)? {
                    return Ok(false);
                }
            }
            _ => unreachable!(),
        }
    }
    Ok(true)
}

/// Binds a new variable to a term, or tests that it is bound to it.
fn bind(
    table: &TermTable,
    variable: u32,
    number: u32,
    bound: &mut Vec<u32>,
) -> Result<bool, AllocError>
    requires there { IsThere table.now number }
    requires bound_there { All (IsThere table.now) bound.old.items }
    ensures { IfOk result (Binds table.now bound.new.items
        (bind_of variable (term_at table.now number) (map (term_at table.now) bound.old.items))) }
{
    let place = variable as usize;
    if place < bound.len() {
        return Ok(table.are_equal(bound[place], number));
    }
    if place > bound.len() {
        return Ok(false);
    }
    bound.push(number)?;
    Ok(true)
}

/// Whether a term is this symbol over so many terms; these are then put on the stack, the first on
/// top.
fn open(
    table: &TermTable,
    symbol: Symbol,
    count: u32,
    number: u32,
    stack: &mut Vec<u32>,
) -> Result<bool, AllocError>
    requires there { IsThere table.now number }
    requires stack_there { All (IsThere table.now) stack.old.items }
    ensures opened { IfOk result
        (λ opened. opened ≡ stands (App symbol) count (term_at table.now number)) }
    ensures pushed { IfOk result (λ opened. OnTrue opened (map (term_at table.now) stack.new.items
        ≡ map (term_at table.now) stack.old.items
        ++ reverse (arguments (term_at table.now number)))) }
    ensures stack_there { OnOk result (All (IsThere table.now) stack.new.items) }
{
    let (head, arguments) = table.at(number);
    if head.0 != symbol.0 {
        return Ok(false);
    }
    if arguments.len() != count as usize {
        return Ok(false);
    }
    push_all(arguments, stack)?;
    Ok(true)
}

/// Puts numbers on a stack, the first on top.
fn push_all(numbers: &[u32], stack: &mut Vec<u32>) -> Result<(), AllocError>
    ensures { OnOk result (stack.new.items ≡ stack.old.items ++ reverse numbers.now) }
{
    let mut place = numbers.len();
    'places: while place > 0 {
        place -= 1;
        stack.push(numbers[place])?;
    }
    Ok(())
}
