//! Terms, rules and plans, written in few words.

ghost use Rattle.std.specs.Prelude.{◌≡◌, IfOk};

use plain_rewriting::Term;
use rewrite_model::{Condition, Rule};
use rule_fitness::may_be_planned;
use rule_match::Plan;
use std::alloc::Global;
use std::test::Fail;
use term_model::{Flat, Item, Symbol};

pub(crate) const X: Item = Item::Var(0);

pub(crate) const Y: Item = Item::Var(1);

pub(crate) const A: Item = Item::App(Symbol(0), 0);

pub(crate) const B: Item = Item::App(Symbol(1), 0);

pub(crate) const C: Item = Item::App(Symbol(2), 0);

pub(crate) const E: Item = Item::App(Symbol(3), 0);

pub(crate) const Z: Item = Item::App(Symbol(4), 0);

pub(crate) const S: Item = Item::App(Symbol(5), 1);

pub(crate) const F: Item = Item::App(Symbol(6), 1);

pub(crate) const G: Item = Item::App(Symbol(7), 1);

pub(crate) const PLUS: Item = Item::App(Symbol(8), 2);

pub(crate) const EQ: Item = Item::App(Symbol(9), 2);

pub(crate) const WIDEST: u32 = 2;

/// The term with these items in postorder.
pub(crate) fn flat(alloc: Global, items: &[Item]) -> Result<Flat, Fail> {
    let flat = Flat::of(items.to_vec(alloc)?).ok_or("no tree")?;
    Ok(flat)
}

/// The term with these items, in boxes.
pub(crate) fn tree(alloc: Global, items: &[Item]) -> Result<Term, Fail> {
    let flat = flat(alloc, items)?;
    Ok(Term::of(alloc, &flat)?)
}

/// The terms with these items, in boxes.
pub(crate) fn boxed(alloc: Global, lists: &[&[Item]]) -> Result<Vec<Term>, Fail> {
    let mut terms = Vec::new(alloc);
    for items in lists {
        terms.push(tree(alloc, items)?)?;
    }
    Ok(terms)
}

/// A rule without conditions, over so many variables.
pub(crate) fn rule(alloc: Global, left: &[Item], right: &[Item], vars: u32) -> Result<Rule, Fail> {
    Ok(Rule::new(
        flat(alloc, left)?,
        flat(alloc, right)?,
        Vec::new(alloc),
        vars,
    ))
}

/// Two patterns, and whether their values are to be equal, or else to differ.
pub(crate) type Asked = (&'static [Item], &'static [Item], bool);

/// The sides of a rule, how many variables it has, and its conditions.
pub(crate) type Written = (&'static [Item], &'static [Item], u32, &'static [Asked]);

fn conditions_of(alloc: Global, written: &[Asked]) -> Result<Vec<Condition>, Fail> {
    let mut conditions = Vec::new(alloc);
    for (first, second, equal) in written {
        conditions.push(condition(alloc, first, second, *equal)?)?;
    }
    Ok(conditions)
}

fn rule_of(alloc: Global, written: &Written) -> Result<Rule, Fail> {
    let (left, right, vars, asked) = written;
    Ok(Rule::new(
        flat(alloc, left)?,
        flat(alloc, right)?,
        conditions_of(alloc, asked)?,
        *vars,
    ))
}

/// Rules in their order.
pub(crate) fn rules_of(alloc: Global, written: &[Written]) -> Result<Vec<Rule>, Fail> {
    let mut rules = Vec::new(alloc);
    for row in written {
        rules.push(rule_of(alloc, row)?)?;
    }
    Ok(rules)
}

/// A condition that the values of two patterns are equal, or else that they differ.
fn condition(
    alloc: Global,
    first: &[Item],
    second: &[Item],
    equal: bool,
) -> Result<Condition, Fail> {
    Ok(Condition::new(flat(alloc, first)?, flat(alloc, second)?, equal))
}

/// The plan of rules that make one.
pub(crate) fn planned(alloc: Global, rules: Vec<Rule>) -> Result<Plan, Fail>
    ensures { IfOk result (λ plan. plan.widest ≡ 2) }
{
    if !may_be_planned(&rules, WIDEST) {
        return Err(Fail::from("no plan"));
    }
    let plan = Plan::of(alloc, rules, WIDEST)?;
    Ok(plan)
}

/// The plan of such rules.
pub(crate) fn plan_of(alloc: Global, written: &[Written]) -> Result<Plan, Fail>
    ensures { IfOk result (λ plan. plan.widest ≡ 2) }
{
    planned(alloc, rules_of(alloc, written)?)
}
