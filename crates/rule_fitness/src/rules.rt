//! Whether rules may make a plan.

ghost use Rattle.std.specs.Prelude.{◌≡◌, ◌↔◌, IsTrue, All};
ghost use Rattle.std.specs.List.{list_all};
ghost use Rattle.rewrite_model.specs.Rule.{IsNumbered, is_below};
ghost use Rattle.term_model.specs.Postorder.{postorder};
ghost use Rattle.rule_match.specs.Planned.{planned, is_plain, is_item_below, IsPlan, IsFit, HasSides};

use rewrite_model::{Condition, Rule};
use term_model::{Flat, Item};

/// Whether these rules make a plan: they have symbols alone, each over at most `widest` arguments,
/// no left side is a variable, the variables of a left side are numbered from 0 in order of first
/// occurrence, the other sides have no others, and 32 bits number the rules.
pub fn may_be_planned(rules: &[Rule], widest: u32) -> bool
    ensures { IsTrue result ↔ IsPlan (planned rules.now widest) }
{
    rules.len() <= u32::MAX as usize && are_fit(rules, widest)
}

/// Whether each rule is one that a plan may have.
fn are_fit(rules: &[Rule], widest: u32) -> bool
    ensures { IsTrue result ↔ All (IsFit widest) rules.now }
{
    rules.iter().all(|rule| is_fit(rule, widest))
}

/// Whether a rule is one that a plan may have.
fn is_fit(rule: &Rule, widest: u32) -> bool
    ensures { IsTrue result ↔ IsFit widest rule.now }
{
    rule.left().root().is_some()
        && numbers_variables(rule.left(), rule.vars())
        && has_symbols_alone(rule.left(), widest)
        && has_variables_below(rule.right(), rule.vars())
        && has_symbols_alone(rule.right(), widest)
        && have_sides(rule.conditions(), rule.vars(), widest)
}

/// Whether each condition's two sides are fit for a rule of so many variables.
fn have_sides(conditions: &[Condition], vars: u32, widest: u32) -> bool
    ensures { IsTrue result ↔ All (HasSides vars widest) conditions.now }
{
    conditions
        .iter()
        .all(|condition| has_sides(condition, vars, widest))
}

/// Whether a condition's two sides have variables below a count, and symbols alone beside them.
fn has_sides(condition: &Condition, vars: u32, widest: u32) -> bool
    ensures { IsTrue result ↔ HasSides vars widest condition.now }
{
    has_variables_below(condition.first(), vars)
        && has_symbols_alone(condition.first(), widest)
        && has_variables_below(condition.second(), vars)
        && has_symbols_alone(condition.second(), widest)
}

/// Whether the variables are all those below a count, numbered in order of first occurrence.
fn numbers_variables(pattern: &Flat, vars: u32) -> bool
    ensures { IsTrue result ↔ IsNumbered pattern.now vars }
{
    let mut count = 0usize;
    for item in pattern.items() {
        if let Item::Var(variable) = *item {
            let at = variable as usize;
            if at > count {
                return false;
            }
            if at == count {
                count += 1;
            }
        }
    }
    count == vars as usize
}

/// Whether a pattern's variables are below a count.
fn has_variables_below(pattern: &Flat, vars: u32) -> bool
    ensures { result ≡ is_below vars pattern.now }
{
    are_below(pattern.items(), vars)
}

/// Whether the variables of nodes are below a count.
fn are_below(items: &[Item], vars: u32) -> bool
    ensures { result ≡ list_all (is_item_below vars) items.now }
{
    items.iter().all(|item| match *item {
        Item::Var(variable) => variable < vars,
        _ => true,
    })
}

/// Whether a pattern has symbols alone beside its variables, each over at most `widest` arguments.
pub fn has_symbols_alone(pattern: &Flat, widest: u32) -> bool
    ensures { result ≡ list_all (is_plain widest) (postorder pattern.now) }
{
    are_plain(pattern.items(), widest)
}

/// Whether nodes are variables, or symbols over at most `widest` arguments.
fn are_plain(items: &[Item], widest: u32) -> bool
    ensures { result ≡ list_all (is_plain widest) items.now }
{
    items.iter().all(|item| match *item {
        Item::Var(_) => true,
        Item::App(_, count) => count <= widest,
        _ => false,
    })
}
