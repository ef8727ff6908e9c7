//! Rules from their sides.

ghost use Rattle.std.specs.Prelude.{◌≡◌, Some, IfOk, IsSome};
ghost use Rattle.rec_reader.specs.Few.{HasFewNodes};
ghost use Rattle.rec_includes.specs.Listing.{texts};
ghost use Rattle.rec_check.specs.Scope.{seen};
ghost use Rattle.rec_check.specs.Term.{all_of};
ghost use Rattle.rec_check.specs.Rule.{condition_in, rule_in, sides_in, variables_in};

use crate::scope::Scope;
use crate::terms::tree_of;
use faults::Memory;
use rec_includes::Directory;
use rec_reader::{Condition as Written, Node, Rule as WrittenRule};
use rewrite_model::{Condition, Rule};
use std::alloc::Global;
use symbol_pool::Symbols;

/// The variables that occur in a left side, in order of first occurrence: the names there that are
/// declared as variables.
fn variables_of<'a>(
    alloc: Global,
    declared: &Directory<'a>,
    left: &[Node],
) -> Result<Directory<'a>, Memory>
    ensures bytes { IfOk result (λ d. d.bytes ≡ declared.now.bytes) }
    ensures texts { IfOk result (λ d.
        texts d ≡ variables_in declared.now.bytes (texts declared.now) left.now) }
{
    let mut variables = Directory::new(alloc, declared.text());
    for node in left {
        if declared.has(node.head) {
            variables.add_new(node.head)?;
        }
    }
    Ok(variables)
}

fn condition_of(alloc: Global, scope: &Scope, written: &Written) -> Result<Condition, Memory>
    requires { IsSome (condition_in (seen scope.now) written.now) }
    ensures { IfOk result (λ c. condition_in (seen scope.now) written.now ≡ Some c) }
{
    let first = tree_of(alloc, scope, written.first.as_slice())?;
    let second = tree_of(alloc, scope, written.second.as_slice())?;
    Ok(Condition::new(first, second, written.equal))
}

fn conditions_of(
    alloc: Global,
    scope: &Scope,
    written: &[Written],
) -> Result<Vec<Condition>, Memory>
    requires { IsSome (all_of (condition_in (seen scope.now)) written.now) }
    ensures { IfOk result (λ v. all_of (condition_in (seen scope.now)) written.now ≡ Some v.items) }
{
    let mut conditions = Vec::with_capacity(alloc, written.len())?;
    for condition in written {
        conditions.push(condition_of(alloc, scope, condition)?)?;
    }
    Ok(conditions)
}

/// The rule of these sides, whose left side is no variable.
fn sides_of(alloc: Global, scope: &Scope, written: &WrittenRule) -> Result<Rule, Memory>
    requires { IsSome (sides_in (seen scope.now) written.now) }
    ensures { IfOk result (λ r. sides_in (seen scope.now) written.now ≡ Some r) }
{
    let left = tree_of(alloc, scope, written.left.as_slice())?;
    let right = tree_of(alloc, scope, written.right.as_slice())?;
    let conditions = conditions_of(alloc, scope, written.conditions.as_slice())?;
    let variables = scope.variables.len() as u32;
    Ok(Rule::new(left, right, conditions, variables))
}

/// A rule, with the variables of its left side numbered in order of first occurrence.
pub(crate) fn rule_of(
    alloc: Global,
    symbols: &Symbols,
    declared: &Directory,
    written: &WrittenRule,
) -> Result<Rule, Memory>
    requires few { HasFewNodes written.now }
    requires spelled { IsSome
        (rule_in declared.now.bytes symbols.now (texts declared.now) written.now) }
    ensures { IfOk result (λ r.
        rule_in declared.now.bytes symbols.now (texts declared.now) written.now ≡ Some r) }
{
    let variables = variables_of(alloc, declared, written.left.as_slice())?;
    let scope = Scope {
        symbols,
        variables: &variables,
    };
    sides_of(alloc, &scope, written)
}
