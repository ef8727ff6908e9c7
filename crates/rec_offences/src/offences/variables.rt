//! Variables as left sides, and variables that don't occur on the left.
ghost use Rattle.std.specs.Prelude.{◌≡◌, ◌++◌, OnOk};
ghost use Rattle.std.specs.List.{filter, flat_map};
ghost use Rattle.std.specs.Option.{option_to_list};
ghost use Rattle.rec_includes.specs.Listing.{listing};
ghost use Rattle.rec_offences.specs.Scope.{is_variable, heads, root};
ghost use Rattle.rec_offences.specs.Offences.{nodes_but_left, bare_variables, free_variables};
ghost use Rattle.rec_offences.specs.Visited.{is_free, free_variables_of};
ghost use Rattle.rec_offences.specs.Faults.{of_kind, least_with};

use crate::least::note_if;
use crate::offences::sides::root;
use crate::scope::Scope;
use faults::{Memory, Refusal, kinds};
use rec_includes::Directory;
use rec_reader::{Condition, Node, Rule, Specification};
use std::alloc::Global;

fn note_bare_variable(found: &mut Option<Refusal>, scope: &Scope, left: &[Node])
    ensures { found.new ≡ least_with found.old (of_kind 9
        (filter (is_variable scope.now.bytes scope.now.entries) (option_to_list (root left.now)))) }
{
    if let Some(head) = root(left) {
        note_if(found, kinds::BARE_VARIABLE, head, scope.is_variable(head));
    }
}

/// Notes the left sides that are a variable.
fn note_bare_variables(found: &mut Option<Refusal>, scope: &Scope, rules: &[Rule])
    ensures { found.new ≡ least_with found.old (of_kind 9 (flat_map
        (λ r. filter (is_variable scope.now.bytes scope.now.entries) (option_to_list (root r.left)))
        rules.now)) }
{
    for rule in rules {
        note_bare_variable(found, scope, rule.left.as_slice());
    }
}

/// Notes the variables that aren't among those of the left side.
fn note_free(found: &mut Option<Refusal>, scope: &Scope, left: &Directory, nodes: &[Node])
    ensures { found.new ≡ least_with found.old (of_kind 10
        (filter (is_free scope.now left.now) (heads nodes.now))) }
{
    for node in nodes {
        let is_free = scope.is_variable(node.head) && !left.has(node.head);
        note_if(found, kinds::FREE_VARIABLE, node.head, is_free);
    }
}

#[tactic(auto, using(crate::proofs::Leasts::noting_parts))]
fn note_free_in_condition(
    found: &mut Option<Refusal>,
    scope: &Scope,
    left: &Directory,
    condition: &Condition,
)
    ensures { found.new ≡ least_with found.old (of_kind 10
        (filter (is_free scope.now left.now)
        (heads (condition.now.first ++ condition.now.second)))) }
{
    note_free(found, scope, left, condition.first.as_slice());
    note_free(found, scope, left, condition.second.as_slice());
}

/// Notes the variables after the left side that aren't among these.
#[tactic(auto, using(crate::proofs::Leasts::noting_parts))]
fn note_free_but(found: &mut Option<Refusal>, scope: &Scope, left: &Directory, rule: &Rule)
    ensures { found.new ≡ least_with found.old (of_kind 10
        (filter (is_free scope.now left.now) (heads (nodes_but_left rule.now)))) }
{
    note_free(found, scope, left, rule.right.as_slice());
    for condition in rule.conditions.as_slice() {
        note_free_in_condition(found, scope, left, condition);
    }
}

/// Puts the heads of nodes at the end.
fn add_heads(names: &mut Directory, nodes: &[Node]) -> Result<(), Memory>
    ensures { OnOk result
        (names.new ≡ listing names.old.bytes (names.old.names ++ heads nodes.now)) }
{
    for node in nodes {
        names.add(node.head)?;
    }
    Ok(())
}

fn note_free_in_rule(
    alloc: Global,
    found: &mut Option<Refusal>,
    text: &[u8],
    scope: &Scope,
    rule: &Rule,
) -> Result<(), Memory>
    ensures { OnOk result (found.new ≡ least_with found.old (of_kind 10
        (free_variables_of text.now scope.now.bytes scope.now.entries rule.now))) }
{
    let mut left = Directory::new(alloc, text);
    add_heads(&mut left, rule.left.as_slice())?;
    note_free_but(found, scope, &left, rule);
    Ok(())
}

/// Notes the variables of right sides and conditions that don't occur on the left.
fn note_free_variables(
    alloc: Global,
    found: &mut Option<Refusal>,
    text: &[u8],
    scope: &Scope,
    rules: &[Rule],
) -> Result<(), Memory>
    ensures { OnOk result (found.new ≡ least_with found.old (of_kind 10
        (flat_map (free_variables_of text.now scope.now.bytes scope.now.entries) rules.now))) }
{
    for rule in rules {
        note_free_in_rule(alloc, found, text, scope, rule)?;
    }
    Ok(())
}

/// Notes the left sides that are a variable, and the variables that don't occur on the left.
pub(crate) fn note_misplaced_variables(
    alloc: Global,
    found: &mut Option<Refusal>,
    scope: &Scope,
    specification: &Specification,
) -> Result<(), Memory>
    ensures { OnOk result (found.new ≡ least_with found.old
        (of_kind 9 (bare_variables scope.now.bytes scope.now.entries specification.now)
        ++ of_kind 10 (free_variables scope.now.bytes scope.now.entries specification.now))) }
{
    let rules = specification.rules.as_slice();
    note_bare_variables(found, scope, rules);
    note_free_variables(alloc, found, scope.text(), scope, rules)?;
    Ok(())
}
