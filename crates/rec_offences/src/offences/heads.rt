//! Heads of terms: what is unknown or declared otherwise, and variables in terms that are to be
//! rewritten.
ghost use Rattle.std.specs.Prelude.{◌≡◌, ◌++◌, [], List, OnOk, false, true};
ghost use Rattle.std.specs.List.{flat_map};
ghost use Rattle.rec_reader.specs.declared.token.Name.{Name};
ghost use Rattle.rec_offences.specs.Scope.{visits};
ghost use Rattle.rec_offences.specs.Offences.{terms_of, unknown_names, wrong_counts, sort_clashes, not_ground};
ghost use Rattle.rec_offences.specs.Faults.{of_kind, least_with};
ghost use Rattle.rec_offences.specs.Walked.{arguments_of, at_node, at_side, clashing_sorts, names_with, sort_of, visit_over};

use crate::least::{note, note_if};
use crate::offences::sides::{note_clashing_sides, note_other_sort};
use crate::scope::Scope;
use faults::{Memory, Refusal, kinds};
use rec_reader::{Name, Node, Rule, Sequence, Specification};
use std::alloc::Global;

/// The head of an argument, with the sort with which it is first declared, if it is.
#[derive(Clone, Copy)]
pub(crate) struct Argument {
    pub head: Name,
    pub sort: Option<Name>,
}

fn note_clashing(
    found: &mut Option<Refusal>,
    scope: &Scope,
    wanted: &[Name],
    arguments: &[Argument],
)
    ensures { found.new ≡ least_with found.old (of_kind 8
        (clashing_sorts scope.now.bytes wanted.now arguments.now)) }
{
    for (sort, argument) in wanted.iter().zip(arguments) {
        note_other_sort(found, scope, *sort, argument.sort, argument.head);
    }
}

/// Notes what is wrong at a node, of a term that is to be rewritten or of another, and gives the
/// sort of its head.
fn note_node(
    found: &mut Option<Refusal>,
    scope: &Scope,
    is_value: bool,
    node: Node,
    arguments: &[Argument],
) -> Option<Name>
    ensures sort { result ≡ sort_of scope.now.bytes scope.now.entries node.head }
    ensures noted { found.new ≡ least_with found.old
        (at_node is_value scope.now.bytes scope.now.entries node arguments.now) }
{
    match scope.find(node.head) {
        Some(signature) => {
            note_if(
                found,
                kinds::NOT_GROUND,
                node.head,
                is_value && signature.is_variable,
            );
            note_if(
                found,
                kinds::ARITY,
                node.head,
                node.count != signature.arguments.len(),
            );
            note_clashing(found, scope, signature.arguments, arguments);
            Some(signature.sort)
        }
        None => {
            note(found, kinds::UNKNOWN_NAME, node.head);
            None
        }
    }
}

/// Notes what is wrong at a node whose arguments are the newest on the stack, and puts its head in
/// their place.
#[tactic(auto, using(crate::proofs::Walks::walking))]
fn note_visit(
    found: &mut Option<Refusal>,
    scope: &Scope,
    is_value: bool,
    node: Node,
    stack: &mut Vec<Argument>,
) -> Result<(), Memory>
    ensures stack { (names : List Name)
        → stack.old.items ≡ arguments_of scope.now.bytes scope.now.entries names
        → OnOk result (stack.new.items
        ≡ arguments_of scope.now.bytes scope.now.entries (names_with names node)) }
    ensures noted { (names : List Name)
        → stack.old.items ≡ arguments_of scope.now.bytes scope.now.entries names
        → OnOk result (found.new ≡ least_with found.old
        (at_side is_value scope.now.bytes scope.now.entries (visit_over names node))) }
{
    let below = stack.len().saturating_sub(node.count);
    let sort = note_node(found, scope, is_value, node, &stack[below..]);
    stack.truncate(below);
    stack.push(Argument {
        head: node.head,
        sort,
    })?;
    Ok(())
}

/// Notes what is wrong at the nodes of a term, of one that is to be rewritten or of another.
#[tactic(auto, using(crate::proofs::Walks::walking))]
fn note_term(
    alloc: Global,
    found: &mut Option<Refusal>,
    scope: &Scope,
    is_value: bool,
    nodes: &[Node],
) -> Result<(), Memory>
    ensures { OnOk result (found.new ≡ least_with found.old
        (flat_map (at_side is_value scope.now.bytes scope.now.entries) (visits [] nodes.now))) }
{
    let mut stack = Vec::new(alloc);
    for node in nodes {
        note_visit(found, scope, is_value, *node, &mut stack)?;
    }
    Ok(())
}

fn note_terms_of(
    alloc: Global,
    found: &mut Option<Refusal>,
    scope: &Scope,
    rule: &Rule,
) -> Result<(), Memory>
    ensures { OnOk result (found.new ≡ least_with found.old
        (flat_map (at_side false scope.now.bytes scope.now.entries)
        (flat_map (visits []) (terms_of rule.now)))) }
{
    note_term(alloc, found, scope, false, rule.left.as_slice())?;
    note_term(alloc, found, scope, false, rule.right.as_slice())?;
    for condition in rule.conditions.as_slice() {
        note_term(alloc, found, scope, false, condition.first.as_slice())?;
        note_term(alloc, found, scope, false, condition.second.as_slice())?;
    }
    Ok(())
}

/// Notes what is wrong at the nodes of rules.
fn note_rules(
    alloc: Global,
    found: &mut Option<Refusal>,
    scope: &Scope,
    rules: &[Rule],
) -> Result<(), Memory>
    ensures { OnOk result (found.new ≡ least_with found.old
        (flat_map (at_side false scope.now.bytes scope.now.entries)
        (flat_map (visits []) (flat_map terms_of rules.now)))) }
{
    for rule in rules {
        note_terms_of(alloc, found, scope, rule)?;
    }
    Ok(())
}

/// Notes what is wrong at the nodes of the terms that are to be rewritten.
fn note_values(
    alloc: Global,
    found: &mut Option<Refusal>,
    scope: &Scope,
    terms: &[Sequence<Node>],
) -> Result<(), Memory>
    ensures { OnOk result (found.new ≡ least_with found.old
        (flat_map (at_side true scope.now.bytes scope.now.entries)
        (flat_map (visits []) terms.now))) }
{
    for term in terms {
        note_term(alloc, found, scope, true, term.as_slice())?;
    }
    Ok(())
}

/// Notes what is wrong at heads: the unknown, those with another number of arguments, those of
/// another sort, and the variables of terms that are to be rewritten.
pub(crate) fn note_heads(
    alloc: Global,
    found: &mut Option<Refusal>,
    scope: &Scope,
    specification: &Specification,
) -> Result<(), Memory>
    ensures { OnOk result (found.new ≡ least_with found.old
        (of_kind 5 (unknown_names scope.now.bytes scope.now.entries specification.now)
        ++ of_kind 7 (wrong_counts scope.now.bytes scope.now.entries specification.now)
        ++ of_kind 8 (sort_clashes scope.now.bytes scope.now.entries specification.now)
        ++ of_kind 11 (not_ground scope.now.bytes scope.now.entries specification.now))) }
{
    let rules = specification.rules.as_slice();
    note_rules(alloc, found, scope, rules)?;
    note_values(alloc, found, scope, specification.terms.as_slice())?;
    note_clashing_sides(found, scope, rules);
    Ok(())
}
