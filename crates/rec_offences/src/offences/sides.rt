//! Heads of another sort than is wanted: second sides that have another than the first.
ghost use Rattle.std.specs.Prelude.{◌≡◌, ◌∷◌, [], if◌then◌else◌};
ghost use Rattle.std.specs.List.{flat_map};
ghost use Rattle.rec_offences.specs.Scope.{root};
ghost use Rattle.rec_offences.specs.Offences.{has_other_sort, clashing_side, clashing_sides};
ghost use Rattle.rec_offences.specs.Faults.{of_kind, least_with};
ghost use Rattle.rec_offences.specs.Walked.{is_other};

use crate::least::{is_behind, note_if};
use crate::scope::Scope;
use faults::{Refusal, kinds};
use rec_reader::{Name, Node, Rule};

/// The first token of a term, which is its head.
pub(crate) fn root(nodes: &[Node]) -> Option<Name>
    ensures { result ≡ root nodes.now }
{
    let node = nodes.last()?;
    Some(node.head)
}

/// Whether a sort is another than the one that is wanted.
fn is_other(scope: &Scope, wanted: Name, sort: Option<Name>) -> bool
    ensures { result ≡ is_other scope.now.bytes wanted sort }
{
    match sort {
        Some(sort) => scope.differ(wanted, sort),
        None => false,
    }
}

/// Notes a head whose sort is another than the one that is wanted. Behind what was found nothing is
/// compared. So a name past the limit, which is found where it is declared, isn't read at each use.
#[tactic(auto, using(crate::proofs::Leasts::noting))]
pub(crate) fn note_other_sort(
    found: &mut Option<Refusal>,
    scope: &Scope,
    wanted: Name,
    sort: Option<Name>,
    head: Name,
)
    ensures { found.new ≡ least_with found.old
        (of_kind 8 (if is_other scope.now.bytes wanted sort then head ∷ [] else [])) }
{
    if is_behind(*found, head) {
        return;
    }
    note_if(
        found,
        kinds::SORT_CLASH,
        head,
        is_other(scope, wanted, sort),
    );
}

/// Notes a head that is declared with another sort than is wanted.
fn note_other_head(found: &mut Option<Refusal>, scope: &Scope, wanted: Name, head: Name)
    ensures { found.new ≡ least_with found.old (of_kind 8
        (if has_other_sort scope.now.bytes scope.now.entries wanted head then head ∷ [] else [])) }
{
    if let Some(signature) = scope.find(head) {
        note_other_sort(found, scope, wanted, Some(signature.sort), head);
    }
}

/// Notes a second side whose head has another sort than the first side's.
fn note_clashing_side(found: &mut Option<Refusal>, scope: &Scope, first: &[Node], second: &[Node])
    ensures { found.new ≡ least_with found.old (of_kind 8
        (clashing_side scope.now.bytes scope.now.entries first.now second.now)) }
{
    if let (Some(first), Some(second)) = (root(first), root(second)) {
        if let Some(signature) = scope.find(first) {
            note_other_head(found, scope, signature.sort, second);
        }
    }
}

fn note_clashing_in_rule(found: &mut Option<Refusal>, scope: &Scope, rule: &Rule)
    ensures { found.new ≡ least_with found.old
        (of_kind 8 (clashing_sides scope.now.bytes scope.now.entries rule.now)) }
{
    note_clashing_side(found, scope, rule.left.as_slice(), rule.right.as_slice());
    for condition in rule.conditions.as_slice() {
        note_clashing_side(
            found,
            scope,
            condition.first.as_slice(),
            condition.second.as_slice(),
        );
    }
}

/// Notes the sides of rules and conditions that have another sort than the first side.
pub(crate) fn note_clashing_sides(found: &mut Option<Refusal>, scope: &Scope, rules: &[Rule])
    ensures { found.new ≡ least_with found.old (of_kind 8
        (flat_map (clashing_sides scope.now.bytes scope.now.entries) rules.now)) }
{
    for rule in rules {
        note_clashing_in_rule(found, scope, rule);
    }
}
