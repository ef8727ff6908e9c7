//! Evaluating a term with a memory of results.

ghost use Rattle.std.specs.Prelude.{◌≡◌, ℕ, ◌-◌, ◌<◌, ◌≤◌, Some, length, IfOk, IfErr, true, vec_capacity, slice_index, slice_get};
ghost use Rattle.term_model.specs.Tree.{Tree, IsGround, nodes};
ghost use Rattle.terms_api.specs.Terms.{Store};
ghost use Rattle.rule_match.specs.Planned.{IsPlain};
ghost use Rattle.rule_automaton.specs.Automata.{IsAutomaton};
ghost use Rattle.rule_code.specs.Depths.{depths as depths_of};
ghost use Rattle.innermost.specs.Tasks.{IsReady};
ghost use Rattle.innermost.specs.Caching.{IsCaching, IsOnNode, GivesUpCaching, CachesNext, CachingEnds, WasRight};

use crate::evaluating::begin_node;
use crate::frames::{Parts, Rules, Task};
use crate::machine::reduce;
use crate::remembering::{refresh, remember, take_known, top_row};
use crate::spare::{LeastSpare, NoSpare};
use crate::windows::{Window, depth_at};
use crate::{Memo, Normal, RunFault};
use term_model::{Flat, Row};
use terms_api::Terms;

/// The row on top of the stack, by which rules its tree is reduced, from one on, and in which room.
#[derive(Clone, Copy)]
struct Place {
    rule: u32,
    room: u32,
    row: Row,
}

/// Reduces the tree on top, whose row this is, by a rule and those after it, and remembers its
/// value.
fn reduce_anew<T: Terms, M: Memo>(
    rules: &Rules,
    parts: &mut Parts,
    place: Place,
    epoch: &mut Option<u64>,
    terms: &mut T,
    memo: &mut M,
) -> Result<Normal, RunFault>
    requires inside { (T.store terms.old).inside ≡ true }
    requires frames_room { rules.now.code.now.depth ≤ vec_capacity parts.old.frames }
    requires matcher { IsAutomaton rules.now.plan.now.rules parts.old.matcher.automaton }
    requires row { slice_get (T.store terms.old).stack (length (T.store terms.old).stack - 1)
        ≡ Some place.row }
    requires epoch { epoch.old ≡ (T.store terms.old).epoch }
    requires state { (start : Store) × (term : Tree) × (fuel : ℕ) × (at : ℕ)
        × IsOnNode rules.now.plan.now rules.now.code.now start term fuel (M.map memo.old) epoch.old at parts.old.left
        (T.store terms.old) (Some place.rule) place.room }
    ensures state { IfOk result (λ end. (start : Store) (term : Tree) (fuel : ℕ) (at : ℕ)
        → IsOnNode rules.now.plan.now rules.now.code.now start term fuel (M.map memo.old) epoch.old at parts.old.left
        (T.store terms.old) (Some place.rule) place.room
        → CachesNext rules.now.plan.now rules.now.code.now start term fuel (M.map memo.new) epoch.new at
        (T.store terms.new) end) }
    ensures fault { IfErr result (λ fault. (start : Store) (term : Tree) (fuel : ℕ) (at : ℕ)
        → IsOnNode rules.now.plan.now rules.now.code.now start term fuel (M.map memo.old) epoch.old at parts.old.left
        (T.store terms.old) (Some place.rule) place.room
        → GivesUpCaching rules.now.plan.now rules.now.code.now start term fuel (M.map memo.new) epoch.new
        (T.store terms.new) fault) }
    ensures frames_room { vec_capacity parts.new.frames ≡ vec_capacity parts.old.frames }
    ensures matcher { parts.new.matcher.automaton ≡ parts.old.matcher.automaton }
    ensures same { T.same terms.old terms.new }
{
    let before = parts.left;
    let task = Task::Reduce(Some(place.rule), place.room);
    let mut spare = LeastSpare { least: place.room };
    let end = reduce(rules.plan, rules.code, parts, task, &mut spare, terms)?;
    if let Normal::Value { left } = end {
        let taken = before.saturating_sub(left);
        let least = place.room.saturating_sub(spare.least);
        remember(place.row, taken, least, epoch, terms, memo);
    }
    Ok(end)
}

/// Takes the value of the tree on top from the memory, or reduces it.
fn reduce_known<T: Terms, M: Memo>(
    rules: &Rules,
    parts: &mut Parts,
    rule: u32,
    room: u32,
    epoch: &mut Option<u64>,
    terms: &mut T,
    memo: &mut M,
) -> Result<Normal, RunFault>
    requires inside { (T.store terms.old).inside ≡ true }
    requires frames_room { rules.now.code.now.depth ≤ vec_capacity parts.old.frames }
    requires matcher { IsAutomaton rules.now.plan.now.rules parts.old.matcher.automaton }
    requires state { (start : Store) × (term : Tree) × (fuel : ℕ) × (at : ℕ)
        × IsOnNode rules.now.plan.now rules.now.code.now start term fuel (M.map memo.old) epoch.old at parts.old.left
        (T.store terms.old) (Some rule) room }
    ensures state { IfOk result (λ end. (start : Store) (term : Tree) (fuel : ℕ) (at : ℕ)
        → IsOnNode rules.now.plan.now rules.now.code.now start term fuel (M.map memo.old) epoch.old at parts.old.left
        (T.store terms.old) (Some rule) room
        → CachesNext rules.now.plan.now rules.now.code.now start term fuel (M.map memo.new) epoch.new at
        (T.store terms.new) end) }
    ensures fault { IfErr result (λ fault. (start : Store) (term : Tree) (fuel : ℕ) (at : ℕ)
        → IsOnNode rules.now.plan.now rules.now.code.now start term fuel (M.map memo.old) epoch.old at parts.old.left
        (T.store terms.old) (Some rule) room
        → GivesUpCaching rules.now.plan.now rules.now.code.now start term fuel (M.map memo.new) epoch.new
        (T.store terms.new) fault) }
    ensures frames_room { vec_capacity parts.new.frames ≡ vec_capacity parts.old.frames }
    ensures matcher { parts.new.matcher.automaton ≡ parts.old.matcher.automaton }
    ensures same { T.same terms.old terms.new }
{
    let row = top_row(terms);
    let _ = refresh(epoch, terms, memo);
    if take_known(row, room, &mut parts.left, terms, memo) {
        return Ok(Normal::Value { left: parts.left });
    }
    let place = Place { rule, room, row };
    reduce_anew(rules, parts, place, epoch, terms, memo)
}

/// A node of a term by its number, and how far down it stands.
#[derive(Clone, Copy)]
struct Node {
    at: usize,
    down: u32,
}

/// Evaluates a node of a term, after those before it.
fn cache_node<T: Terms, M: Memo>(
    rules: &Rules,
    parts: &mut Parts,
    term: &Flat,
    node: Node,
    epoch: &mut Option<u64>,
    terms: &mut T,
    memo: &mut M,
) -> Result<Normal, RunFault>
    requires inside { (T.store terms.old).inside ≡ true }
    requires frames_room { rules.now.code.now.depth ≤ vec_capacity parts.old.frames }
    requires matcher { IsAutomaton rules.now.plan.now.rules parts.old.matcher.automaton }
    requires node { node.at < nodes term.now }
    requires no_variables { IsGround term.now }
    requires plain { IsPlain rules.now.plan.now.widest term.now }
    requires down { node.down
        ≡ slice_index (depths_of rules.now.code.now.depth term.now 0) node.at }
    requires state { (start : Store) × (fuel : ℕ)
        × IsCaching rules.now.plan.now rules.now.code.now start term.now fuel (M.map memo.old) epoch.old node.at
        parts.old.left (T.store terms.old) }
    ensures state { IfOk result (λ end. (start : Store) (fuel : ℕ)
        → IsCaching rules.now.plan.now rules.now.code.now start term.now fuel (M.map memo.old) epoch.old node.at
        parts.old.left (T.store terms.old)
        → CachesNext rules.now.plan.now rules.now.code.now start term.now fuel (M.map memo.new) epoch.new node.at
        (T.store terms.new) end) }
    ensures fault { IfErr result (λ fault. (start : Store) (fuel : ℕ)
        → IsCaching rules.now.plan.now rules.now.code.now start term.now fuel (M.map memo.old) epoch.old node.at
        parts.old.left (T.store terms.old)
        → GivesUpCaching rules.now.plan.now rules.now.code.now start term.now fuel (M.map memo.new) epoch.new
        (T.store terms.new) fault) }
    ensures frames_room { vec_capacity parts.new.frames ≡ vec_capacity parts.old.frames }
    ensures matcher { parts.new.matcher.automaton ≡ parts.old.matcher.automaton }
    ensures same { T.same terms.old terms.new }
{
    let task = begin_node(
        rules.plan,
        rules.code,
        term,
        node.at,
        node.down,
        &mut parts.builds,
        terms,
    )?;
    let Task::Reduce(Some(rule), room) = task else {
        return reduce(rules.plan, rules.code, parts, task, &mut NoSpare, terms);
    };
    reduce_known(rules, parts, rule, room, epoch, terms, memo)
}

/// Evaluates a term, with the fuel that is left, and a memory that was right at this epoch.
pub(crate) fn evaluate_with<T: Terms, M: Memo>(
    rules: &Rules,
    parts: &mut Parts,
    window: &mut Window,
    term: &Flat,
    epoch: &mut Option<u64>,
    terms: &mut T,
    memo: &mut M,
) -> Result<Normal, RunFault>
    requires inside { (T.store terms.old).inside ≡ true }
    requires frames_room { rules.now.code.now.depth ≤ vec_capacity parts.old.frames }
    requires matcher { IsAutomaton rules.now.plan.now.rules parts.old.matcher.automaton }
    requires path_room { rules.now.code.now.depth ≤ vec_capacity window.old.path }
    requires window { 0 < length window.old.depths.items }
    requires ready { IsReady rules.now.plan.now rules.now.code.now (T.store terms.old) }
    requires no_variables { IsGround term.now }
    requires plain { IsPlain rules.now.plan.now.widest term.now }
    requires memory { WasRight rules.now.plan.now.rules (T.store terms.old).built (M.map memo.old) epoch.old
        (T.store terms.old) }
    ensures state { IfOk result (λ end. CachingEnds rules.now.plan.now rules.now.code.now (T.store terms.old) term.now
        parts.old.left (M.map memo.new) epoch.new (T.store terms.new) end) }
    ensures fault { IfErr result (λ fault. GivesUpCaching rules.now.plan.now rules.now.code.now (T.store terms.old)
        term.now parts.old.left (M.map memo.new) epoch.new (T.store terms.new) fault) }
    ensures frames_room { vec_capacity parts.new.frames ≡ vec_capacity parts.old.frames }
    ensures matcher { parts.new.matcher.automaton ≡ parts.old.matcher.automaton }
    ensures path_room { rules.now.code.now.depth ≤ vec_capacity window.new.path }
    ensures window { 0 < length window.new.depths.items }
    ensures same { T.same terms.old terms.new }
{
    let _ = terms.depth();
    let count = term.node_count();
    window.from = usize::MAX;
    let mut at = 0usize;
    'nodes: while at < count {
        let down = depth_at(term, rules.code.depth, at, window);
        let node = Node { at, down };
        match cache_node(rules, parts, term, node, epoch, terms, memo)? {
            Normal::Value { left } => parts.left = left,
            end => return Ok(end),
        }
        at += 1;
    }
    Ok(Normal::Value { left: parts.left })
}
