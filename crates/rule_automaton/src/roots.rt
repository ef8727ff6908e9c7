//! Where searches go on from the root.

ghost use Rattle.std.specs.Prelude.{◌≡◌, ◌<◌, length, true, Contains, IfOk, IfSome};
ghost use Rattle.rule_automaton.specs.Automata.{HasStarts, IsRoot, AreRoots};
ghost use Rattle.rule_automaton.specs.Running.{made, Asked, IsRun, IsRooted};

use crate::Automaton;
use crate::rows::fill;
use crate::states::{Op, Way};
use faults::Memory;
use rule_match::Plan;
use std::alloc::Global;
use term_model::{Head, Row, Symbol};
use terms_api::Terms;

/// The first way of a symbol.
fn find_symbol(ways: &[Way], symbol: Symbol) -> Option<Way>
    ensures { IfSome result (λ way. Contains ways.now way × (way.symbol ≡ symbol)) }
{
    for way in ways {
        if way.symbol.0 == symbol.0 {
            return Some(*way);
        }
    }
    None
}

/// The way of a rule's head, where the search from the rule on begins by reading the root.
fn root_of(plan: &Plan, automaton: &Automaton, rule: u32) -> Option<Way>
    requires starts { HasStarts plan.now.rules (made automaton.now) }
    requires rule { rule < length plan.now.rules }
    ensures { IfSome result (IsRoot plan.now.rules (made automaton.now) rule) }
{
    let Some(Head::App(symbol)) = plan.rules()[rule as usize].left().root() else {
        return None;
    };
    let Op::Read(node) = automaton.states[rule as usize].op else {
        return None;
    };
    if node.place != 0 {
        return None;
    }
    find_symbol(&automaton.ways[node.first..node.last], symbol)
}

/// The ways of the heads of all rules.
pub(crate) fn roots_of(
    alloc: Global,
    plan: &Plan,
    automaton: &Automaton,
) -> Result<Vec<Option<Way>>, Memory>
    requires { HasStarts plan.now.rules (made automaton.now) }
    ensures { IfOk result (λ roots. AreRoots plan.now.rules (made automaton.now) roots.items) }
{
    let mut roots = Vec::new(alloc);
    for rule in 0..plan.rules().len() {
        roots.push(root_of(plan, automaton, rule as u32))?;
    }
    Ok(roots)
}

/// The state from which a search by a rule and those after it goes on, of a tree with the rule's
/// head. If the tree has as many arguments as the head's way from the root asks for, they are put
/// at their places, and it is where that way leads; else it is the rule's start.
#[inline(always)]
pub(crate) fn begin<T: Terms>(
    automaton: &Automaton,
    first: u32,
    terms: &mut T,
    rows: &mut [Row],
) -> usize
    requires inside { (T.store terms.old).inside ≡ true }
    requires rooted { (m : Asked)
        × IsRooted (made automaton.now) (T.store terms.old) rows.old m first }
    ensures run { (m : Asked) → IsRooted (made automaton.now) (T.store terms.old) rows.old m first
        → IsRun (made automaton.now) (T.store terms.old) rows.new m result }
    ensures unchanged { T.store terms.new ≡ T.store terms.old }
    ensures same { T.same terms.old terms.new }
{
    let Some(way) = automaton.roots[first as usize] else {
        return first as usize;
    };
    let row = rows[0];
    if terms.count(row) != way.count {
        return first as usize;
    }
    fill(row, way.base, way.count, terms, rows);
    way.to
}
