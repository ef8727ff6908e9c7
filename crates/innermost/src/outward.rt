//! Leftmost outermost rewriting of a term.

ghost use Rattle.std.specs.Prelude.{◌≡◌, ◌+◌, ◌-◌, ◌<◌, ◌≤◌, [], length, ◌⊎◌, IfOk, IfErr, IsSome, true, vec_capacity, slice_index_or};
ghost use Rattle.term_model.specs.Tree.{IsGround};
ghost use Rattle.terms_api.specs.Terms.{IsSound};
ghost use Rattle.rewrite_model.specs.Rule.{Rule};
ghost use Rattle.rewrite_model.specs.Outermost.{outermost};
ghost use Rattle.rule_match.specs.Planned.{IsPlain};
ghost use Rattle.rule_automaton.specs.Automata.{IsAutomaton};
ghost use Rattle.innermost.specs.Outward.{EndsAs, WasGivenUp};
ghost use Rattle.innermost.specs.Rewriting.{Run, IsOn, IsReplacing, GoesOn};

use crate::frames::Parts;
use crate::instantiating::instantiate;
use crate::rebuilding::rebuild;
use crate::spots::{Spot, Walk};
use crate::walking::walk;
use crate::windows::Window;
use crate::{Normal, RunFault};
use rule_match::Plan;
use term_model::Flat;
use terms_api::Terms;

/// The right side of a rule.
fn right_of(plan: &Plan, rule: u32) -> &Flat
    requires { rule < length plan.now.rules }
    ensures { (r : Rule) → r ≡ slice_index_or plan.now.rules rule r → result.now ≡ r.right }
{
    plan.rules()[rule as usize].right()
}

/// A rule that matches at the position found, and the room there.
#[derive(Clone, Copy)]
struct Found {
    rule: u32,
    room: u32,
}

/// Puts the tree that a rule makes of the position found in the place of the tree on top, where
/// there is fuel and room; else this is the end.
fn replace<T: Terms>(
    plan: &Plan,
    depth: u32,
    found: Found,
    parts: &mut Parts,
    spots: &mut Vec<Spot>,
    window: &mut Window,
    terms: &mut T,
) -> Result<Option<Normal>, RunFault>
    requires inside { (T.store terms.old).inside ≡ true }
    requires path_room { depth ≤ vec_capacity window.old.path }
    requires window { 0 < length window.old.depths.items }
    requires state { (run : Run)
        × IsReplacing run plan.now depth parts.old.left (T.store terms.old)
        spots.old.items parts.old.matcher.rows found.rule found.room }
    ensures state { IfOk result (λ end. (run : Run)
        → IsReplacing run plan.now depth parts.old.left (T.store terms.old)
        spots.old.items parts.old.matcher.rows found.rule found.room
        → GoesOn run plan.now depth parts.new.left (T.store terms.new) end) }
    ensures fault { IfErr result (λ fault. (run : Run)
        → IsReplacing run plan.now depth parts.old.left (T.store terms.old)
        spots.old.items parts.old.matcher.rows found.rule found.room
        → WasGivenUp run.start (T.store terms.new) run.whole fault) }
    ensures smaller { IfOk result (λ end. parts.new.left + 1 ≡ parts.old.left ⊎ IsSome end) }
    ensures frames_room { vec_capacity parts.new.frames ≡ vec_capacity parts.old.frames }
    ensures matcher { parts.new.matcher.automaton ≡ parts.old.matcher.automaton }
    ensures spots_room { vec_capacity spots.new ≡ vec_capacity spots.old }
    ensures path_room { depth ≤ vec_capacity window.new.path }
    ensures window { 0 < length window.new.depths.items }
    ensures same { T.same terms.old terms.new }
{
    if parts.left == 0 {
        return Ok(Some(Normal::OutOfFuel));
    }
    parts.left -= 1;
    let place = terms.depth() - 1;
    let right = right_of(plan, found.rule);
    let rows = parts.matcher.rows();
    let builds = &mut parts.builds;
    if !instantiate(right, rows, found.room - 1, depth, window, builds, terms)? {
        return Ok(Some(Normal::TooDeep));
    }
    if !rebuild(spots, builds, terms)? {
        return Ok(Some(Normal::TooDeep));
    }
    terms.keep(place, 1);
    Ok(None)
}

/// Rewrites the tree on top once, at the first position from the root that a rule matches. An end
/// where there is none, or no fuel or room.
fn step<T: Terms>(
    plan: &Plan,
    depth: u32,
    parts: &mut Parts,
    spots: &mut Vec<Spot>,
    window: &mut Window,
    terms: &mut T,
) -> Result<Option<Normal>, RunFault>
    requires inside { (T.store terms.old).inside ≡ true }
    requires matcher { IsAutomaton plan.now.rules parts.old.matcher.automaton }
    requires spots_room { depth ≤ vec_capacity spots.old }
    requires path_room { depth ≤ vec_capacity window.old.path }
    requires window { 0 < length window.old.depths.items }
    requires state { (run : Run) × IsOn run plan.now depth parts.old.left (T.store terms.old) }
    ensures state { IfOk result (λ end. (run : Run)
        → IsOn run plan.now depth parts.old.left (T.store terms.old)
        → GoesOn run plan.now depth parts.new.left (T.store terms.new) end) }
    ensures fault { IfErr result (λ fault. (run : Run)
        → IsOn run plan.now depth parts.old.left (T.store terms.old)
        → WasGivenUp run.start (T.store terms.new) run.whole fault) }
    ensures smaller { IfOk result (λ end. parts.new.left + 1 ≡ parts.old.left ⊎ IsSome end) }
    ensures frames_room { vec_capacity parts.new.frames ≡ vec_capacity parts.old.frames }
    ensures spots_room { vec_capacity spots.new ≡ vec_capacity spots.old }
    ensures matcher { parts.new.matcher.automaton ≡ parts.old.matcher.automaton }
    ensures path_room { depth ≤ vec_capacity window.new.path }
    ensures window { 0 < length window.new.depths.items }
    ensures same { T.same terms.old terms.new }
{
    let place = terms.depth() - 1;
    let row = terms.at(place);
    match walk(plan, row, depth, spots, &mut parts.matcher, terms) {
        Walk::Found(rule, room) => {
            let found = Found { rule, room };
            replace(plan, depth, found, parts, spots, window, terms)
        }
        Walk::TooDeep => Ok(Some(Normal::TooDeep)),
        Walk::Same => Ok(Some(Normal::Value { left: parts.left })),
        Walk::On => unreachable!(),
    }
}

/// Builds a term, and rewrites it step by step, with the fuel that is left.
pub(crate) fn rewrite<T: Terms>(
    plan: &Plan,
    depth: u32,
    parts: &mut Parts,
    spots: &mut Vec<Spot>,
    window: &mut Window,
    term: &Flat,
    terms: &mut T,
) -> Result<Normal, RunFault>
    requires inside { (T.store terms.old).inside ≡ true }
    requires matcher { IsAutomaton plan.now.rules parts.old.matcher.automaton }
    requires spots_room { depth ≤ vec_capacity spots.old }
    requires path_room { depth ≤ vec_capacity window.old.path }
    requires window { 0 < length window.old.depths.items }
    requires sound { IsSound (T.store terms.old) }
    requires no_variables { IsGround term.now }
    requires plain { IsPlain plan.now.widest term.now }
    requires wide { plan.now.widest ≤ (T.store terms.old).widest }
    requires free { length (T.store terms.old).stack + depth ≤ (T.store terms.old).room }
    ensures state { IfOk result (λ end. EndsAs (T.store terms.old) (T.store terms.new)
        (outermost plan.now.rules term.now parts.old.left depth) end) }
    ensures fault { IfErr result (λ fault. WasGivenUp (T.store terms.old) (T.store terms.new)
        (outermost plan.now.rules term.now parts.old.left depth) fault) }
    ensures frames_room { vec_capacity parts.new.frames ≡ vec_capacity parts.old.frames }
    ensures spots_room { vec_capacity spots.new ≡ vec_capacity spots.old }
    ensures matcher { parts.new.matcher.automaton ≡ parts.old.matcher.automaton }
    ensures path_room { depth ≤ vec_capacity window.new.path }
    ensures window { 0 < length window.new.depths.items }
    ensures same { T.same terms.old terms.new }
{
    let _ = plan.rules();
    if !instantiate(term, &[], depth, depth, window, &mut parts.builds, terms)? {
        return Ok(Normal::TooDeep);
    }
    'steps: loop {
        match step(plan, depth, parts, spots, window, terms)? {
            Some(end) => return Ok(end),
            None => {}
        }
    }
}
