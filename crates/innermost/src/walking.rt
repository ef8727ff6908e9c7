//! A walk through a term for the first position, from the root, that a rule matches.

ghost use Rattle.std.specs.Prelude.{◌≡◌, ℕ, ◌+◌, ◌*◌, ◌<◌, ◌≤◌, true, vec_capacity};
ghost use Rattle.term_model.specs.Tree.{Tree, nodes};
ghost use Rattle.terms_api.specs.Terms.{IsHeld, tree_at};
ghost use Rattle.rule_automaton.specs.Automata.{IsAutomaton};
ghost use Rattle.innermost.specs.declared.spots.Walk.TheVariants as walk_is;
ghost use Rattle.innermost.specs.Walking.{IsTrying, IsWalk, IsWalking, left_of, walk_left};

use crate::matcher::Matcher;
use crate::spots::{Spot, Walk};
use rule_match::Plan;
use term_model::Row;
use terms_api::Terms;

/// Tries the rules on the tree of a held row. Where none matches it is the last spot.
fn try_at<T: Terms>(
    plan: &Plan,
    row: Row,
    room: u32,
    spots: &mut Vec<Spot>,
    matcher: &mut Matcher,
    terms: &mut T,
) -> Walk
    requires inside { (T.store terms.old).inside ≡ true }
    requires matcher { IsAutomaton plan.now.rules matcher.old.automaton }
    requires state { (depth : ℕ) × (root : Tree) × (depth ≤ vec_capacity spots.old)
        × IsTrying plan.now depth root (T.store terms.old) spots.old.items row room }
    ensures state { (depth : ℕ) (root : Tree)
        → IsTrying plan.now depth root (T.store terms.old) spots.old.items row room
        → IsWalk plan.now depth root (T.store terms.new) spots.new.items matcher.new.rows result }
    ensures smaller { walk_left (T.store terms.new) spots.new.items result
        ≤ left_of (T.store terms.old) spots.old.items
        + 2 * nodes (tree_at (T.store terms.old) row) }
    ensures spots_room { vec_capacity spots.new ≡ vec_capacity spots.old }
    ensures matcher { matcher.new.automaton ≡ matcher.old.automaton }
    ensures unchanged { T.store terms.new ≡ T.store terms.old }
    ensures same { T.same terms.old terms.new }
{
    let _ = plan.rules();
    if room == 0 {
        return Walk::TooDeep;
    }
    let head = terms.head(row);
    match matcher.find_rule(plan, plan.first(head), row, terms) {
        Some(rule) => Walk::Found(rule, room),
        None => {
            spots.push_reserved(Spot {
                row,
                argument: 0,
                room,
            });
            Walk::On
        }
    }
}

/// Goes on with the next argument of the last spot, or leaves the spot where there is none.
fn walk_on<T: Terms>(
    plan: &Plan,
    spots: &mut Vec<Spot>,
    matcher: &mut Matcher,
    terms: &mut T,
) -> Walk
    requires inside { (T.store terms.old).inside ≡ true }
    requires matcher { IsAutomaton plan.now.rules matcher.old.automaton }
    requires state { (depth : ℕ) × (root : Tree) × (depth ≤ vec_capacity spots.old)
        × IsWalking plan.now depth root (T.store terms.old) spots.old.items }
    ensures state { (depth : ℕ) (root : Tree)
        → IsWalking plan.now depth root (T.store terms.old) spots.old.items
        → IsWalk plan.now depth root (T.store terms.new) spots.new.items matcher.new.rows result }
    ensures smaller { walk_left (T.store terms.new) spots.new.items result
        < walk_left (T.store terms.old) spots.old.items walk_is.On }
    ensures spots_room { vec_capacity spots.new ≡ vec_capacity spots.old }
    ensures matcher { matcher.new.automaton ≡ matcher.old.automaton }
    ensures unchanged { T.store terms.new ≡ T.store terms.old }
    ensures same { T.same terms.old terms.new }
{
    let Some(spot) = spots.pop() else {
        return Walk::Same;
    };
    if spot.argument >= terms.count(spot.row) {
        return Walk::On;
    }
    let argument = terms.child(spot.row, spot.argument);
    let begun = spot.argument + 1;
    spots.push_reserved(Spot {
        argument: begun,
        ..spot
    });
    try_at(
        plan,
        argument,
        spot.room.saturating_sub(begun),
        spots,
        matcher,
        terms,
    )
}

/// Walks through the tree of a held row in a room up to the first position that a rule matches.
pub(crate) fn walk<T: Terms>(
    plan: &Plan,
    row: Row,
    depth: u32,
    spots: &mut Vec<Spot>,
    matcher: &mut Matcher,
    terms: &mut T,
) -> Walk
    requires inside { (T.store terms.old).inside ≡ true }
    requires matcher { IsAutomaton plan.now.rules matcher.old.automaton }
    requires spots_room { depth ≤ vec_capacity spots.old }
    requires held { IsHeld (T.store terms.old) row }
    ensures on { result ≡ walk_is.On → ⊥ }
    ensures state { IsWalk plan.now depth (tree_at (T.store terms.old) row)
        (T.store terms.new) spots.new.items matcher.new.rows result }
    ensures spots_room { vec_capacity spots.new ≡ vec_capacity spots.old }
    ensures matcher { matcher.new.automaton ≡ matcher.old.automaton }
    ensures unchanged { T.store terms.new ≡ T.store terms.old }
    ensures same { T.same terms.old terms.new }
{
    spots.clear();
    let mut found = try_at(plan, row, depth, spots, matcher, terms);
    'walk: while let Walk::On = found {
        found = walk_on(plan, spots, matcher, terms);
    }
    found
}
