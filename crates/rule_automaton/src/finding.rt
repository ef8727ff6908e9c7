//! Finding the first rule that matches.

ghost use Rattle.std.specs.Prelude.{◌≡◌, ℕ, ◌<◌, ◌≤◌, length, true, false, All, Contains, IfSome, IfNone, slice_index_or};
ghost use Rattle.std.specs.List.{list_all};
ghost use Rattle.term_model.specs.Tree.{Tree};
ghost use Rattle.term_model.specs.declared.Head.TheVariants.{App};
ghost use Rattle.terms_api.specs.Terms.{Store, IsSound};
ghost use Rattle.rule_automaton.specs.Automata.{part, AreInOrder};
ghost use Rattle.rule_automaton.specs.declared.states.State.{State};
ghost use Rattle.rule_automaton.specs.Running.{made, Asked, IsBegun, IsRun, IsNext, IsAnswer, IsReady, AreTested, IsTried, IsAnswerOf, have_one_row, is_way_of};

use crate::Automaton;
use crate::rows::fill;
use crate::shapes::{Pair, Test};
use crate::states::{Node, Op, Way, key_of};
use rule_match::stands_at;
use term_model::{Head, Row, Symbol};
use terms_api::Terms;

/// What comes after a state: an answer, or another state.
#[derive(Clone, Copy)]
pub(crate) enum Next {
    End(Option<u32>),
    On(usize),
}

/// Whether the places of each pair have one row.
fn have_one_row(pairs: &[Pair], rows: &[Row]) -> bool
    requires { All (λ (p : Pair). (p.first < length rows.now)
        × (p.second < length rows.now)) pairs.now }
    ensures { result ≡ list_all (λ (p : Pair). have_one_row rows.now p) pairs.now }
{
    for pair in pairs {
        if rows[pair.first as usize].0 != rows[pair.second as usize].0 {
            return false;
        }
    }
    true
}

/// How many ways are looked at one after another.
const FEW: usize = 4;

/// The way of a symbol over so many trees, of ways that are looked at one after another.
#[inline(always)]
fn find_in_turn(ways: &[Way], symbol: Symbol, count: u32) -> Option<Way>
    ensures some { IfSome result (λ way. Contains ways.now way
        × (is_way_of (App symbol) count way ≡ true)) }
    ensures none { IfNone result
        (All (λ (w : Way). is_way_of (App symbol) count w ≡ false) ways.now) }
{
    for way in ways {
        if way.symbol.0 == symbol.0 && way.count == count {
            return Some(*way);
        }
    }
    None
}

/// The way of a symbol over so many trees, of ways in order.
fn find_by_halves(ways: &[Way], symbol: Symbol, count: u32) -> Option<Way>
    requires { AreInOrder ways.now }
    ensures some { IfSome result (λ way. Contains ways.now way
        × (is_way_of (App symbol) count way ≡ true)) }
    ensures none { IfNone result
        (All (λ (w : Way). is_way_of (App symbol) count w ≡ false) ways.now) }
{
    let key = key_of(symbol, count);
    let mut low = 0;
    let mut high = ways.len();
    'halves: while low < high {
        let middle = low + (high - low) / 2;
        let way = ways[middle];
        if way.symbol.0 == symbol.0 && way.count == count {
            return Some(way);
        }
        if key_of(way.symbol, way.count) < key {
            low = middle + 1;
        } else {
            high = middle;
        }
    }
    None
}

/// The way of a head over so many trees, of ways in order.
#[inline(always)]
fn find_way(ways: &[Way], head: Head, count: u32) -> Option<Way>
    requires { AreInOrder ways.now }
    ensures some { IfSome result (λ way. Contains ways.now way
        × (is_way_of head count way ≡ true)) }
    ensures none { IfNone result (All (λ (w : Way). is_way_of head count w ≡ false) ways.now) }
{
    let Head::App(symbol) = head else {
        return None;
    };
    if ways.len() > FEW {
        return find_by_halves(ways, symbol, count);
    }
    find_in_turn(ways, symbol, count)
}

/// Whether all tests hold, made one after another. The arguments of each node that was read are
/// put at their places.
fn test_all<T: Terms>(tests: &[Test], terms: &mut T, rows: &mut [Row]) -> bool
    requires inside { (T.store terms.old).inside ≡ true }
    requires ready { (at : ℕ → Tree) × IsReady (T.store terms.old) at rows.old tests.now }
    ensures tested { (at : ℕ → Tree) → IsReady (T.store terms.old) at rows.old tests.now
        → AreTested (T.store terms.old) at rows.new tests.now result }
    ensures unchanged { T.store terms.new ≡ T.store terms.old }
    ensures same { T.same terms.old terms.new }
{
    for test in tests {
        let row = rows[test.place as usize];
        if !stands_at(terms, row, test.symbol, test.count) {
            return false;
        }
        fill(row, test.base, test.count, terms, rows);
    }
    true
}

/// Whether a rule matches, by its own tests alone.
fn try_rule<T: Terms>(automaton: &Automaton, rule: u32, terms: &mut T, rows: &mut [Row]) -> bool
    requires inside { (T.store terms.old).inside ≡ true }
    requires sound { IsSound (T.store terms.old) }
    requires begun { (m : Asked) × IsBegun (made automaton.now) (T.store terms.old) rows.old m }
    requires rule { rule < length automaton.now.shapes.items }
    ensures tried { (m : Asked) (b : IsBegun (made automaton.now) (T.store terms.old) rows.old m)
        → IsTried (made automaton.now) (T.store terms.old) rows.old rows.new m b rule result }
    ensures unchanged { T.store terms.new ≡ T.store terms.old }
    ensures same { T.same terms.old terms.new }
{
    let shape = &automaton.shapes[rule as usize];
    if !test_all(&shape.tests, terms, rows) {
        return false;
    }
    have_one_row(&shape.pairs, rows)
}

/// The first of the rules in a part of the list that matches, each by its own tests.
fn in_turn<T: Terms>(
    automaton: &Automaton,
    from: usize,
    to: usize,
    terms: &mut T,
    rows: &mut [Row],
) -> Option<u32>
    requires inside { (T.store terms.old).inside ≡ true }
    requires sound { IsSound (T.store terms.old) }
    requires begun { (m : Asked) × IsBegun (made automaton.now) (T.store terms.old) rows.old m }
    requires order { from ≤ to }
    requires within { to ≤ length automaton.now.rules.items }
    ensures answer { (m : Asked) → IsBegun (made automaton.now) (T.store terms.old) rows.old m
        → IsAnswerOf (part automaton.now.rules.items from to) (made automaton.now)
        (T.store terms.old) rows.new m result }
    ensures unchanged { T.store terms.new ≡ T.store terms.old }
    ensures same { T.same terms.old terms.new }
{
    for place in from..to {
        let rule = automaton.rules[place];
        if try_rule(automaton, rule, terms, rows) {
            return Some(rule);
        }
    }
    None
}

/// Where it goes on from a state at which a node is read.
fn read<T: Terms>(
    automaton: &Automaton,
    at: usize,
    node: Node,
    terms: &mut T,
    rows: &mut [Row],
) -> usize
    requires inside { (T.store terms.old).inside ≡ true }
    requires run { (m : Asked) × IsRun (made automaton.now) (T.store terms.old) rows.old m at }
    requires op { (d : State) → (slice_index_or automaton.now.states.items at d).op
        ≡ Op.Read node }
    ensures next { (m : Asked) → IsRun (made automaton.now) (T.store terms.old) rows.old m at
        → (at < result) × IsRun (made automaton.now) (T.store terms.old) rows.new m result }
    ensures unchanged { T.store terms.new ≡ T.store terms.old }
    ensures same { T.same terms.old terms.new }
{
    let row = rows[node.place as usize];
    let (head, count) = terms.node(row);
    let Some(way) = find_way(&automaton.ways[node.first..node.last], head, count) else {
        return node.other;
    };
    fill(row, way.base, count, terms, rows);
    way.to
}

/// What comes after a state of which all tests of the first rule hold.
fn compare(automaton: &Automaton, at: usize, from: usize, other: usize, rows: &[Row]) -> Next
    requires run { (s : Store) × (m : Asked) × IsRun (made automaton.now) s rows.now m at }
    requires state { (d : State)
        → ((slice_index_or automaton.now.states.items at d).from ≡ from)
        × ((slice_index_or automaton.now.states.items at d).op ≡ Op.Compare other) }
    ensures next { (s : Store) (m : Asked) → IsSound s
        → IsRun (made automaton.now) s rows.now m at
        → IsNext (made automaton.now) s rows.now m at result }
{
    let rule = automaton.rules[from];
    if have_one_row(&automaton.shapes[rule as usize].pairs, rows) {
        return Next::End(Some(rule));
    }
    Next::On(other)
}

/// What comes after a state.
fn step<T: Terms>(automaton: &Automaton, at: usize, terms: &mut T, rows: &mut [Row]) -> Next
    requires inside { (T.store terms.old).inside ≡ true }
    requires sound { IsSound (T.store terms.old) }
    requires run { (m : Asked) × IsRun (made automaton.now) (T.store terms.old) rows.old m at }
    ensures next { (m : Asked) → IsRun (made automaton.now) (T.store terms.old) rows.old m at
        → IsNext (made automaton.now) (T.store terms.old) rows.new m at result }
    ensures unchanged { T.store terms.new ≡ T.store terms.old }
    ensures same { T.same terms.old terms.new }
{
    let state = automaton.states[at];
    match state.op {
        Op::Found => Next::End(Some(automaton.rules[state.from])),
        Op::Compare(other) => compare(automaton, at, state.from, other, rows),
        Op::Read(node) => Next::On(read(automaton, at, node, terms, rows)),
        Op::Turn => Next::End(in_turn(automaton, state.from, state.to, terms, rows)),
    }
}

/// From a state on to one at which no node is read.
#[inline(always)]
fn read_on<T: Terms>(automaton: &Automaton, first: usize, terms: &mut T, rows: &mut [Row]) -> usize
    requires inside { (T.store terms.old).inside ≡ true }
    requires run { (m : Asked) × IsRun (made automaton.now) (T.store terms.old) rows.old m first }
    ensures run { (m : Asked) → IsRun (made automaton.now) (T.store terms.old) rows.old m first
        → (first ≤ result) × IsRun (made automaton.now) (T.store terms.old) rows.new m result }
    ensures unchanged { T.store terms.new ≡ T.store terms.old }
    ensures same { T.same terms.old terms.new }
{
    let mut at = first;
    'reads: while let Op::Read(node) = automaton.states[at].op {
        at = read(automaton, at, node, terms, rows);
    }
    at
}

/// From a state on to an answer.
pub(crate) fn run<T: Terms>(
    automaton: &Automaton,
    first: usize,
    terms: &mut T,
    rows: &mut [Row],
) -> Option<u32>
    requires inside { (T.store terms.old).inside ≡ true }
    requires sound { IsSound (T.store terms.old) }
    requires run { (m : Asked) × IsRun (made automaton.now) (T.store terms.old) rows.old m first }
    ensures answer { (m : Asked) → IsRun (made automaton.now) (T.store terms.old) rows.old m first
        → IsAnswer (made automaton.now) (T.store terms.old) rows.new m result }
    ensures unchanged { T.store terms.new ≡ T.store terms.old }
    ensures same { T.same terms.old terms.new }
{
    let mut at = first;
    'states: loop {
        let reached = read_on(automaton, at, terms, rows);
        match step(automaton, reached, terms, rows) {
            Next::End(answer) => return answer,
            Next::On(next) => at = next,
        }
    }
}
