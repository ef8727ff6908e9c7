//! Building an automaton's states.

ghost use Rattle.std.specs.Prelude.{◌≡◌, ◌+◌, ◌^◌, ◌<◌, ◌≤◌, nat_lt, true, length, All, IfOk, OnOk, slice_index_or};
ghost use Rattle.rule_automaton.specs.Places.{Tabled};
ghost use Rattle.rule_automaton.specs.Automata.{AreStates, kept as kept_of};
ghost use Rattle.std.specs.List.{list_all};
ghost use Rattle.rule_automaton.specs.Shapes.{tests_at};
ghost use Rattle.rule_automaton.specs.Running.{made};
ghost use Rattle.rule_automaton.specs.Building.{with_state, with_way, way_to, AreBased, ReadsOn, IsBuilt, IsAsked, ArePaid, Serves, Decides, IsGrown};

use crate::Automaton;
use crate::asking::{kept, least_of_all, passing, size_of, some_place, words_at};
use crate::shapes::Test;
use crate::states::{Node, Op, State, Way};
use faults::Memory;
use std::alloc::Global;

/// What may still be spent on an automaton: states, places in their lists of rules, and steps.
#[derive(Clone, Copy)]
pub(crate) struct Budget {
    pub states: usize,
    pub rules: usize,
    pub steps: usize,
}

impl Budget {
    /// Takes so many of each. Where one of them is too few, nothing is taken, and it answers false.
    fn take(&mut self, states: usize, rules: usize, steps: usize) -> bool
        ensures taken { result ≡ true → self.new.states + states ≡ self.old.states }
        ensures left { self.new.states ≤ self.old.states }
    {
        if states > self.states || rules > self.rules || steps > self.steps {
            return false;
        }
        self.states -= states;
        self.rules -= rules;
        self.steps -= steps;
        true
    }
}

/// One more state of some rules, which it tries in turn.
fn push_state(automaton: &mut Automaton, rules: &[u32], bound: u32) -> Result<usize, Memory>
    ensures place { IfOk result (λ at. at ≡ length automaton.old.states.items) }
    ensures pushed { OnOk result (made automaton.new
        ≡ with_state (made automaton.old) rules.now bound) }
{
    let from = automaton.rules.len();
    let at = automaton.states.len();
    automaton.rules.extend_from_slice(rules)?;
    let to = automaton.rules.len();
    automaton.states.push(State {
        from,
        to,
        bound,
        op: Op::Turn,
    })?;
    Ok(at)
}

/// One more way, for a symbol that rules ask for at a place, to a new state of those that ask for
/// no other.
fn push_way(
    alloc: Global,
    automaton: &mut Automaton,
    rules: &[u32],
    place: u32,
    word: &Test,
) -> Result<(), Memory>
    requires rules { All (λ r. r < length automaton.old.shapes.items) rules.now }
    requires place { place + 1 < 2 ^ 32 }
    ensures { OnOk result (made automaton.new ≡ with_way (with_state (made automaton.old)
        (kept_of automaton.old.shapes.items place word.now.symbol word.now.count rules.now)
        (place + 1)) (way_to word.now (length automaton.old.states.items))) }
{
    let some = kept(alloc, &automaton.shapes, rules, place, word)?;
    let to = push_state(automaton, &some, place + 1)?;
    automaton.ways.push(Way {
        symbol: word.symbol,
        count: word.count,
        base: word.base,
        to,
    })?;
    Ok(())
}

/// Reads a place: one more way for each symbol that rules ask for there. The rules are tried in
/// turn where the budget is too small.
fn read_place(
    alloc: Global,
    automaton: &mut Automaton,
    rules: &[u32],
    place: u32,
    budget: &mut Budget,
) -> Result<Op, Memory>
    requires rules { All (λ r. r < length automaton.old.shapes.items) rules.now }
    requires place { place + 1 < 2 ^ 32 }
    ensures reads { IfOk result (λ op. (table : Tabled) → AreStates table (made automaton.old)
        → AreBased table automaton.old.shapes.items
        → ReadsOn table (made automaton.old) (made automaton.new) rules.now place op) }
    ensures paid { OnOk result (ArePaid (made automaton.old) budget.old.states
        (made automaton.new) budget.new.states) }
{
    let words = words_at(alloc, &automaton.shapes, rules, place)?;
    let rest = passing(alloc, &automaton.shapes, rules, place)?;
    let count = words.len();
    let listed = rest.len().saturating_mul(count).saturating_add(rules.len());
    let steps = size_of(&automaton.shapes, rules).saturating_mul(count);
    if !budget.take(count + 1, listed, steps) {
        return Ok(Op::Turn);
    }
    let first = automaton.ways.len();
    for word in &words {
        push_way(alloc, automaton, rules, place, word)?;
    }
    let last = automaton.ways.len();
    let other = push_state(automaton, &rest, place + 1)?;
    Ok(Op::Read(Node {
        place,
        first,
        last,
        other,
    }))
}

/// Reads the least place not below a bound that rules ask for, some of which asks for a place.
fn read_least(
    alloc: Global,
    automaton: &mut Automaton,
    rules: &[u32],
    bound: u32,
    place: u32,
    budget: &mut Budget,
) -> Result<Op, Memory>
    requires rules { All (λ r. r < length automaton.old.shapes.items) rules.now }
    requires built { (table : Tabled) × IsBuilt table (made automaton.old) }
    requires asked { IsAsked automaton.old.shapes.items rules.now place }
    ensures serves { IfOk result (λ op. (table : Tabled) → IsBuilt table (made automaton.old)
        → Serves table (made automaton.old) (made automaton.new) rules.now bound op) }
    ensures paid { OnOk result (ArePaid (made automaton.old) budget.old.states
        (made automaton.new) budget.new.states) }
{
    let least = least_of_all(&automaton.shapes, rules, bound, place);
    let op = read_place(alloc, automaton, rules, least, budget)?;
    Ok(op)
}

/// What is done where all tests of the first of some rules hold.
fn use_first(
    automaton: &mut Automaton,
    rules: &[u32],
    bound: u32,
    budget: &mut Budget,
) -> Result<Op, Memory>
    requires some { 0 < length rules.now }
    requires rules { All (λ r. r < length automaton.old.shapes.items) rules.now }
    requires tested { list_all (λ (t : Test). nat_lt t.place bound)
        (tests_at automaton.old.shapes.items (slice_index_or rules.now 0 0)) ≡ true }
    ensures serves { IfOk result (λ op. (table : Tabled) → IsBuilt table (made automaton.old)
        → Serves table (made automaton.old) (made automaton.new) rules.now bound op) }
    ensures paid { OnOk result (ArePaid (made automaton.old) budget.old.states
        (made automaton.new) budget.new.states) }
{
    let first = rules[0] as usize;
    if automaton.shapes[first].pairs.is_empty() {
        return Ok(Op::Found);
    }
    if !budget.take(1, rules.len(), 0) {
        return Ok(Op::Turn);
    }
    let other = push_state(automaton, &rules[1..], bound)?;
    Ok(Op::Compare(other))
}

/// What is done where some rules may still match: the first rule is found where all its tests are
/// below the bound, else the least place is read that they ask for.
fn choose(
    alloc: Global,
    automaton: &mut Automaton,
    rules: &[u32],
    bound: u32,
    budget: &mut Budget,
) -> Result<Op, Memory>
    requires some { 0 < length rules.now }
    requires rules { All (λ r. r < length automaton.old.shapes.items) rules.now }
    requires built { (table : Tabled) × IsBuilt table (made automaton.old) }
    ensures serves { IfOk result (λ op. (table : Tabled) → IsBuilt table (made automaton.old)
        → Serves table (made automaton.old) (made automaton.new) rules.now bound op) }
    ensures paid { OnOk result (ArePaid (made automaton.old) budget.old.states
        (made automaton.new) budget.new.states) }
{
    let first = &automaton.shapes[rules[0] as usize];
    match some_place(&first.tests, bound) {
        Some(place) => read_least(alloc, automaton, rules, bound, place, budget),
        None => use_first(automaton, rules, bound, budget),
    }
}

/// What is done at a state.
fn op_of(
    alloc: Global,
    automaton: &mut Automaton,
    at: usize,
    budget: &mut Budget,
) -> Result<Op, Memory>
    requires at { at < length automaton.old.states.items }
    requires built { (table : Tabled) × IsBuilt table (made automaton.old) }
    ensures decides { IfOk result (λ op. (table : Tabled) → IsBuilt table (made automaton.old)
        → Decides table (made automaton.old) (made automaton.new) at op) }
    ensures paid { OnOk result (ArePaid (made automaton.old) budget.old.states
        (made automaton.new) budget.new.states) }
{
    let state = automaton.states[at];
    let rules = Vec::from_slice(alloc, &automaton.rules[state.from..state.to])?;
    let steps = size_of(&automaton.shapes, &rules).saturating_mul(4);
    if rules.is_empty() || !budget.take(0, 0, steps) {
        return Ok(Op::Turn);
    }
    let op = choose(alloc, automaton, &rules, state.bound, budget)?;
    Ok(op)
}

/// Decides what is done at a state.
fn build_at(
    alloc: Global,
    automaton: &mut Automaton,
    at: usize,
    budget: &mut Budget,
) -> Result<(), Memory>
    requires at { at < length automaton.old.states.items }
    requires built { (table : Tabled) × IsBuilt table (made automaton.old) }
    ensures grown { OnOk result ((table : Tabled) → IsBuilt table (made automaton.old)
        → IsGrown table (made automaton.old) (made automaton.new)) }
    ensures paid { OnOk result (ArePaid (made automaton.old) budget.old.states
        (made automaton.new) budget.new.states) }
{
    let op = op_of(alloc, automaton, at, budget)?;
    automaton.states[at].op = op;
    Ok(())
}

/// Decides what is done at a state where it is marked.
fn build_one(
    alloc: Global,
    automaton: &mut Automaton,
    at: usize,
    marked: bool,
    budget: &mut Budget,
) -> Result<(), Memory>
    requires { (table : Tabled) × IsBuilt table (made automaton.old) }
    ensures grown { OnOk result ((table : Tabled) → IsBuilt table (made automaton.old)
        → IsGrown table (made automaton.old) (made automaton.new)) }
    ensures paid { OnOk result (ArePaid (made automaton.old) budget.old.states
        (made automaton.new) budget.new.states) }
{
    if at >= automaton.states.len() {
        return Ok(());
    }
    if marked {
        return build_at(alloc, automaton, at, budget);
    }
    Ok(())
}

/// Decides what is done at the marked states.
pub(crate) fn build_marked(
    alloc: Global,
    automaton: &mut Automaton,
    marks: &[bool],
    budget: &mut Budget,
) -> Result<(), Memory>
    requires { (table : Tabled) × IsBuilt table (made automaton.old) }
    ensures grown { OnOk result ((table : Tabled) → IsBuilt table (made automaton.old)
        → IsGrown table (made automaton.old) (made automaton.new)) }
    ensures paid { OnOk result (ArePaid (made automaton.old) budget.old.states
        (made automaton.new) budget.new.states) }
{
    for at in 0..marks.len() {
        build_one(alloc, automaton, at, marks[at], budget)?;
    }
    Ok(())
}

/// Decides what is done at the states from one on, below another at most. Rules are tried in turn
/// at the states that are left.
pub(crate) fn build_rest(
    alloc: Global,
    automaton: &mut Automaton,
    first: usize,
    most: usize,
    budget: &mut Budget,
) -> Result<(), Memory>
    requires { (table : Tabled) × IsBuilt table (made automaton.old) }
    ensures grown { OnOk result ((table : Tabled) → IsBuilt table (made automaton.old)
        → IsGrown table (made automaton.old) (made automaton.new)) }
    ensures paid { OnOk result (ArePaid (made automaton.old) budget.old.states
        (made automaton.new) budget.new.states) }
{
    for at in first..most {
        if at >= automaton.states.len() {
            return Ok(());
        }
        build_at(alloc, automaton, at, budget)?;
    }
    Ok(())
}

/// Decides what is done at the marked states, and then at those that were added.
pub(crate) fn build(
    alloc: Global,
    automaton: &mut Automaton,
    marks: &[bool],
    most: usize,
    budget: &mut Budget,
) -> Result<(), Memory>
    requires { (table : Tabled) × IsBuilt table (made automaton.old) }
    ensures grown { OnOk result ((table : Tabled) → IsBuilt table (made automaton.old)
        → IsGrown table (made automaton.old) (made automaton.new)) }
    ensures paid { OnOk result (ArePaid (made automaton.old) budget.old.states
        (made automaton.new) budget.new.states) }
{
    let first = automaton.states.len();
    build_marked(alloc, automaton, marks, budget)?;
    build_rest(alloc, automaton, first, most, budget)?;
    Ok(())
}
