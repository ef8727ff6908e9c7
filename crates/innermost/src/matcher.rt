//! Finding the rule that matches a tree.

ghost use Rattle.std.specs.Prelude.{◌≡◌, ℕ, ◌<◌, ◌≤◌, length, map, All, IfOk, IfSome, OnSome, Some, None, unwrap_or, true, vec_capacity};
ghost use Rattle.terms_api.specs.Terms.{IsHeld, tree_at};
ghost use Rattle.rule_match.specs.Planned.{match_at};
ghost use Rattle.rule_automaton.specs.Automata.{IsAutomaton};
ghost use Rattle.rule_automaton.specs.Rows.{rows_at};
ghost use Rattle.rule_automaton.specs.Running.{made};
ghost use Rattle.rule_automaton.specs.Shapes.{variables_at};
ghost use Rattle.innermost.specs.Matchers.{HasPlaces, HasRows, bound_rows};
ghost use Rattle.innermost.specs.Tasks.{IsCandidateFor};

use faults::Memory;
use rule_automaton::{Automaton, Places};
use rule_match::Plan;
use std::alloc::Global;
use std::marker::Model;
use term_model::Row;
use terms_api::Terms;

/// The matching automaton of a plan, rows for its places, and the rows that were copied last.
#[derive(Drop)]
pub(crate) struct Matcher {
    automaton: Automaton,
    places: Places,
    rows: Vec<Row>,
}

impl Model for Matcher {
    ghost use Rattle.std.specs.Prelude.{◌≤◌, length, vec_capacity};
    ghost use Rattle.rule_automaton.specs.Running.{made};
    ghost use Rattle.innermost.specs.Matchers.{Matching, HasPlaces};

    ghost Value = { Matching };

    ghost view = { λ m. record { automaton = made m.automaton; placed = m.places.rows.items; rows = m.rows.items } };

    ghost invariant = { λ m. ((made m.automaton).places ≤ length m.places.rows.items) × HasPlaces (vec_capacity m.rows) (made m.automaton) };
}

/// The greatest number of variables of a rule.
fn most_variables(plan: &Plan, automaton: &Automaton) -> usize
    requires { IsAutomaton plan.now.rules (made automaton.now) }
    ensures { HasPlaces result (made automaton.now) }
{
    let mut most = 0;
    for rule in 0..plan.rules().len() {
        let places = automaton.variables(rule as u32);
        let count = places.len();
        most = most.max(count);
    }
    most
}

/// Puts the rows at some places into a list, in order.
fn copy_rows(rows: &[Row], places: &[u32], bound: &mut Vec<Row>)
    requires within { All (λ p. p < length rows.now) places.now }
    requires room { length places.now ≤ vec_capacity bound.old }
    ensures rows { bound.new.items ≡ rows_at rows.now places.now }
    ensures room { vec_capacity bound.new ≡ vec_capacity bound.old }
{
    bound.clear();
    for place in places {
        let row = rows[*place as usize];
        bound.push_reserved(row);
    }
}

impl Matcher {
    /// A matcher by the rules of a plan.
    pub(crate) fn of(alloc: Global, plan: &Plan) -> Result<Self, Memory>
        ensures { IfOk result (λ matcher. IsAutomaton plan.now.rules matcher.automaton) }
    {
        let automaton = Automaton::of(alloc, plan)?;
        let places = Places::of(alloc, &automaton)?;
        let most = most_variables(plan, &automaton);
        Ok(Matcher {
            automaton,
            places,
            rows: Vec::with_capacity(alloc, most)?,
        })
    }

    /// The rows of the places, which a search fills.
    pub(crate) fn placed(&self) -> &[Row]
        ensures { result.now ≡ self.now.placed }
    {
        self.places.rows()
    }

    /// The places of a rule's variables, in their order.
    pub(crate) fn variables(&self, rule: u32) -> &[u32]
        requires { rule < length self.now.automaton.shapes }
        ensures { result.now ≡ variables_at self.now.automaton.shapes rule }
    {
        self.automaton.variables(rule)
    }

    /// The rows that were copied last: those that the rule that `find_rule` found last binds its
    /// variables to, in their order.
    pub(crate) fn rows(&self) -> &[Row]
        ensures { result.now ≡ self.now.rows }
    {
        &self.rows
    }

    /// The first of a rule and those after it whose left side matches the tree of a held row. The
    /// places of its variables have the bound rows. The rule has the head of the tree.
    #[inline(always)]
    pub(crate) fn find<T: Terms>(
        &mut self,
        plan: &Plan,
        first: Option<u32>,
        row: Row,
        terms: &mut T,
    ) -> Option<u32>
        requires inside { (T.store terms.old).inside ≡ true }
        requires automaton { IsAutomaton plan.now.rules self.old.automaton }
        requires held { IsHeld (T.store terms.old) row }
        requires first { IsCandidateFor plan.now first (tree_at (T.store terms.old) row) }
        ensures found { IfSome result (λ rule. (rule < length plan.now.rules)
            × (match_at plan.now.rules rule (tree_at (T.store terms.old) row)
            ≡ Some (map (tree_at (T.store terms.old)) (bound_rows self.new rule)))) }
        ensures candidate { IsCandidateFor plan.now result (tree_at (T.store terms.old) row) }
        ensures passed { (k : ℕ) → unwrap_or first (length plan.now.rules) ≤ k
            → k < unwrap_or result (length plan.now.rules)
            → match_at plan.now.rules k (tree_at (T.store terms.old) row) ≡ None }
        ensures later { unwrap_or first (length plan.now.rules)
            ≤ unwrap_or result (length plan.now.rules) }
        ensures held { IfSome result (λ rule. All (IsHeld (T.store terms.old))
            (bound_rows self.new rule)) }
        ensures placed { IfSome result (HasRows self.new) }
        ensures automaton { self.new.automaton ≡ self.old.automaton }
        ensures unchanged { T.store terms.new ≡ T.store terms.old }
        ensures same { T.same terms.old terms.new }
    {
        let _ = plan.rules();
        let Some(from) = first else {
            return None;
        };
        let Some(rule) = self
            .automaton
            .find_rule(plan, from, row, terms, &mut self.places)
        else {
            return None;
        };
        Some(rule)
    }

    /// The first of a rule and those after it whose left side matches the tree of a held row; its
    /// rows are copied. The rule has the head of the tree.
    pub(crate) fn find_rule<T: Terms>(
        &mut self,
        plan: &Plan,
        first: Option<u32>,
        row: Row,
        terms: &mut T,
    ) -> Option<u32>
        requires inside { (T.store terms.old).inside ≡ true }
        requires automaton { IsAutomaton plan.now.rules self.old.automaton }
        requires held { IsHeld (T.store terms.old) row }
        requires first { IsCandidateFor plan.now first (tree_at (T.store terms.old) row) }
        ensures found { IfSome result (λ rule. (rule < length plan.now.rules)
            × (match_at plan.now.rules rule (tree_at (T.store terms.old) row)
            ≡ Some (map (tree_at (T.store terms.old)) self.new.rows))) }
        ensures candidate { IsCandidateFor plan.now result (tree_at (T.store terms.old) row) }
        ensures passed { (k : ℕ) → unwrap_or first (length plan.now.rules) ≤ k
            → k < unwrap_or result (length plan.now.rules)
            → match_at plan.now.rules k (tree_at (T.store terms.old) row) ≡ None }
        ensures later { unwrap_or first (length plan.now.rules)
            ≤ unwrap_or result (length plan.now.rules) }
        ensures held { OnSome result (All (IsHeld (T.store terms.old)) self.new.rows) }
        ensures automaton { self.new.automaton ≡ self.old.automaton }
        ensures unchanged { T.store terms.new ≡ T.store terms.old }
        ensures same { T.same terms.old terms.new }
    {
        let Some(rule) = self.find(plan, first, row, terms) else {
            return None;
        };
        let variables = self.automaton.variables(rule);
        copy_rows(self.places.rows(), variables, &mut self.rows);
        Some(rule)
    }
}
