//! Automata, and rows for their places.

ghost use Rattle.std.specs.Prelude.{◌≡◌, ◌<◌, ◌≤◌, length, true, IfOk, OnOk};
ghost use Rattle.terms_api.specs.Terms.{IsHeld, IsSound, tree_at};
ghost use Rattle.term_model.specs.Tree.{root};
ghost use Rattle.rule_match.specs.Groups.{head_at};
ghost use Rattle.rule_automaton.specs.Shapes.{variables_at};
ghost use Rattle.rule_automaton.specs.Automata.{HasStarts, IsAutomaton};
ghost use Rattle.rule_automaton.specs.Building.{HasFewStates};
ghost use Rattle.rule_automaton.specs.Running.{made, asked, IsAnswer};

use crate::asking::size_of;
use crate::building::{Budget, build};
use crate::finding::run;
use crate::roots::{begin, roots_of};
use crate::shapes::{Shape, numbers_below, shapes_of};
use crate::starting::{firsts_of, group_all, others_of, states_below};
use crate::states::{State, Way};
use crate::table::Table;
use faults::Memory;
use rule_match::Plan;
use std::alloc::Global;
use term_model::Row;
use terms_api::Terms;

/// How often a test may be looked at while an automaton is made: about as many as take a third of a
/// second.
const STEPS: usize = 1 << 27;

/// The matching automaton of a plan: the shapes of its rules, the lists of rules of its states, one
/// after another, its states and their ways, how many places there are, and for each rule the way
/// of its head from the root, if the search from it on begins there.
#[derive(Drop)]
pub struct Automaton {
    pub(crate) shapes: Vec<Shape>,
    pub(crate) rules: Vec<u32>,
    pub(crate) states: Vec<State>,
    pub(crate) ways: Vec<Way>,
    pub(crate) places: u32,
    pub(crate) roots: Vec<Option<Way>>,
}

/// The rows of an automaton's places.
#[derive(Drop)]
pub struct Places {
    pub(crate) rows: Vec<Row>,
}

impl Places {
    /// A row for each place.
    pub fn of(alloc: Global, automaton: &Automaton) -> Result<Self, Memory>
        ensures { IfOk result (λ places.
            (made automaton.now).places ≤ length places.rows.items) }
    {
        Ok(Places {
            rows: vec![in alloc; Row(0); automaton.places as usize]?,
        })
    }

    /// The row of each place, the root's first.
    pub fn rows(&self) -> &[Row]
        ensures { result.now ≡ self.now.rows.items }
    {
        &self.rows
    }
}

impl Automaton {
    /// The automaton of a plan. Memory is wanting where 32 bits don't number its places.
    pub fn of(alloc: Global, plan: &Plan) -> Result<Self, Memory>
        ensures automaton { IfOk result (λ automaton.
            IsAutomaton plan.now.rules (made automaton)) }
        ensures small { IfOk result (λ automaton. HasFewStates (made automaton)) }
    {
        let firsts = firsts_of(alloc, plan)?;
        let mut automaton = Self::in_turn(alloc, plan, &firsts)?;
        automaton.grow(alloc, plan, &firsts)?;
        Ok(automaton)
    }

    /// Decides what is done at the states, and where searches go on from the root.
    fn grow(&mut self, alloc: Global, plan: &Plan, firsts: &[bool]) -> Result<(), Memory>
        requires starts { HasStarts plan.now.rules (made self.old) }
        requires count { length self.old.states.items ≡ length self.old.shapes.items }
        ensures automaton { OnOk result (IsAutomaton plan.now.rules (made self.new)) }
        ensures small { OnOk result (HasFewStates (made self.new)) }
    {
        let _ = plan.rules();
        let others = others_of(alloc, plan)?;
        let all = numbers_below(alloc, self.shapes.len())?;
        let size = size_of(&self.shapes, &all);
        let most = size.saturating_mul(4);
        let mut budget = Budget {
            states: size.saturating_mul(3),
            rules: most.saturating_mul(4),
            steps: STEPS,
        };
        build(alloc, self, firsts, most, &mut budget)?;
        build(alloc, self, &others, most, &mut budget)?;
        let roots = roots_of(alloc, plan, self)?;
        self.roots = roots;
        Ok(())
    }

    /// A state for each rule, which tries it and those after it that have its symbol in turn.
    fn in_turn(alloc: Global, plan: &Plan, firsts: &[bool]) -> Result<Self, Memory>
        requires { length firsts.now ≡ length plan.now.rules }
        ensures starts { IfOk result (λ automaton.
            HasStarts plan.now.rules (made automaton)) }
        ensures count { IfOk result (λ automaton.
            length automaton.states.items ≡ length automaton.shapes.items) }
    {
        let _ = plan.rules();
        let mut table = Table::new(alloc);
        let shapes = shapes_of(alloc, plan, &mut table)?;
        let count = shapes.len();
        let mut rules = numbers_below(alloc, count)?;
        let mut states = states_below(alloc, count)?;
        group_all(plan, firsts, &mut rules, &mut states)?;
        Ok(Automaton {
            shapes,
            rules,
            states,
            ways: Vec::new(alloc),
            places: table.places(),
            roots: Vec::new(alloc),
        })
    }

    /// The places of a rule's variables, in their order. A rule is named by its place in the plan.
    pub fn variables(&self, rule: u32) -> &[u32]
        requires { rule < length (made self.now).shapes }
        ensures { result.now ≡ variables_at (made self.now).shapes rule }
    {
        let shape = &self.shapes[rule as usize];
        &shape.variables
    }

    /// The first of a rule and those after it whose left side matches the tree of a held row, which
    /// has the rule's head, read by the plan's automaton. The places of the found rule's variables
    /// then have the bound rows. It takes no memory.
    pub fn find_rule<T: Terms>(
        &self,
        plan: &Plan,
        first: u32,
        row: Row,
        terms: &mut T,
        places: &mut Places,
    ) -> Option<u32>
        requires inside { (T.store terms.old).inside ≡ true }
        requires automaton { IsAutomaton plan.now.rules (made self.now) }
        requires held { IsHeld (T.store terms.old) row }
        requires first { first < length plan.now.rules }
        requires head { root (tree_at (T.store terms.old) row) ≡ head_at plan.now.rules first }
        requires places { (made self.now).places ≤ length places.old.rows.items }
        ensures answer { IsAnswer (made self.now) (T.store terms.old) places.new.rows.items
            (asked plan.now.rules (tree_at (T.store terms.old) row) first) result }
        ensures places { length places.new.rows.items ≡ length places.old.rows.items }
        ensures unchanged { T.store terms.new ≡ T.store terms.old }
        ensures sound { IsSound (T.store terms.new) }
        ensures same { T.same terms.old terms.new }
    {
        let _ = terms.depth();
        let rows = places.rows.as_mut_slice();
        rows[0] = row;
        let start = begin(self, first, terms, rows);
        run(self, start, terms, rows)
    }
}
