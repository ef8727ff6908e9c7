//! The machine, and normalizing a term.

ghost use Rattle.std.specs.Prelude.{◌≡◌, ◌+◌, ◌≤◌, length, IfOk, true};
ghost use Rattle.term_model.specs.Tree.{IsGround};
ghost use Rattle.terms_api.specs.Terms.{IsSound};
ghost use Rattle.rewrite_model.specs.Evaluation.{evaluation};
ghost use Rattle.rewrite_model.specs.Built.{need};
ghost use Rattle.rewrite_model.specs.Outermost.{outermost as outermost_of, outermost_built};
ghost use Rattle.rule_match.specs.Planned.{IsPlain};
ghost use Rattle.innermost.specs.Normalized.{Answers, Builds, FaultOnlyWhereRefused, SweepsAtMost, LoadsNeedAtMost, KeepsNumbers};
ghost use Rattle.innermost.specs.BuiltTrees.{BuildsTrees};
ghost use Rattle.innermost.specs.Remembered.{AreRight, BuildsCached};
ghost use Rattle.innermost.specs.Traced.{TracedAnswers, TracedBuilds, RefusedOnlyWhereTold, TracedSweeps, TellsReplacements};
ghost use Rattle.innermost.specs.Machines.{IsFor, settled};

use crate::caching::evaluate_with;
use crate::evaluating::evaluate;
use crate::frames::{Parts, Rules};
use crate::outward::rewrite;
use crate::remembering::refresh;
use crate::spots::Spot;
use crate::trail::Telling;
use crate::windows::Window;
use crate::{Event, Memo, Normal, RunFault, TraceFault, tracing};
use faults::Memory;
use rule_code::{Code, code_plan};
use rule_match::Plan;
use std::alloc::Global;
use std::marker::Model;
use term_model::Flat;
use terms_api::Terms;

/// A machine that normalizes terms by the rules of one plan, with stacks of its own.
#[derive(Drop)]
pub struct Machine {
    code: Code,
    parts: Parts,
    window: Window,
    spots: Vec<Spot>,
    telling: Telling,
}

impl Model for Machine {
    ghost use Rattle.std.specs.Prelude.{◌<◌, ◌≤◌, length, vec_capacity};
    ghost use Rattle.innermost.specs.BuiltTrees.{BuildsTrees};
    ghost use Rattle.innermost.specs.Machines.{Made};
    ghost use Rattle.rule_code.specs.Ops.{AreOps};

    ghost Value = { Made };

    ghost view = { λ m. record { steps = m.code.steps.items; starts = m.code.starts.items; depth = m.code.depth; automaton = m.parts.matcher.automaton } };

    ghost invariant = { λ m. (m.code.depth ≤ vec_capacity m.parts.frames) × (m.code.depth ≤ vec_capacity m.window.path) × (0 < length m.window.depths.items) × (m.code.depth ≤ vec_capacity m.spots)
        × AreOps m.code.ops.items m.code.steps.items };
}

impl Machine {
    /// A machine for a plan that evaluates terms in so much room. Each evaluation that is under way
    /// at a time takes room, so there is a place for each. After this `normalize_traced` alone
    /// takes memory.
    pub fn new(alloc: Global, plan: &Plan, depth: u32) -> Result<Self, Memory>
        ensures plan { IfOk result (λ machine. IsFor plan.now machine) }
        ensures depth { IfOk result (λ machine. machine.depth ≡ depth) }
    {
        let room = depth as usize;
        let spots = Vec::with_capacity(alloc, room)?;
        let window = Window::of(alloc, room)?;
        let code = code_plan(alloc, plan, depth)?;
        Ok(Machine {
            parts: Parts::of(alloc, plan, room)?,
            code,
            window,
            spots,
            telling: Telling::new(alloc),
        })
    }

    /// Normalizes a term by leftmost innermost rewriting. A value is on top of the stack, and after
    /// any other answer the stack is as it was. It takes no memory.
    pub fn normalize<T: Terms>(
        &mut self,
        plan: &Plan,
        term: &Flat,
        fuel: u64,
        terms: &mut T,
    ) -> Result<Normal, RunFault>
        requires inside { (T.store terms.old).inside ≡ true }
        requires machine { IsFor plan.now self.old }
        requires no_variables { IsGround term.now }
        requires plain { IsPlain plan.now.widest term.now }
        requires wide { plan.now.widest ≤ (T.store terms.old).widest }
        requires free { length (T.store terms.old).stack + self.old.depth
            ≤ (T.store terms.old).room }
        ensures answer { Answers (evaluation plan.now.rules term.now fuel self.old.depth).end
            (T.store terms.old) (T.store terms.new) result }
        ensures built { Builds (evaluation plan.now.rules term.now fuel self.old.depth).notes
            (T.store terms.old) (T.store terms.new) result }
        ensures faults { FaultOnlyWhereRefused (T.store terms.old) (T.store terms.new) result }
        ensures sweeps { SweepsAtMost (T.store terms.old) (T.store terms.new) result }
        ensures load { LoadsNeedAtMost (need plan.now.rules term.now fuel self.old.depth)
            (T.store terms.old) (T.store terms.new) }
        ensures numbers { KeepsNumbers (T.store terms.old) (T.store terms.new) }
        ensures sound { IsSound (T.store terms.new) }
        ensures machine { self.new ≡ self.old }
        ensures same { T.same terms.old terms.new }
    {
        let base = terms.depth();
        let _ = plan.rules();
        let _ = self.code.steps.len();
        self.parts.left = fuel;
        let end = evaluate(
            plan,
            &self.code,
            &mut self.parts,
            &mut self.window,
            term,
            terms,
        );
        settle(end, base, terms)
    }

    /// Normalizes a term as `normalize` does, with a memory of results of reductions, whose pairs
    /// are right and stay so. At a node of the term whose tree it knows, the value is taken where
    /// there is as much fuel and room as the memory says, and nothing of that reduction is built
    /// again. Where rows may have been lost, and where the store has no epoch, the memory forgets
    /// all.
    pub fn normalize_with<T: Terms, M: Memo>(
        &mut self,
        plan: &Plan,
        term: &Flat,
        fuel: u64,
        terms: &mut T,
        memo: &mut M,
    ) -> Result<Normal, RunFault>
        requires inside { (T.store terms.old).inside ≡ true }
        requires machine { IsFor plan.now self.old }
        requires no_variables { IsGround term.now }
        requires plain { IsPlain plan.now.widest term.now }
        requires wide { plan.now.widest ≤ (T.store terms.old).widest }
        requires free { length (T.store terms.old).stack + self.old.depth
            ≤ (T.store terms.old).room }
        requires memory { AreRight plan.now.rules (T.store terms.old).built (T.store terms.old)
            (M.map memo.old) }
        ensures answer { Answers (evaluation plan.now.rules term.now fuel self.old.depth).end
            (T.store terms.old) (T.store terms.new) result }
        ensures built { BuildsCached plan.now.rules
            (evaluation plan.now.rules term.now fuel self.old.depth).notes
            (T.store terms.old) (T.store terms.new) result }
        ensures memory { AreRight plan.now.rules (T.store terms.new).built (T.store terms.new)
            (M.map memo.new) }
        ensures faults { FaultOnlyWhereRefused (T.store terms.old) (T.store terms.new) result }
        ensures sweeps { SweepsAtMost (T.store terms.old) (T.store terms.new) result }
        ensures load { LoadsNeedAtMost (need plan.now.rules term.now fuel self.old.depth)
            (T.store terms.old) (T.store terms.new) }
        ensures numbers { KeepsNumbers (T.store terms.old) (T.store terms.new) }
        ensures sound { IsSound (T.store terms.new) }
        ensures machine { self.new ≡ self.old }
        ensures same { T.same terms.old terms.new }
    {
        let base = terms.depth();
        let _ = plan.rules();
        let _ = self.code.steps.len();
        self.parts.left = fuel;
        let mut epoch = terms.epoch();
        let rules = Rules {
            plan,
            code: &self.code,
        };
        let end = evaluate_with(
            &rules,
            &mut self.parts,
            &mut self.window,
            term,
            &mut epoch,
            terms,
            memo,
        );
        let _ = refresh(&mut epoch, terms, memo);
        settle(end, base, terms)
    }

    /// Normalizes a term as `normalize` does, and appends the events of what it replaces: moves of
    /// a cursor that begins at the root, no more than are needed, and uses of rules where it
    /// stands. By rules with conditions what is appended says nothing. It takes memory for the
    /// events and for the way to the tree that is looked at; after any fault the stack is as it
    /// was, and the events so far stand there.
    pub fn normalize_traced<T: Terms>(
        &mut self,
        plan: &Plan,
        term: &Flat,
        fuel: u64,
        terms: &mut T,
        trace: &mut Vec<Event>,
    ) -> Result<Normal, TraceFault>
        requires inside { (T.store terms.old).inside ≡ true }
        requires machine { IsFor plan.now self.old }
        requires no_variables { IsGround term.now }
        requires plain { IsPlain plan.now.widest term.now }
        requires wide { plan.now.widest ≤ (T.store terms.old).widest }
        requires free { length (T.store terms.old).stack + self.old.depth
            ≤ (T.store terms.old).room }
        ensures answer { TracedAnswers (evaluation plan.now.rules term.now fuel self.old.depth).end
            (T.store terms.old) (T.store terms.new) result }
        ensures built { TracedBuilds (evaluation plan.now.rules term.now fuel self.old.depth).notes
            (T.store terms.old) (T.store terms.new) result }
        ensures faults { RefusedOnlyWhereTold (T.store terms.old) (T.store terms.new) result }
        ensures sweeps { TracedSweeps (T.store terms.old) (T.store terms.new) result }
        ensures load { LoadsNeedAtMost (need plan.now.rules term.now fuel self.old.depth)
            (T.store terms.old) (T.store terms.new) }
        ensures numbers { KeepsNumbers (T.store terms.old) (T.store terms.new) }
        ensures sound { IsSound (T.store terms.new) }
        ensures machine { self.new ≡ self.old }
        ensures same { T.same terms.old terms.new }
        ensures events { TellsReplacements plan.now.rules term.now fuel self.old.depth
            (T.store terms.old) (T.store terms.new) trace.old.items trace.new.items result }
    {
        let base = terms.depth();
        let _ = plan.rules();
        let _ = self.code.steps.len();
        self.parts.left = fuel;
        std::mem::swap(&mut self.telling.events, trace);
        let end = tracing::trace(
            plan,
            &self.code,
            &mut self.parts,
            &mut self.window,
            term,
            terms,
            &mut self.telling,
        );
        std::mem::swap(&mut self.telling.events, trace);
        settle(end, base, terms)
    }

    /// Rewrites a term by leftmost outermost rewriting: each time at the first position from the
    /// root that a rule matches, whatever conditions the rule has. A value is on top of the stack,
    /// and after any other answer the stack is as it was. It takes no memory.
    pub fn outermost<T: Terms>(
        &mut self,
        plan: &Plan,
        term: &Flat,
        fuel: u64,
        terms: &mut T,
    ) -> Result<Normal, RunFault>
        requires inside { (T.store terms.old).inside ≡ true }
        requires machine { IsFor plan.now self.old }
        requires no_variables { IsGround term.now }
        requires plain { IsPlain plan.now.widest term.now }
        requires wide { plan.now.widest ≤ (T.store terms.old).widest }
        requires free { length (T.store terms.old).stack + self.old.depth
            ≤ (T.store terms.old).room }
        ensures answer { Answers (outermost_of plan.now.rules term.now fuel self.old.depth).end
            (T.store terms.old) (T.store terms.new) result }
        ensures built { BuildsTrees (outermost_built plan.now.rules term.now fuel self.old.depth)
            (T.store terms.old) (T.store terms.new) result }
        ensures faults { FaultOnlyWhereRefused (T.store terms.old) (T.store terms.new) result }
        ensures sweeps { SweepsAtMost (T.store terms.old) (T.store terms.new) result }
        ensures numbers { KeepsNumbers (T.store terms.old) (T.store terms.new) }
        ensures sound { IsSound (T.store terms.new) }
        ensures machine { self.new ≡ self.old }
        ensures same { T.same terms.old terms.new }
    {
        let base = terms.depth();
        let _ = plan.rules();
        self.parts.left = fuel;
        let end = rewrite(
            plan,
            self.code.depth,
            &mut self.parts,
            &mut self.spots,
            &mut self.window,
            term,
            terms,
        );
        settle(end, base, terms)
    }
}

/// Leaves the stack as it was, with so many places, where there is no value.
fn settle<T: Terms, F: Copy>(end: Result<Normal, F>, base: u32, terms: &mut T) -> Result<Normal, F>
    requires inside { (T.store terms.old).inside ≡ true }
    requires base { base ≤ length (T.store terms.old).stack }
    requires sound { IsSound (T.store terms.old) }
    ensures end { result ≡ end }
    ensures settled { T.store terms.new ≡ settled (T.store terms.old) base end }
    ensures sound { IsSound (T.store terms.new) }
    ensures same { T.same terms.old terms.new }
{
    if let Ok(Normal::Value { left }) = end {
        return Ok(Normal::Value { left });
    }
    terms.keep(base, 0);
    end
}
