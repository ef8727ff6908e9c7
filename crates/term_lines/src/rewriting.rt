// From a term to its normal form, by the strategy that is asked, with its events or with a memory.
ghost use Rattle.std.specs.Prelude.{◌≡◌, [], IfOk, true, false};
ghost use Rattle.rewrite_model.specs.Built.{need};
ghost use Rattle.innermost.specs.Normalized.{Answers, FaultOnlyWhereRefused, SweepsAtMost, LoadsNeedAtMost, KeepsNumbers};
ghost use Rattle.innermost.specs.Remembered.{AreRight};
ghost use Rattle.terms_api.specs.Terms.{IsSound};
ghost use Rattle.term_lines.specs.Strategies.{ended, BuildsBy};
ghost use Rattle.term_lines.specs.Tracing.{tells, remembers, MayTell, Told};
ghost use Rattle.term_lines.specs.Written.{MayRewrite, IsRewritten, MayRecall};
ghost use Rattle.term_lines.specs.declared.strategy.Strategy.TheVariants.{Innermost};

use crate::{LineStop, Rewriter, Strategy};
use innermost::{Event, Memo, Normal, RunFault, TraceFault};
use rule_match::Plan;
use term_model::Flat;
use terms_api::Terms;

impl Rewriter {
    // Rewrites a term by the strategy that is asked, and tells no events and remembers nothing.
    fn rewrite_untold<T: Terms>(
        &mut self,
        plan: &Plan,
        term: &Flat,
        terms: &mut T,
    ) -> Result<Normal, RunFault>
        requires ready { MayRewrite plan.now self.old.machine term.now (T.store terms.old) }
        ensures answer { Answers
            (ended self.old.strategy plan.now.rules term.now self.old.fuel self.old.machine.depth)
            (T.store terms.old) (T.store terms.new) result }
        ensures built { BuildsBy self.old.strategy false
            plan.now.rules term.now self.old.fuel self.old.machine.depth
            (T.store terms.old) (T.store terms.new) result }
        ensures faults { FaultOnlyWhereRefused (T.store terms.old) (T.store terms.new) result }
        ensures sweeps { SweepsAtMost (T.store terms.old) (T.store terms.new) result }
        ensures load { self.old.strategy ≡ Innermost → LoadsNeedAtMost
            (need plan.now.rules term.now self.old.fuel self.old.machine.depth)
            (T.store terms.old) (T.store terms.new) }
        ensures numbers { KeepsNumbers (T.store terms.old) (T.store terms.new) }
        ensures sound { IsSound (T.store terms.new) }
        ensures rewriter { self.new ≡ self.old }
        ensures same { T.same terms.old terms.new }
    {
        match self.strategy {
            Strategy::Innermost => self.machine.normalize(plan, term, self.fuel, terms),
            Strategy::Outermost => self.machine.outermost(plan, term, self.fuel, terms),
        }
    }

    // The same, with the stop of a line for a fault.
    fn rewrite_plain<T: Terms>(
        &mut self,
        plan: &Plan,
        term: &Flat,
        terms: &mut T,
    ) -> Result<Normal, LineStop>
        requires ready { MayRewrite plan.now self.old.machine term.now (T.store terms.old) }
        ensures rewritten { IsRewritten self.old.strategy false false
            plan.now.rules term.now self.old.fuel self.old.machine.depth
            (T.store terms.old) (T.store terms.new) result }
        ensures sound { IsSound (T.store terms.new) }
        ensures rewriter { self.new ≡ self.old }
        ensures same { T.same terms.old terms.new }
    {
        match self.rewrite_untold(plan, term, terms) {
            Ok(normal) => Ok(normal),
            Err(RunFault::StoreFull) => Err(LineStop::StoreFull),
            Err(RunFault::Worn) => Err(LineStop::Worn),
        }
    }

    // Rewrites a term innermost, and tells its events.
    fn rewrite_told<T: Terms>(
        &mut self,
        plan: &Plan,
        term: &Flat,
        terms: &mut T,
        events: &mut Vec<Event>,
    ) -> Result<Normal, LineStop>
        requires ready { MayRewrite plan.now self.old.machine term.now (T.store terms.old) }
        requires none { events.old.items ≡ [] }
        ensures rewritten { IsRewritten Innermost true false
            plan.now.rules term.now self.old.fuel self.old.machine.depth
            (T.store terms.old) (T.store terms.new) result }
        ensures sound { IsSound (T.store terms.new) }
        ensures rewriter { self.new ≡ self.old }
        ensures same { T.same terms.old terms.new }
        ensures events { MayTell true plan.now.rules
            → IfOk result (Told true plan.now.rules term.now self.old.fuel events.new.items) }
    {
        match self
            .machine
            .normalize_traced(plan, term, self.fuel, terms, events)
        {
            Ok(normal) => Ok(normal),
            Err(TraceFault::StoreFull) => Err(LineStop::StoreFull),
            Err(TraceFault::Worn) => Err(LineStop::Worn),
            Err(TraceFault::Memory) => Err(LineStop::Memory),
        }
    }

    // Rewrites a term innermost, with a memory of results, and tells no events.
    fn rewrite_remembered<T: Terms, M: Memo>(
        &mut self,
        plan: &Plan,
        term: &Flat,
        terms: &mut T,
        memo: &mut M,
    ) -> Result<Normal, LineStop>
        requires ready { MayRewrite plan.now self.old.machine term.now (T.store terms.old) }
        requires memory { AreRight plan.now.rules (T.store terms.old).built
            (T.store terms.old) (M.map memo.old) }
        ensures rewritten { IsRewritten Innermost false true
            plan.now.rules term.now self.old.fuel self.old.machine.depth
            (T.store terms.old) (T.store terms.new) result }
        ensures sound { IsSound (T.store terms.new) }
        ensures rewriter { self.new ≡ self.old }
        ensures same { T.same terms.old terms.new }
        ensures memory { AreRight plan.now.rules (T.store terms.new).built
            (T.store terms.new) (M.map memo.new) }
    {
        match self
            .machine
            .normalize_with(plan, term, self.fuel, terms, memo)
        {
            Ok(normal) => Ok(normal),
            Err(RunFault::StoreFull) => Err(LineStop::StoreFull),
            Err(RunFault::Worn) => Err(LineStop::Worn),
        }
    }

    // Rewrites a term by the strategy that is asked. Its events stand in the place of what was
    // there, where they are asked.
    pub(crate) fn rewrite<T: Terms, M: Memo>(
        &mut self,
        plan: &Plan,
        term: &Flat,
        terms: &mut T,
        memo: &mut M,
        events: &mut Vec<Event>,
    ) -> Result<Normal, LineStop>
        requires ready { MayRewrite plan.now self.old.machine term.now (T.store terms.old) }
        requires memory { MayRecall (remembers self.old.strategy self.old.traced self.old.remembers)
            plan.now.rules (T.store terms.old) (M.map memo.old) }
        ensures rewritten { IsRewritten self.old.strategy (tells self.old.strategy self.old.traced)
            (remembers self.old.strategy self.old.traced self.old.remembers)
            plan.now.rules term.now self.old.fuel self.old.machine.depth
            (T.store terms.old) (T.store terms.new) result }
        ensures sound { IsSound (T.store terms.new) }
        ensures rewriter { self.new ≡ self.old }
        ensures same { T.same terms.old terms.new }
        ensures memory { MayRecall (remembers self.old.strategy self.old.traced self.old.remembers)
            plan.now.rules (T.store terms.new) (M.map memo.new) }
        ensures events { MayTell (tells self.old.strategy self.old.traced) plan.now.rules
            → IfOk result (Told (tells self.old.strategy self.old.traced)
            plan.now.rules term.now self.old.fuel events.new.items) }
    {
        events.clear();
        match self.strategy {
            Strategy::Innermost if self.traced => self.rewrite_told(plan, term, terms, events),
            Strategy::Innermost if self.remembers => {
                self.rewrite_remembered(plan, term, terms, memo)
            }
            Strategy::Innermost => self.rewrite_plain(plan, term, terms),
            Strategy::Outermost => self.rewrite_plain(plan, term, terms),
        }
    }
}
