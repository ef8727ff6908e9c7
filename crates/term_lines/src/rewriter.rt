// From a term to its line.
ghost use Rattle.std.specs.Prelude.{◌≡◌, ◌++◌, ◌≤◌, [], max, All, IfOk, OnErr, OnOk, true, if◌then◌else◌};
ghost use Rattle.term_model.specs.Tree.{IsGround};
ghost use Rattle.rewrite_model.specs.Built.{need};
ghost use Rattle.rule_match.specs.Planned.{IsPlain};
ghost use Rattle.innermost.specs.Machines.{IsFor};
ghost use Rattle.innermost.specs.Normalized.{KeepsNumbers};
ghost use Rattle.term_text.specs.Text.{HasNames};
ghost use Rattle.term_lines.specs.Laws.{WritesNames};
ghost use Rattle.terms_api.specs.Terms.{kept, IsSound};
ghost use Rattle.term_lines.specs.Line.{line_text, value_text, is_written, kind_of, spent_of, is_value};
ghost use Rattle.term_lines.specs.Strategies.{ended};
ghost use Rattle.term_lines.specs.Tracing.{tells, remembers, MayTell, events_of};
ghost use Rattle.term_lines.specs.Written.{top_tree, HasValueAlone, BuildsForLine, CountsRefusals, SweepsForLine, MayRecall};
ghost use Rattle.term_lines.specs.declared.strategy.Strategy.TheVariants.{Innermost};

use crate::ending::value_ending;
use crate::value::write_value;
use crate::{Ending, LineKind, LineStop, Strategy};
use faults::Memory;
use innermost::{Event, Machine, Memo, Normal};
use rule_match::Plan;
use symbol_pool::Symbols;
use term_model::Flat;
use term_text::SizeMarks;
use terms_api::Terms;

/// What rewriting terms to lines needs beside a store: a machine, room for counting, and what is
/// asked.
#[derive(Drop)]
pub struct Rewriter {
    pub machine: Machine,
    pub marks: SizeMarks,
    /// How terms are rewritten.
    pub strategy: Strategy,
    /// The fuel of each term.
    pub fuel: u64,
    /// Whether a value's sizes are written in place of its text.
    pub sizes: bool,
    /// Whether the events of innermost rewriting are told too.
    pub traced: bool,
    /// Whether results of innermost rewriting are remembered, where no events are told.
    pub remembers: bool,
}

// The events of a term whose value isn't written are dropped.
fn keep_written(written: bool, events: &mut Vec<Event>)
    ensures { events.new.items ≡ (if written then events.old.items else []) }
{
    if !written {
        events.clear();
    }
}

impl Rewriter {
    // Appends the line of the value on top of an otherwise empty stack.
    fn write_top<T: Terms>(
        &mut self,
        symbols: &Symbols,
        terms: &mut T,
        out: &mut Vec<u8>,
    ) -> Result<bool, Memory>
        requires inside { (T.store terms.old).inside ≡ true }
        requires room { (T.store terms.old).rows ≤ self.old.marks }
        requires value { HasValueAlone (T.store terms.old) symbols.now }
        ensures text { OnOk result (out.new.items
            ≡ out.old.items ++ value_text self.old.sizes symbols.now
            (top_tree (T.store terms.old))) }
        ensures value { IfOk result
            (λ value. value ≡ is_written self.old.sizes (top_tree (T.store terms.old))) }
        ensures unwritten { OnErr result (out.new.items ≡ out.old.items) }
        ensures emptied { T.store terms.new ≡ kept (T.store terms.old) 0 0 }
        ensures sound { IsSound (T.store terms.new) }
        ensures rewriter { self.new ≡ self.old }
        ensures same { T.same terms.old terms.new }
    {
        let row = terms.at(0);
        let written = write_value(terms, symbols, row, self.sizes, &mut self.marks, out);
        terms.keep(0, 0);
        written
    }

    /// Rewrites a term on a store, by the strategy, and appends the line of its end to `out`,
    /// without the end of the line: the text of the value or its sizes, `too large`, `out of fuel`
    /// or `too deep`. Tells which of these it is, and how much fuel a value took. The stack, which
    /// must be empty, is empty again. Where it stops without a line, `out` is as before. In
    /// `events`, in the place of what was there, stand the events that lead to a value that is
    /// written, where they are asked, and no others. Where results are remembered, a reduction
    /// whose result the memory has is left out.
    pub fn write_line<T: Terms, M: Memo>(
        &mut self,
        plan: &Plan,
        symbols: &Symbols,
        term: &Flat,
        terms: &mut T,
        memo: &mut M,
        out: &mut Vec<u8>,
        events: &mut Vec<Event>,
    ) -> Result<Ending, LineStop>
        requires inside { (T.store terms.old).inside ≡ true }
        requires empty { (T.store terms.old).stack ≡ [] }
        requires machine { IsFor plan.now self.old.machine }
        requires no_variables { IsGround term.now }
        requires plain { IsPlain plan.now.widest term.now }
        requires width { plan.now.widest ≤ (T.store terms.old).widest }
        requires free { self.old.machine.depth ≤ (T.store terms.old).room }
        requires marks { (T.store terms.old).rows ≤ self.old.marks }
        requires named { HasNames symbols.now term.now }
        requires names { All (WritesNames symbols.now) plan.now.rules }
        requires memory { MayRecall (remembers self.old.strategy self.old.traced self.old.remembers)
            plan.now.rules (T.store terms.old) (M.map memo.old) }
        // The line.
        ensures text { OnOk result (out.new.items ≡ out.old.items
            ++ line_text self.old.sizes symbols.now
            (ended self.old.strategy plan.now.rules term.now self.old.fuel
            self.old.machine.depth)) }
        ensures kind { IfOk result (λ ending. ending.kind
            ≡ kind_of self.old.sizes
            (ended self.old.strategy plan.now.rules term.now self.old.fuel
            self.old.machine.depth)) }
        ensures spent { IfOk result (λ ending. ending.spent ≡ spent_of self.old.sizes self.old.fuel
            (ended self.old.strategy plan.now.rules term.now self.old.fuel
            self.old.machine.depth)) }
        ensures unwritten { OnErr result (out.new.items ≡ out.old.items) }
        ensures events { MayTell (tells self.old.strategy self.old.traced) plan.now.rules
            → OnOk result (events.new.items ≡ events_of (tells self.old.strategy self.old.traced)
            plan.now.rules term.now self.old.fuel (is_value self.old.sizes
            (ended self.old.strategy plan.now.rules term.now self.old.fuel
            self.old.machine.depth))) }

        // What was built, and what that cost the store.
        ensures built { BuildsForLine self.old.strategy (tells self.old.strategy self.old.traced)
            (remembers self.old.strategy self.old.traced self.old.remembers)
            plan.now.rules term.now self.old.fuel self.old.machine.depth
            (T.store terms.old) (T.store terms.new) result }
        ensures refusals { CountsRefusals (T.store terms.old) (T.store terms.new) result }
        ensures sweeps { SweepsForLine (T.store terms.old) (T.store terms.new) result }
        ensures load { self.old.strategy ≡ Innermost
            → (T.store terms.new).load ≤ max (T.store terms.old).load
            (need plan.now.rules term.now self.old.fuel self.old.machine.depth) }

        // What is remembered is right.
        ensures memory { MayRecall (remembers self.old.strategy self.old.traced self.old.remembers)
            plan.now.rules (T.store terms.new) (M.map memo.new) }

        // What is as before.
        ensures empty { (T.store terms.new).stack ≡ [] }
        ensures numbers { KeepsNumbers (T.store terms.old) (T.store terms.new) }
        ensures sound { IsSound (T.store terms.new) }
        ensures rewriter { self.new ≡ self.old }
        ensures same { T.same terms.old terms.new }
    {
        match self.rewrite(plan, term, terms, memo, events) {
            Ok(Normal::Value { left }) => {
                let spent = self.fuel - left;
                let written = self.write_top(symbols, terms, out)?;
                keep_written(written, events);
                Ok(value_ending(written, spent))
            }
            Ok(Normal::OutOfFuel) => {
                events.clear();
                out.extend_from_slice(b"out of fuel")?;
                Ok(Ending::without_value(LineKind::OutOfFuel))
            }
            Ok(Normal::TooDeep) => {
                events.clear();
                out.extend_from_slice(b"too deep")?;
                Ok(Ending::without_value(LineKind::TooDeep))
            }
            Err(stop) => Err(stop),
        }
    }
}
