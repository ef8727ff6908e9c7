//! Checks an output with its traces.

ghost use Rattle.std.specs.Prelude.{◌≡◌, ◌<◌, ◌≤◌, length, None, All, IfOk, IfErr};
ghost use Rattle.std.specs.Bool.{OnTrue};
ghost use Rattle.rec_check.specs.Run.{MayBeRun};
ghost use Rattle.rec_check.specs.Spec.{specified};
ghost use Rattle.rec_check.specs.Symbols.{widest_of};
ghost use Rattle.run_checks.specs.Form.{trace_in, values_from, wrong_line};
ghost use Rattle.run_checks.specs.Instances.{MayBePut};
ghost use Rattle.run_checks.specs.Rules.{ArePut};
ghost use Rattle.run_checks.specs.Refusing.{IsWrongAt, seen};
ghost use Rattle.run_checks.specs.Named.{IsNamed};
ghost use Rattle.run_checks.specs.Reached.{IsSound};
ghost use Rattle.run_checks.specs.Verdict.{IsChecked, IsRefused, first_underived, leads_to, term_lines, told, trace_lines, verdict};
ghost use Rattle.log_check.specs.Words.{lines};

use crate::building::put_instance;
use crate::form::{events_of, is_no_value};
use crate::lines::{Output, bad_line, take_formed};
use crate::parts::{parts, specification};
use crate::replaying::replay;
use crate::table::TermTable;
use crate::text::is_text;
use faults::Memory;
use log_check::lines::next_line;
use read_faults::ReadFail;
use rec_check::Spec;
use rule_match::Plan;
use std::alloc::Global;
use symbol_pool::Symbols;
use term_model::Flat;

/// What the check of a well-formed output comes to.
#[derive(Clone, Copy, Debug, PartialEq, Eq)]
pub enum TraceVerdict {
    /// Each trace leads from its term to its line. There are so many lines that are values.
    Derived(u64),
    /// The trace of the term with this number, counted from 0, is the first that doesn't lead to
    /// its line.
    Underived(u64),
}

/// Checks an output of rewriting with its traces. The input is a line `spec N`, a specification of
/// N bytes, a line feed, and the output of its terms: a line for each, then the trace of each line
/// that is a value, then `# end`.
///
/// Each trace is replayed from its term by steps of the rules, with nothing of the rewriter.
/// Refused with kind 15 at a line of a wrong form, counted from 1 (0 is the line `spec N` and the
/// bytes after it), and with a fault of the specification at its place there.
///
/// The lines are read twice. An event costs the arguments of a node or the nodes of a rule, and
/// never the whole term.
pub fn check_trace(alloc: Global, bytes: &[u8]) -> Result<TraceVerdict, ReadFail>
    ensures checked { IfOk result (IsChecked bytes.now) }
    ensures sound { IfOk result (IsSound bytes.now) }
    ensures refused { IfErr result (IsRefused bytes.now) }
{
    let Some((text, output)) = parts(bytes) else {
        return Err(bad_line(0));
    };
    let spec = specification(alloc, text)?;
    verdict(alloc, spec, output)
}

/// The verdict on an output of a specification.
fn verdict(alloc: Global, spec: Spec, output: &[u8]) -> Result<TraceVerdict, ReadFail>
    requires may_be_run { MayBeRun (specified spec) }
    requires named { IsNamed (specified spec) }
    requires widest { spec.widest ≡ widest_of spec.symbols }
    requires few { length spec.terms.items ≤ 65535 }
    ensures formed { IfOk result
        (λ v. wrong_line (length spec.terms.items) (lines output.now) ≡ None) }
    ensures verdict { IfOk result (λ v. v ≡ verdict (specified spec)
        (term_lines (specified spec) (lines output.now))
        (trace_lines (specified spec) (lines output.now))) }
    ensures wrong { IfErr result
        (IsWrongAt (wrong_line (length spec.terms.items) (lines output.now))) }
{
    let (output, values) = take_formed(alloc, spec.terms.len(), output)?;
    let found = first_underived(alloc, spec, &output)?;
    Ok(told(found, values))
}

/// The verdict where this is the first term whose trace doesn't derive its line, if there is one,
/// and so many lines are values.
fn told(found: Option<u64>, values: u64) -> TraceVerdict
    ensures { result ≡ told found values }
{
    match found {
        Some(number) => TraceVerdict::Underived(number),
        None => TraceVerdict::Derived(values),
    }
}

/// The number of the first term whose trace doesn't derive its line; the traces stand in order
/// after the lines.
fn first_underived(alloc: Global, spec: Spec, output: &Output<'_>) -> Result<Option<u64>, Memory>
    requires may_be_run { MayBeRun (specified spec) }
    requires named { IsNamed (specified spec) }
    requires widest { spec.widest ≡ widest_of spec.symbols }
    requires few { length spec.terms.items ≤ 65535 }
    requires lines { length output.now.lines.items ≡ length spec.terms.items }
    ensures { IfOk result (λ found. found ≡ first_underived (specified spec)
        (seen output.now) (values_from 0 (seen output.now)) (lines output.now.traces.now)) }
{
    let Spec {
        symbols,
        rules,
        terms,
        widest,
    } = spec;
    let plan = Plan::of(alloc, rules, widest)?;
    first_by_plan(alloc, &plan, symbols, &terms, output)
}

/// The same of terms over these symbols, by the rules of a plan.
fn first_by_plan(
    alloc: Global,
    plan: &Plan,
    symbols: Symbols,
    terms: &[Flat],
    output: &Output<'_>,
) -> Result<Option<u64>, Memory>
    requires rules { ArePut symbols plan.now.rules }
    requires terms { All (MayBePut symbols 0) terms.now }
    requires few { length terms.now ≤ 65535 }
    requires lines { length output.now.lines.items ≡ length terms.now }
    ensures { IfOk result (λ found. found ≡ first_underived
        (record { symbols = symbols; rules = plan.now.rules; terms = terms.now })
        (seen output.now) (values_from 0 (seen output.now)) (lines output.now.traces.now)) }
{
    let mut table = TermTable::new(alloc, symbols);
    first_of_terms(alloc, &mut table, plan, terms, output)
}

/// The same over the symbols of a table, into which the terms are put.
fn first_of_terms(
    alloc: Global,
    table: &mut TermTable,
    plan: &Plan,
    terms: &[Flat],
    output: &Output<'_>,
) -> Result<Option<u64>, Memory>
    requires rules { ArePut table.old.symbols plan.now.rules }
    requires terms { All (MayBePut table.old.symbols 0) terms.now }
    requires few { length terms.now ≤ 65535 }
    requires lines { length output.now.lines.items ≡ length terms.now }
    ensures { IfOk result (λ found. found ≡ first_underived
        (record { symbols = table.old.symbols; rules = plan.now.rules; terms = terms.now })
        (seen output.now) (values_from 0 (seen output.now)) (lines output.now.traces.now)) }
{
    let mut rest = output.traces;
    for (number, line) in output.lines.iter().enumerate() {
        if is_no_value(line) {
            continue;
        }
        let Some((trace, after)) = next_line(rest) else {
            return Ok(None);
        };
        if !derives(
            alloc,
            table,
            plan,
            &terms[number],
            number as u32,
            trace,
            line,
        )? {
            return Ok(Some(number as u64));
        }
        rest = after;
    }
    Ok(None)
}

/// Whether a trace leads from a term to one whose text is this line.
fn derives(
    alloc: Global,
    table: &mut TermTable,
    plan: &Plan,
    term: &Flat,
    number: u32,
    trace: &[u8],
    line: &[u8],
) -> Result<bool, Memory>
    requires rules { ArePut table.old.symbols plan.now.rules }
    requires term { MayBePut table.old.symbols 0 term.now }
    requires number { number < 65535 }
    ensures derives { IfOk result (λ b. b ≡ leads_to table.old.symbols plan.now.rules
        (trace_in number trace.now) term.now line.now) }
    ensures symbols { IfOk result (λ b. OnTrue b (table.new.symbols ≡ table.old.symbols)) }
{
    let Some(events) = events_of(number, trace) else {
        return Ok(false);
    };
    let term = put_instance(alloc, table, term, &[])?;
    match replay(alloc, table, plan, term, events)? {
        Some(value) => is_text(alloc, table, value, line),
        None => Ok(false),
    }
}
