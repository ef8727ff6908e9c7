// The commands `check log` and `check trace`: whether what the callers of a store noted is one
// legal history, and whether traces lead from terms to their lines.
ghost use Rattle.std.specs.Prelude.{◌≡◌, ◌++◌, IfOk, IfErr, decimal};
ghost use Rattle.rec_answers.specs.Lines.{line};
ghost use Rattle.rec_answers.specs.Written.{Output};
ghost use Rattle.rec_answers.specs.Checked.{IsLogChecked, IsLogFault, is_illegal, verdict_text};
ghost use Rattle.rec_answers.specs.Checked.{IsTraceChecked, IsTraceFault, is_underived, trace_text};
ghost use Rattle.rec_answers.specs.Answered.{IsAnswer, Answers, StopsWith, StopsChecking, StopsTracing};
ghost use Rattle.faults.specs.declared.refusal.Refusal.{Refusal};

use crate::answers::Answer;
use crate::results::Workers;
use crate::stops::Stop;
use faults::Memory;
use itoa::Buffer;
use log_check::{LogVerdict, check_log};
use run_checks::{TraceVerdict, check_trace};
use settings::Settings;
use std::alloc::Global;

// A word that ends with a space, a number and the end of the line.
fn numbered(alloc: Global, word: &[u8], number: u64) -> Result<Vec<u8>, Memory>
    ensures { IfOk result (λ text. text.items ≡ line (word.now ++ decimal number)) }
{
    let mut text = Vec::new(alloc);
    text.extend_from_slice(word)?;
    text.extend_from_slice(Buffer::new().format(number).as_bytes())?;
    text.extend_from_slice(b"\n")?;
    Ok(text)
}

// `legal` and how many entries the log has, or `illegal` and the line of the first wrong one.
fn verdict_line(alloc: Global, verdict: LogVerdict) -> Result<Vec<u8>, Memory>
    ensures { IfOk result (λ text. text.items ≡ line (verdict_text verdict)) }
{
    match verdict {
        LogVerdict::Legal(entries) => numbered(alloc, b"legal ", entries),
        LogVerdict::Illegal(line) => numbered(alloc, b"illegal ", line),
    }
}

fn is_illegal(verdict: LogVerdict) -> bool
    ensures { result ≡ is_illegal verdict }
{
    match verdict {
        LogVerdict::Legal(_) => false,
        LogVerdict::Illegal(_) => true,
    }
}

/// Checks a log, and answers whether it is good.
pub fn log_checked(alloc: Global, settings: &Settings, input: &[u8]) -> Result<Answer, Stop>
    ensures made { IfOk result (λ answer. (output : Output)
        × IsLogChecked input.now output × IsAnswer settings.now.workers answer output) }
    ensures stopped { IfErr result (StopsChecking input.now) }
    ensures accepted { (output : Output) → IsLogChecked input.now output
        → Answers result (λ answer. IsAnswer settings.now.workers answer output) }
    ensures refused { (fault : Refusal) → IsLogFault input.now fault → StopsWith result fault }
{
    let verdict = check_log(alloc, input)?;
    let output = verdict_line(alloc, verdict)?;
    Ok(Answer {
        output,
        values: true,
        refuted: is_illegal(verdict),
        workers: Workers::none(alloc),
    })
}

// `derived` and how many values the output has, or `underived` and the first term whose trace
// doesn't lead to its line.
fn trace_line(alloc: Global, verdict: TraceVerdict) -> Result<Vec<u8>, Memory>
    ensures { IfOk result (λ text. text.items ≡ line (trace_text verdict)) }
{
    match verdict {
        TraceVerdict::Derived(values) => numbered(alloc, b"derived ", values),
        TraceVerdict::Underived(term) => numbered(alloc, b"underived ", term),
    }
}

fn is_underived(verdict: TraceVerdict) -> bool
    ensures { result ≡ is_underived verdict }
{
    match verdict {
        TraceVerdict::Derived(_) => false,
        TraceVerdict::Underived(_) => true,
    }
}

/// Checks an output with traces behind its specification, and answers whether each trace leads from
/// its term to its line.
pub fn trace_checked(alloc: Global, settings: &Settings, input: &[u8]) -> Result<Answer, Stop>
    ensures made { IfOk result (λ answer. (output : Output)
        × IsTraceChecked input.now output × IsAnswer settings.now.workers answer output) }
    ensures stopped { IfErr result (StopsTracing input.now) }
    ensures accepted { (output : Output) → IsTraceChecked input.now output
        → Answers result (λ answer. IsAnswer settings.now.workers answer output) }
    ensures refused { (fault : Refusal) → IsTraceFault input.now fault → StopsWith result fault }
{
    let verdict = check_trace(alloc, input)?;
    let output = trace_line(alloc, verdict)?;
    Ok(Answer {
        output,
        values: true,
        refuted: is_underived(verdict),
        workers: Workers::none(alloc),
    })
}
