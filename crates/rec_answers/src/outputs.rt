// From the lines of terms to an answer.
ghost use Rattle.std.specs.Prelude.{◌≡◌, IfOk, IfErr, OnOk, length, map};
ghost use Rattle.work_order.specs.Lined.{worker_of};
ghost use Rattle.rec_answers.specs.Logged.{IsThere};
ghost use Rattle.rec_answers.specs.Rewritten.{output_of};
ghost use Rattle.rec_answers.specs.Sequence.{AreLinesOf, text_told};
ghost use Rattle.rec_answers.specs.Answered.{IsAnswer};
ghost use Rattle.rec_answers.specs.declared.stops.Stop.TheVariants as stop;
ghost use Rattle.rec_check.specs.Spelled.{Specified};

use crate::answers::Answer;
use crate::events::push_traces;
use crate::joining::{are_values, joined, workers_of};
use crate::stops::Stop;
use faults::Memory;
use settings::Settings;
use std::alloc::Global;
use worker_crew::Lines;

// The lines, each with its end, and the traces behind them, where they are asked.
fn text_of(alloc: Global, lines: &Lines, traced: bool) -> Result<Vec<u8>, Memory>
    requires one_each { length lines.now.traces.items ≡ length lines.now.list.items }
    ensures { IfOk result (λ text. text.items ≡ text_told lines.now traced) }
{
    let mut text = joined(alloc, &lines.list)?;
    if traced {
        push_traces(&mut text, &lines.list, &lines.traces)?;
        text.extend_from_slice(b"# end\n")?;
    }
    Ok(text)
}

/// What is written of lines, before the log. `logged` tells whether the log is there: where one is
/// asked and isn't, memory lacked for it, and that is the answer.
pub fn told_lines(
    alloc: Global,
    settings: &Settings,
    lines: &Lines,
    logged: bool,
) -> Result<Answer, Stop>
    requires one_each { length lines.now.traces.items ≡ length lines.now.list.items }
    ensures made { (spec : Specified) → AreLinesOf settings.now spec lines.now
        → IfOk result
        (λ answer. IsAnswer settings.now.workers answer (output_of settings.now spec)) }
    ensures workers { IfOk result (λ answer. answer.workers ≡ map worker_of lines.now.list.items) }
    ensures stopped { IfErr result (λ why. why ≡ stop.Memory) }
    ensures logged { OnOk result (IsThere settings.now logged) }
{
    if settings.log && !logged {
        return Err(Stop::Memory);
    }
    let output = text_of(alloc, lines, settings.trace)?;
    let workers = workers_of(alloc, &lines.list)?;
    Ok(Answer {
        output,
        values: are_values(&lines.list),
        refuted: false,
        workers,
    })
}
