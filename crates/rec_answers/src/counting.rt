// From the lines of a drill to an answer.
ghost use Rattle.std.specs.Prelude.{◌≡◌, IfOk, IfErr, OnOk, map};
ghost use Rattle.work_order.specs.Lined.{worker_of};
ghost use Rattle.rec_answers.specs.Logged.{IsThere};
ghost use Rattle.rec_answers.specs.Drilled.{drill_output};
ghost use Rattle.rec_answers.specs.Sequence.{AreLinesOf};
ghost use Rattle.rec_answers.specs.Answered.{IsAnswer};
ghost use Rattle.rec_answers.specs.declared.stops.Stop.TheVariants as stop;
ghost use Rattle.rec_check.specs.Spelled.{Specified};

use crate::answers::Answer;
use crate::joining::{are_values, count_values, counts, total_spent, workers_of};
use crate::stops::Stop;
use settings::Settings;
use std::alloc::Global;
use worker_crew::Lines;

/// What is told of the lines of a drill, before the log. `logged` tells whether the log is there:
/// where one is asked and isn't, memory lacked for it, and that is the answer.
pub fn told_counts(
    alloc: Global,
    settings: &Settings,
    lines: &Lines,
    logged: bool,
) -> Result<Answer, Stop>
    ensures made { (spec : Specified) → AreLinesOf settings.now spec lines.now
        → IfOk result
        (λ answer. IsAnswer settings.now.workers answer (drill_output settings.now spec)) }
    ensures workers { IfOk result (λ answer. answer.workers ≡ map worker_of lines.now.list.items) }
    ensures stopped { IfErr result (λ why. why ≡ stop.Memory) }
    ensures logged { OnOk result (IsThere settings.now logged) }
{
    if settings.log && !logged {
        return Err(Stop::Memory);
    }
    let output = counts(
        alloc,
        settings.count,
        count_values(&lines.list),
        total_spent(&lines.list),
    )?;
    let workers = workers_of(alloc, &lines.list)?;
    Ok(Answer {
        output,
        values: are_values(&lines.list),
        refuted: false,
        workers,
    })
}
