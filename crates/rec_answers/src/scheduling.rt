// The command `schedule`: from the lines of a schedule to the lock that it comes to.
ghost use Rattle.std.specs.Prelude.{IfOk, IfErr};
ghost use Rattle.settings.specs.Words.{AreInRange};
ghost use Rattle.rec_answers.specs.Written.{Output};
ghost use Rattle.rec_answers.specs.Output.{IsScheduled, IsScheduleFault};
ghost use Rattle.rec_answers.specs.Answered.{IsAnswer, Answers, StopsWith, StopsScheduling};
ghost use Rattle.faults.specs.declared.refusal.Refusal.{Refusal};

use crate::answers::Answer;
use crate::results::Workers;
use crate::stops::Stop;
use lock_core::{schedule, write_state};
use settings::Settings;
use std::alloc::Global;

/// Runs a schedule, and answers the lines of the lock that it comes to.
pub fn scheduled(alloc: Global, settings: &Settings, input: &[u8]) -> Result<Answer, Stop>
    requires { AreInRange settings.now }
    ensures made { IfOk result (λ answer. (output : Output)
        × IsScheduled settings.now.seats input.now output
        × IsAnswer settings.now.workers answer output) }
    ensures stopped { IfErr result (StopsScheduling settings.now.seats input.now) }
    ensures accepted { (output : Output) → IsScheduled settings.now.seats input.now output
        → Answers result (λ answer. IsAnswer settings.now.workers answer output) }
    ensures refused { (fault : Refusal) → IsScheduleFault settings.now.seats input.now fault
        → StopsWith result fault }
{
    let state = schedule(input, settings.seats)?;
    let mut output = Vec::new(alloc);
    match write_state(&state, &mut output) {
        Ok(()) => Ok(Answer {
            output,
            values: true,
            refuted: false,
            workers: Workers::none(alloc),
        }),
        Err(_) => Err(Stop::Memory),
    }
}
