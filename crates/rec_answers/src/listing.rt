// The command `terms`: from term text to its canonical lines and sizes.
ghost use Rattle.std.specs.Prelude.{IfOk, IfErr};
ghost use Rattle.rec_answers.specs.Written.{Output};
ghost use Rattle.rec_answers.specs.Output.{IsTold};
ghost use Rattle.rec_answers.specs.Answered.{IsAnswer, Answers, StopsWith, StopsTelling};
ghost use Rattle.term_commands.specs.Listing.{IsTextFault};
ghost use Rattle.faults.specs.declared.refusal.Refusal.{Refusal};

use crate::answers::Answer;
use crate::results::Workers;
use crate::stops::Stop;
use settings::Settings;
use std::alloc::Global;
use term_commands::tell_terms;

/// Answers the canonical line of each term that an input spells, and how large they are together.
pub fn listed(alloc: Global, settings: &Settings, input: &[u8]) -> Result<Answer, Stop>
    ensures made { IfOk result (λ answer. (output : Output)
        × IsTold settings.now.rows input.now output × IsAnswer settings.now.workers answer output) }
    ensures stopped { IfErr result (StopsTelling settings.now.rows input.now) }
    ensures accepted { (output : Output) → IsTold settings.now.rows input.now output
        → Answers result (λ answer. IsAnswer settings.now.workers answer output) }
    ensures refused { (fault : Refusal) → IsTextFault input.now fault → StopsWith result fault }
{
    let output = tell_terms(alloc, input, settings.rows)?;
    Ok(Answer {
        output,
        values: true,
        refuted: false,
        workers: Workers::none(alloc),
    })
}
