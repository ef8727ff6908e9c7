// The command `pack`: from term text to a file in which each different subterm stands once.
ghost use Rattle.std.specs.Prelude.{IfOk, IfErr};
ghost use Rattle.settings.specs.Words.{AreInRange};
ghost use Rattle.rec_answers.specs.Written.{Output};
ghost use Rattle.rec_answers.specs.Output.{IsFiled};
ghost use Rattle.rec_answers.specs.Answered.{IsAnswer, Answers, StopsWith, StopsTelling};
ghost use Rattle.term_commands.specs.Listing.{IsTextFault};
ghost use Rattle.faults.specs.declared.refusal.Refusal.{Refusal};

use crate::answers::Answer;
use crate::results::Workers;
use crate::stops::Stop;
use settings::Settings;
use std::alloc::Global;
use term_commands::pack_terms;

/// Answers the one file of the terms that an input spells.
pub fn packed(alloc: Global, settings: &Settings, input: &[u8]) -> Result<Answer, Stop>
    requires { AreInRange settings.now }
    ensures made { IfOk result (λ answer. (output : Output)
        × IsFiled settings.now.rows input.now output
        × IsAnswer settings.now.workers answer output) }
    ensures stopped { IfErr result (StopsTelling settings.now.rows input.now) }
    ensures accepted { (output : Output) → IsFiled settings.now.rows input.now output
        → Answers result (λ answer. IsAnswer settings.now.workers answer output) }
    ensures refused { (fault : Refusal) → IsTextFault input.now fault → StopsWith result fault }
{
    let output = pack_terms(alloc, input, settings.rows)?;
    Ok(Answer {
        output,
        values: true,
        refuted: false,
        workers: Workers::none(alloc),
    })
}
