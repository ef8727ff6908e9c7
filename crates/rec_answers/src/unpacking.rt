// The command `unpack`: from a file of terms to their lines.
ghost use Rattle.std.specs.Prelude.{IfOk, IfErr};
ghost use Rattle.rec_answers.specs.Written.{Output};
ghost use Rattle.rec_answers.specs.Output.{IsUnfiled};
ghost use Rattle.rec_answers.specs.Answered.{IsAnswer, Answers, StopsWith, StopsUnpacking};
ghost use Rattle.term_commands.specs.Unpacking.{IsFileFault};
ghost use Rattle.faults.specs.declared.refusal.Refusal.{Refusal};

use crate::answers::Answer;
use crate::results::Workers;
use crate::stops::Stop;
use settings::Settings;
use std::alloc::Global;
use term_commands::{Unpacked, unpack_terms};

/// Answers the canonical line of each term of a file, `too large` in place of one with too many
/// nodes.
pub fn unpacked(alloc: Global, settings: &Settings, input: &[u8]) -> Result<Answer, Stop>
    ensures made { IfOk result (λ answer. (output : Output)
        × IsUnfiled input.now output × IsAnswer settings.now.workers answer output) }
    ensures stopped { IfErr result (StopsUnpacking input.now) }
    ensures accepted { (output : Output) → IsUnfiled input.now output
        → Answers result (λ answer. IsAnswer settings.now.workers answer output) }
    ensures refused { (fault : Refusal) → IsFileFault input.now fault → StopsWith result fault }
{
    let lines = unpack_terms(alloc, input)?;
    let Unpacked { text, whole } = lines;
    Ok(Answer {
        output: text,
        values: whole,
        refuted: false,
        workers: Workers::none(alloc),
    })
}
