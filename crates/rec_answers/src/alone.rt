// The commands that rewrite nothing: from an input to an output.
ghost use Rattle.std.specs.Prelude.{◌≤◌, IfOk, IfErr, length};
ghost use Rattle.settings.specs.Words.{AreInRange};
ghost use Rattle.rec_answers.specs.Written.{Output};
ghost use Rattle.rec_answers.specs.Output.{IsOutput, IsFaultWithin, limit_of};
ghost use Rattle.rec_answers.specs.Run.{Rewrites};
ghost use Rattle.rec_answers.specs.Answered.{IsAnswer, StopsMaking, Answers, StopsWith};
ghost use Rattle.faults.specs.declared.refusal.Refusal.{Refusal};

use crate::answers::Answer;
use crate::checking::{log_checked, trace_checked};
use crate::listing::listed;
use crate::packing::packed;
use crate::scheduling::scheduled;
use crate::stops::Stop;
use crate::unpacking::unpacked;
use settings::{Command, Settings};
use std::alloc::Global;

/// The output, for an input, of a command that rewrites nothing.
pub fn answer_alone(alloc: Global, settings: &Settings, input: &[u8]) -> Result<Answer, Stop>
    requires limit { length input.now ≤ limit_of settings.now.command }
    requires in_range { AreInRange settings.now }
    requires alone { Rewrites settings.now.command → ⊥ }
    ensures made { IfOk result (λ answer. (output : Output)
        × IsOutput settings.now input.now output × IsAnswer settings.now.workers answer output) }
    ensures stopped { IfErr result (StopsMaking settings.now input.now) }
    ensures accepted { (output : Output) → IsOutput settings.now input.now output
        → Answers result (λ answer. IsAnswer settings.now.workers answer output) }
    ensures refused { (fault : Refusal) → IsFaultWithin settings.now input.now fault
        → StopsWith result fault }
{
    match settings.command {
        Command::Rewrite | Command::Drill | Command::Outermost => unreachable!(),
        Command::Schedule => scheduled(alloc, settings, input),
        Command::Terms => listed(alloc, settings, input),
        Command::Pack => packed(alloc, settings, input),
        Command::Unpack => unpacked(alloc, settings, input),
        Command::CheckLog => log_checked(alloc, settings, input),
        Command::CheckTrace => trace_checked(alloc, settings, input),
    }
}
