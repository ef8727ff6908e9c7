// From a source to the input of a command.
ghost use Rattle.std.specs.Prelude.{◌≡◌, ◌≤◌, ◌⊎◌, ℕ, List, Some, IfOk, IfErr, IsErrOf, length, vec_len};
ghost use Rattle.ends.specs.Bytes.{GaveAll};
ghost use Rattle.rec_answers.specs.Output.{IsTooLongAt, limit_of, too_long};
ghost use Rattle.rec_answers.specs.Run.{HasNoFault};
ghost use Rattle.rec_answers.specs.Answered.{StopsReading, Answers, StopsWith};
ghost use Rattle.faults.specs.declared.refusal.Refusal.{Refusal};

use crate::stops::Stop;
use ends::{ReadAllFault, Source, read_all};
use faults::{Refusal, kinds};
use settings::Command;
use std::alloc::Global;

/// How many bytes the input of a command may have.
pub fn limit_of(command: Command) -> u64
    ensures { result ≡ limit_of command }
{
    match command {
        Command::Rewrite | Command::Drill | Command::Schedule => 16_777_216,
        Command::Terms | Command::Pack | Command::Outermost => 16_777_216,
        Command::Unpack | Command::CheckLog | Command::CheckTrace => 134_217_728,
    }
}

// The fault of an input that has more bytes than this limit.
fn too_long(limit: u64) -> Refusal
    ensures { result ≡ too_long limit }
{
    Refusal {
        kind: kinds::TOO_LONG,
        place: limit,
    }
}

/// All bytes that the source has left, of which there may be so many.
pub fn input_of<S: Source>(alloc: Global, source: &mut S, limit: u64) -> Result<Vec<u8>, Stop>
    ensures whole { IfOk result
        (λ input. GaveAll (S.left source.old) (S.left source.new) input.items) }
    ensures within { IfOk result (λ input. vec_len input ≤ limit) }
    ensures stopped { IfErr result (StopsReading limit S.left S.faults source.old source.new) }
    ensures unfailed { IsErrOf result Stop.ReadFault ⊎ (S.faults source.new ≡ S.faults source.old) }
    ensures read { (input : List ℕ) → S.left source.old ≡ Some input → length input ≤ limit
        → HasNoFault S.faults source.old source.new → Answers result (λ all. all.items ≡ input) }
    ensures refused { (input : List ℕ) (fault : Refusal)
        → S.left source.old ≡ Some input → IsTooLongAt limit input fault
        → HasNoFault S.faults source.old source.new → StopsWith result fault }
    ensures later { S.faults source.old ≤ S.faults source.new }
{
    match read_all(alloc, source, limit) {
        Ok(input) => Ok(input),
        Err(ReadAllFault::ReadFault) => Err(Stop::ReadFault),
        Err(ReadAllFault::TooLong) => Err(Stop::Refused(too_long(limit))),
        Err(ReadAllFault::Memory) => Err(Stop::Memory),
    }
}
