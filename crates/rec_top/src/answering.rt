// From a source to the output of a command.
ghost use Rattle.std.specs.Prelude.{◌≤◌, length};
ghost use Rattle.settings.specs.Words.{AreInRange};
ghost use Rattle.rec_answers.specs.Input.{ReadsSource};
ghost use Rattle.rec_answers.specs.Output.{limit_of};
ghost use Rattle.rec_top.specs.Commands.{AnswersInput, AnswersSource};

use crate::drilling::drilled;
use crate::rewriting::rewritten;
use ends::{Gate, Source};
use rec_answers::{Conditions, Finished, answer_alone, conditions_of, input_of, limit_of};
use settings::{Command, Settings};
use std::alloc::Global;
use std::sync::Wait;
use std::thread::Threads;

// The output of the command for an input.
fn output_for<R: Threads + Wait + Sync, G: Gate>(
    rt: &R,
    alloc: Global,
    settings: &Settings,
    input: &[u8],
    gate: &G,
) -> Finished
    requires limit { length input.now ≤ limit_of settings.now.command }
    requires in_range { AreInRange settings.now }
    requires reads { ReadsSource settings.now.command }
    ensures { AnswersInput settings.now input.now result.answer result.chronicle
        result.log }
{
    match settings.command {
        Command::Rewrite => rewritten(rt, alloc, settings, conditions_of(settings), input, gate),
        Command::Outermost => rewritten(rt, alloc, settings, Conditions::Refused, input, gate),
        Command::Drill => unreachable!(),
        _ => Finished::alone(answer_alone(alloc, settings, input)),
    }
}

// The output of a command that reads the source, for all that it has left.
fn answer_read<R: Threads + Wait + Sync, S: Source, G: Gate>(
    rt: &R,
    alloc: Global,
    settings: &Settings,
    source: &mut S,
    gate: &G,
) -> Finished
    requires in_range { AreInRange settings.now }
    requires reads { ReadsSource settings.now.command }
    ensures { AnswersSource settings.now S.left S.faults source.old source.new result.answer
        result.chronicle result.log }
{
    match input_of(alloc, source, limit_of(settings.command)) {
        Ok(input) => output_for(rt, alloc, settings, &input, gate),
        Err(stop) => Finished::alone(Err(stop)),
    }
}

/// The output of the command for all that the source has left, or for a drill's text.
pub fn answer_of<R: Threads + Wait + Sync, S: Source, G: Gate>(
    rt: &R,
    alloc: Global,
    settings: &Settings,
    source: &mut S,
    gate: &G,
) -> Finished
    requires in_range { AreInRange settings.now }
    ensures { AnswersSource settings.now S.left S.faults source.old source.new result.answer
        result.chronicle result.log }
{
    match settings.command {
        Command::Drill => drilled(rt, alloc, settings, gate),
        _ => answer_read(rt, alloc, settings, source, gate),
    }
}
