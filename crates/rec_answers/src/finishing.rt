// The end of a run whose command has answered.
ghost use Rattle.std.specs.Prelude.{◌≡◌, ◌⊎◌, ◌++◌, IfOk, IfErr};
ghost use Rattle.rec_answers.specs.Written.{status_for};
ghost use Rattle.rec_answers.specs.Run.{IsWhole};
ghost use Rattle.rec_answers.specs.Logged.{log_bytes};
ghost use Rattle.rec_answers.specs.Endings.{HasWritten, HasBroken, HasStopped};

use crate::answers::{Answer, Finished};
use crate::results::{Outcome, Workers};
use crate::stops::{Stop, stopped};
use crate::writing::write_both;
use ends::Sink;
use log_text::LogText;
use node_rows::Chronicle;
use std::alloc::Global;

// The status where the whole output was written.
fn status_for(values: bool, refuted: bool) -> u8
    ensures status { result ≡ status_for values refuted }
    ensures whole { IsWhole result }
{
    if refuted {
        9
    } else if values {
        0
    } else {
        1
    }
}

// Writes an output, and the log behind it.
fn write_answer<O: Sink, E: Sink>(
    out: &mut O,
    err: &mut E,
    answer: Answer,
    chronicle: Chronicle,
    log: &Option<LogText>,
) -> Outcome
    ensures chronicle { result.chronicle ≡ chronicle }
    ensures ends { HasWritten O.taken O.faults out.old out.new err.old err.new
        (answer.output.items ++ log_bytes log.now) answer result
        ⊎ HasBroken O.taken O.faults out.old out.new E.taken E.faults err.old err.new
        (answer.output.items ++ log_bytes log.now) answer result }
{
    match write_both(out, &answer.output, log) {
        Ok(()) => Outcome {
            status: status_for(answer.values, answer.refuted),
            chronicle,
            workers: answer.workers,
        },
        Err(_) => stopped(err, Stop::WriteFault, answer.workers, chronicle),
    }
}

/// Ends a run whose command ended so: writes its output and the log behind it, or the line that
/// says why there is none.
pub fn finish<O: Sink, E: Sink>(
    alloc: Global,
    out: &mut O,
    err: &mut E,
    finished: Finished,
) -> Outcome
    ensures chronicle { result.chronicle ≡ finished.chronicle }
    ensures made { IfOk finished.answer (λ answer.
        HasWritten O.taken O.faults out.old out.new err.old err.new
        (answer.output.items ++ log_bytes finished.log) answer result
        ⊎ HasBroken O.taken O.faults out.old out.new E.taken E.faults err.old err.new
        (answer.output.items ++ log_bytes finished.log) answer result) }
    ensures stopped { IfErr finished.answer (λ stop.
        HasStopped out.old out.new E.taken E.faults err.old err.new stop result) }
{
    let Finished {
        answer,
        chronicle,
        log,
    } = finished;
    match answer {
        Ok(answer) => write_answer(out, err, answer, chronicle, &log),
        Err(stop) => stopped(err, stop, Workers::none(alloc), chronicle),
    }
}
