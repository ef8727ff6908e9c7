//! The program `rec`: standard input, output and error under the top call.
#![tactic(auto)]

ghost use Rattle.std.specs.Prelude.{◌≡◌, ◌≢◌, [], IfOk, IfErr, IsErr, IsOkAnd, OnErr};
ghost use Rattle.std.specs.IoError.{error_kind};
ghost use Rattle.std.specs.Process.{exit_status};
ghost use Rattle.std.specs.Vec.Iter.{into_iter_items};
ghost use Rattle.rec_answers.specs.Lines.{status_line, TookLine};
ghost use Rattle.rec_answers.specs.Run.{IsStatus};

use ends::{Memory, OpenGate, Reading, Sink, Source, Writing};
use rec_top::{Outcome, out_of_memory, run};
use std::alloc::Global;
use std::env::Args;
use std::io::ErrorKind;
use std::process::ExitCode;
use std::sync::Wait;
use std::thread::Threads;
use std::{env, io};

// The words of the command line. Where one is no text there are none, which the top call refuses as
// it refuses all wrong words.
fn words_of(alloc: Global, args: io::Result<Args>) -> Result<Vec<String>, Memory>
    ensures all { IfOk args (λ given. IfOk result (λ words. words.items ≡ into_iter_items given)) }
    ensures no_text { IfErr args (λ fault.
        error_kind fault ≢ ErrorKind.OutOfMemory → IsOkAnd result (λ words. words.items ≡ [])) }
    ensures no_memory { IfErr args (λ fault. error_kind fault ≡ ErrorKind.OutOfMemory
        → IsErr result) }
{
    match args {
        Ok(args) => all_words(alloc, args),
        Err(fault) if fault.kind() == ErrorKind::OutOfMemory => Err(Memory),
        Err(_) => Ok(Vec::new(alloc)),
    }
}

fn all_words(alloc: Global, args: Args) -> Result<Vec<String>, Memory>
    ensures { IfOk result (λ words. words.items ≡ into_iter_items args) }
{
    let mut words = Vec::new(alloc);
    for word in args {
        words.push(word)?;
    }
    Ok(words)
}

// Runs the program on the words of the command line. Where there was no memory for them, `err` is
// told, and `out` gets nothing.
fn run_words<R: Threads + Wait + Sync, S: Source, O: Sink, E: Sink>(
    rt: &R,
    alloc: Global,
    words: Result<Vec<String>, Memory>,
    source: &mut S,
    out: &mut O,
    err: &mut E,
) -> Outcome
    ensures statuses { IsStatus result.status }
    ensures no_memory { OnErr words (result.status ≡ 7) }
    ensures line { OnErr words (TookLine E.taken E.faults err.old err.new (status_line 7)) }
    ensures silent { OnErr words (out.new ≡ out.old) }
    ensures unread { OnErr words (source.new ≡ source.old) }
{
    match words {
        Ok(words) => run(rt, alloc, &words, source, out, err, &OpenGate),
        Err(Memory) => out_of_memory(alloc, err),
    }
}

// The exit code of a run.
fn code_of(outcome: Outcome) -> ExitCode
    ensures { exit_status result ≡ outcome.status }
{
    ExitCode::from(outcome.status)
}

fn main(rt: HostRuntime) -> ExitCode {
    let alloc = rt.alloc();
    let mut source = Reading::new(rt.stdin());
    let mut out = Writing::new(rt.stdout());
    let mut err = Writing::new(rt.stderr());
    let words = words_of(alloc, env::args(&rt));
    code_of(run_words(&rt, alloc, words, &mut source, &mut out, &mut err))
}
