// Why a run stops without its output, and the line that `err` gets then.
ghost use Rattle.std.specs.Prelude.{◌≡◌, ◌≤◌, []};
ghost use Rattle.rec_answers.specs.Lines.{fault_line, stop_line, stop_status, status_line, TookLine};
ghost use Rattle.rec_answers.specs.Stops.{stop_of_words, stop_of_fail, stop_of_line, stop_of_terms, stop_of_fault, stop_of_drill, lines_or_stop};
ghost use Rattle.rec_answers.specs.declared.stops.Stop.TheVariants as stop;

use crate::results::{Outcome, Workers};
use arrayvec::ArrayString;
use ends::{Sink, write_all};
use faults::{Memory, Refusal};
use itoa::Buffer;
use lock_core::LineFault;
use node_rows::Chronicle;
use rec_reader::ReadFail;
use settings::WordsFault;
use std::alloc::{AllocError, Global};
use term_commands::TermsFault;
use worker_crew::{AllFault, Lines};

// `fault `, a kind of 3 digits, ` at `, a place of 20, and the end of the line fit.
const LONGEST_LINE: usize = 34;

/// Why a run stops.
#[derive(Clone, Copy, Debug, PartialEq, Eq)]
pub enum Stop {
    /// The words are refused.
    Usage,
    /// The input is refused.
    Refused(Refusal),
    /// The rows are too few.
    StoreFull,
    /// A read failed.
    ReadFault,
    /// A write failed.
    WriteFault,
    /// There is no memory.
    Memory,
    /// The numbers of the store's entries are used up.
    Worn,
}

impl From<AllocError> for Stop {
    ghost from_gives = { λ _ e. e ≡ stop.Memory };

    fn from(_: AllocError) -> Self {
        Stop::Memory
    }
}

impl From<Memory> for Stop {
    ghost from_gives = { λ _ e. e ≡ stop.Memory };

    fn from(_: Memory) -> Self {
        Stop::Memory
    }
}

impl From<ReadFail> for Stop {
    ghost from_gives = { λ fail e. e ≡ stop_of_fail fail };

    fn from(fail: ReadFail) -> Self {
        match fail {
            ReadFail::Refused { kind, offset } => Stop::Refused(Refusal {
                kind,
                place: offset,
            }),
            ReadFail::Memory => Stop::Memory,
        }
    }
}

impl From<LineFault> for Stop {
    ghost from_gives = { λ at e. e ≡ stop_of_line at };

    fn from(at: LineFault) -> Self {
        Stop::Refused(Refusal {
            kind: at.kind,
            place: at.line,
        })
    }
}

impl From<TermsFault> for Stop {
    ghost from_gives = { λ fault e. e ≡ stop_of_terms fault };

    fn from(fault: TermsFault) -> Self {
        match fault {
            TermsFault::Refused(fault) => Stop::Refused(fault),
            TermsFault::StoreFull => Stop::StoreFull,
            TermsFault::Memory => Stop::Memory,
        }
    }
}

impl From<AllFault> for Stop {
    ghost from_gives = { λ fault e. e ≡ stop_of_fault fault };

    fn from(fault: AllFault) -> Self {
        match fault {
            AllFault::StoreFull => Stop::StoreFull,
            AllFault::Worn => Stop::Worn,
            AllFault::Memory => Stop::Memory,
        }
    }
}

impl From<WordsFault> for Stop {
    ghost from_gives = { λ fault e. e ≡ stop_of_words fault };

    fn from(fault: WordsFault) -> Self {
        match fault {
            WordsFault::Usage => Stop::Usage,
            WordsFault::Memory => Stop::Memory,
        }
    }
}

/// The lines that workers made, or why a run stops without them.
pub fn lines_or_stop(lines: Result<Lines, AllFault>) -> Result<Lines, Stop>
    ensures { result ≡ lines_or_stop lines }
{
    match lines {
        Ok(lines) => Ok(lines),
        Err(fault) => Err(Stop::from(fault)),
    }
}

/// Why a drill stops, by why its terms stop. The text has no fault, which no proof says. A fault
/// would be told as want of memory.
pub fn stop_of_drill(stop: Stop) -> Stop
    ensures { result ≡ stop_of_drill stop }
{
    match stop {
        Stop::Usage => Stop::Usage,
        Stop::StoreFull => Stop::StoreFull,
        Stop::ReadFault => Stop::ReadFault,
        Stop::WriteFault => Stop::WriteFault,
        Stop::Worn => Stop::Worn,
        Stop::Refused(_) | Stop::Memory => Stop::Memory,
    }
}

// The line of the fault. It takes no memory.
fn fault_line(fault: Refusal) -> ArrayString<LONGEST_LINE>
    ensures { result.bytes ≡ fault_line fault }
{
    let mut line = ArrayString::new();
    line.push_str("fault ");
    line.push_str(Buffer::new().format(fault.kind));
    line.push_str(" at ");
    line.push_str(Buffer::new().format(fault.place));
    line.push_str("\n");
    line
}

// Writes a line to `err`. A fault of `err` changes nothing else.
fn write_line<E: Sink>(err: &mut E, text: &[u8])
    ensures line { TookLine E.taken E.faults err.old err.new text.now }
    ensures later { E.faults err.old ≤ E.faults err.new }
{
    let _ = write_all(err, text);
}

fn write_stop_line<E: Sink>(err: &mut E, stop: Stop)
    ensures line { TookLine E.taken E.faults err.old err.new (stop_line stop) }
    ensures later { E.faults err.old ≤ E.faults err.new }
{
    match stop {
        Stop::Usage => write_line(err, b"usage: rec COMMAND [OPTIONS]\n"),
        Stop::Refused(fault) => write_line(err, fault_line(fault).as_str().as_bytes()),
        Stop::StoreFull => write_line(err, b"store full\n"),
        Stop::ReadFault => write_line(err, b"read fault\n"),
        Stop::WriteFault => write_line(err, b"write fault\n"),
        Stop::Memory => write_line(err, b"out of memory\n"),
        Stop::Worn => write_line(err, b"worn\n"),
    }
}

/// Ends a run that stops here: with its status, and its line to `err`.
pub fn stopped<E: Sink>(err: &mut E, stop: Stop, workers: Workers, chronicle: Chronicle) -> Outcome
    ensures status { result.status ≡ stop_status stop }
    ensures line { TookLine E.taken E.faults err.old err.new (stop_line stop) }
    ensures later { E.faults err.old ≤ E.faults err.new }
    ensures workers { result.workers ≡ workers }
    ensures chronicle { result.chronicle ≡ chronicle }
{
    write_stop_line(err, stop);
    let status = match stop {
        Stop::Usage => 2,
        Stop::Refused(_) => 3,
        Stop::StoreFull => 4,
        Stop::ReadFault => 5,
        Stop::WriteFault => 6,
        Stop::Memory => 7,
        Stop::Worn => 8,
    };
    Outcome {
        status,
        chronicle,
        workers,
    }
}

/// Ends a run that stops before any term is rewritten.
pub fn stopped_before<E: Sink>(alloc: Global, err: &mut E, stop: Stop) -> Outcome
    ensures status { result.status ≡ stop_status stop }
    ensures line { TookLine E.taken E.faults err.old err.new (stop_line stop) }
    ensures later { E.faults err.old ≤ E.faults err.new }
    ensures workers { result.workers ≡ [] }
    ensures chronicle { result.chronicle ≡ [] }
{
    stopped(err, stop, Workers::none(alloc), Chronicle::empty())
}

/// Ends a run for which there is no memory before it begins.
pub fn out_of_memory<E: Sink>(alloc: Global, err: &mut E) -> Outcome
    ensures status { result.status ≡ 7 }
    ensures line { TookLine E.taken E.faults err.old err.new (status_line 7) }
    ensures later { E.faults err.old ≤ E.faults err.new }
    ensures workers { result.workers ≡ [] }
    ensures chronicle { result.chronicle ≡ [] }
{
    stopped_before(alloc, err, Stop::Memory)
}
