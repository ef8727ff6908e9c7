//! A log as it is read, line by line.

ghost use Rattle.std.specs.Prelude.{◌≡◌, ℕ, Ok, IfOk, IfErr, Some};
ghost use Rattle.log_check.specs.Log.{at_start, is_inside, placed, taken, log_in, IsTaken};
ghost use Rattle.log_check.specs.Form.{is_marked};
ghost use Rattle.log_check.specs.declared.form.LogLine.TheVariants.{Header, Caller, Step, End};
ghost use Rattle.log_check.specs.Verdict.{IsRefused};
ghost use Rattle.read_faults.specs.declared.fail.ReadFail.TheVariants.{Refused};

use crate::form::{LogLine, line_of};
use crate::lines::next_line;
use faults::{Memory, kinds};
use history_core::Entry;
use read_faults::ReadFail;
use std::alloc::Global;
use std::marker::Model;

/// An entry with its line in the log, counted from 1, and its caller.
#[derive(Drop)]
pub(crate) struct Noted {
    pub(crate) line: u64,
    pub(crate) caller: u32,
    pub(crate) entry: Entry,
}

/// Which part of the log is read next: its header, its callers, or nothing more.
#[derive(Clone, Copy, Debug, PartialEq, Eq)]
pub(crate) enum Stage {
    Before,
    Inside,
    After,
}

/// What has been read of a log.
#[derive(Drop)]
pub(crate) struct Log {
    pub(crate) stage: Stage,
    pub(crate) rows: u32,
    pub(crate) callers: u32,
    pub(crate) begun: u32,
    pub(crate) noted: Vec<Noted>,
}

impl Model for Log {
    ghost use Rattle.log_check.specs.Log.{Log};

    ghost Value = { Log };

    ghost use Rattle.log_check.specs.Filed.{IsFiled};

    ghost view = { λ l. record { stage = l.stage; rows = l.rows; callers = l.callers; begun = l.begun; noted = l.noted.items } };

    ghost invariant = { λ l. IsFiled l.callers l.begun l.noted.items };
}

impl Log {
    /// Nothing is read.
    fn new(alloc: Global) -> Self
        ensures { result ≡ at_start }
    {
        Log {
            stage: Stage::Before,
            rows: 0,
            callers: 0,
            begun: 0,
            noted: Vec::new(alloc),
        }
    }

    fn is_inside(&self) -> bool
        ensures { result ≡ is_inside self.now.stage }
    {
        self.stage == Stage::Inside
    }

    fn begin(&mut self, rows: u32, callers: u32) -> bool
        ensures { (n : ℕ) → IsTaken (placed n self.old (Header rows callers)) self.new result }
    {
        if self.stage != Stage::Before {
            return false;
        }
        let alloc = *self.noted.allocator();
        *self = Log {
            stage: Stage::Inside,
            rows,
            callers,
            begun: 0,
            noted: Vec::new(alloc),
        };
        true
    }

    fn begin_caller(&mut self, caller: u32) -> bool
        ensures { (n : ℕ) → IsTaken (placed n self.old (Caller caller)) self.new result }
    {
        if self.is_inside() && caller == self.begun && caller < self.callers {
            self.begun += 1;
            return true;
        }
        false
    }

    fn note(&mut self, line: u64, entry: Entry) -> Result<bool, Memory>
        ensures { IfOk result (IsTaken (placed line self.old (Step entry)) self.new) }
    {
        if self.is_inside() && self.begun > 0 {
            let caller = self.begun - 1;
            self.noted.push(Noted {
                line,
                caller,
                entry,
            })?;
            return Ok(true);
        }
        Ok(false)
    }

    fn end(&mut self) -> bool
        ensures { (n : ℕ) → IsTaken (placed n self.old End) self.new result }
    {
        if self.is_inside() && self.begun == self.callers {
            self.stage = Stage::After;
            return true;
        }
        false
    }

    /// Takes what a line of the log is, where it may stand.
    fn place(&mut self, line: u64, what: LogLine) -> Result<bool, Memory>
        ensures { IfOk result (IsTaken (placed line self.old what) self.new) }
    {
        match what {
            LogLine::Header { rows, callers } => Ok(self.begin(rows, callers)),
            LogLine::Caller(caller) => Ok(self.begin_caller(caller)),
            LogLine::Step(entry) => self.note(line, entry),
            LogLine::End => Ok(self.end()),
        }
    }

    /// Takes a line of the input, which is passed over where it has no mark.
    fn take(&mut self, alloc: Global, line: u64, text: &[u8]) -> Result<bool, Memory>
        ensures { IfOk result (IsTaken (taken line self.old text.now) self.new) }
    {
        if !is_marked(text) {
            return Ok(true);
        }
        match line_of(alloc, &text[1..])? {
            Some(what) => self.place(line, what),
            None => Ok(false),
        }
    }
}

/// Whether a line begins with the mark of a log's lines.
fn is_marked(text: &[u8]) -> bool
    ensures { result ≡ is_marked text.now }
{
    match text {
        [first, second, ..] => *first == b'#' && *second == b' ',
        _ => false,
    }
}

/// The refusal of a line of a wrong form, counted from 1.
fn bad_line(line: u64) -> ReadFail
    ensures { result ≡ Refused 15 line }
{
    ReadFail::Refused {
        kind: kinds::BAD_LINE,
        offset: line,
    }
}

/// Reads a log: the lines of the input that have the mark. Refused at the first of a wrong form or
/// out of place, and after the last line where the log doesn't end.
pub(crate) fn read_log(alloc: Global, bytes: &[u8]) -> Result<Log, ReadFail>
    ensures read { IfOk result (λ log. log_in bytes.now ≡ Ok log) }
    ensures refused { IfErr result (IsRefused (log_in bytes.now)) }
{
    let mut log = Log::new(alloc);
    let mut rest = bytes;
    let mut line = 0;
    'lines: while let Some((text, after)) = next_line(rest) {
        line += 1;
        if !log.take(alloc, line, text)? {
            return Err(bad_line(line));
        }
        rest = after;
    }
    if log.stage == Stage::After {
        Ok(log)
    } else {
        Err(bad_line(line + 1))
    }
}
