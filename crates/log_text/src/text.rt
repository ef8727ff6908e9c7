// The text of a whole log.
ghost use Rattle.std.specs.Prelude.{◌≡◌, ◌++◌, IfOk, OnOk};
ghost use Rattle.std.specs.List.{flat_map};
ghost use Rattle.log_text.specs.Lines.{header_text, caller_text, end_text};

use crate::writing::{write_caller, write_end, write_header};
use faults::Memory;
use std::alloc::Global;
use std::marker::Model;

/// The text of a log of several callers, in parts: the lines that a caller wrote stay in the memory
/// where it wrote them, so that none is copied before it is written out. Contracts see the bytes of
/// all parts, in order.
#[derive(Drop)]
pub struct LogText {
    parts: Vec<Vec<u8>>,
}

impl Model for LogText {
    ghost use Rattle.std.specs.Prelude.{ℕ, List};
    ghost use Rattle.std.specs.List.{flat_map};

    ghost Value = { List ℕ };

    ghost view = { λ text. flat_map (λ part. part.items) text.parts.items };
}

impl LogText {
    /// The first line: how many rows the store has, and how many callers.
    pub fn begin(alloc: Global, rows: u32, callers: u32) -> Result<LogText, Memory>
        ensures { IfOk result (λ text. text ≡ header_text rows callers) }
    {
        let mut header = Vec::new(alloc);
        write_header(rows, callers, &mut header)?;
        let mut text = LogText {
            parts: Vec::new(alloc),
        };
        text.push(header)?;
        Ok(text)
    }

    // Appends a part.
    fn push(&mut self, part: Vec<u8>) -> Result<(), Memory>
        ensures { OnOk result (self.new ≡ self.old ++ part.items) }
    {
        self.parts.push(part)?;
        Ok(())
    }

    /// The text, and behind it the line of a caller and the lines of its steps.
    pub fn with_caller(self, alloc: Global, caller: u32, steps: Vec<u8>) -> Result<LogText, Memory>
        ensures { IfOk result (λ text. text ≡ self ++ (caller_text caller ++ steps.items)) }
    {
        let mut text = self;
        let mut line = Vec::new(alloc);
        write_caller(caller, &mut line)?;
        text.push(line)?;
        text.push(steps)?;
        Ok(text)
    }

    /// The text, and behind it the last line.
    pub fn with_end(self, alloc: Global) -> Result<LogText, Memory>
        ensures { IfOk result (λ text. text ≡ self ++ end_text) }
    {
        let mut text = self;
        let mut line = Vec::new(alloc);
        write_end(&mut line)?;
        text.push(line)?;
        Ok(text)
    }

    /// Its parts, in order.
    pub fn parts(&self) -> &[Vec<u8>]
        ensures { flat_map (λ part. part.items) result.now ≡ self.now }
    {
        &self.parts
    }
}
