// A log in memory.
ghost use Rattle.std.specs.Prelude.{◌≡◌, ◌++◌, [], true, Some, is_none, IfSome, IfOk, OnOk};
ghost use Rattle.std.specs.Option.{option_map};
ghost use Rattle.history_core.specs.declared.entry.Entry.TheVariants.{Make, Find, Roots, Collect};
ghost use Rattle.log_text.specs.Lines.{names, creation_text, listing_text, Adds};
ghost use Rattle.log_text.specs.Word.{word_of};

use crate::line::{Line, creation_word};
use crate::writing::{write_creation, write_listing};
use faults::Memory;
use std::alloc::Global;
use std::marker::Model;
use term_model::{Head, Row};

/// The lines of the steps that a caller has noted, in order. Where memory lacks for one, all are
/// let go, and the log is lost for good: contracts see the lines, or None.
#[derive(Drop)]
pub struct Log {
    lines: Option<Vec<u8>>,
    /// Where the line of a creation is written.
    line: Line,
}

impl Model for Log {
    ghost use Rattle.std.specs.Prelude.{ℕ, List, Option};
    ghost use Rattle.std.specs.Option.{option_map};

    ghost Value = { Option (List ℕ) };

    ghost view = { λ log. option_map (λ bytes. bytes.items) log.lines };
}

// Appends the line of a creation, which is written into this one where it is short.
fn push_creation(
    lines: &mut Vec<u8>,
    line: &mut Line,
    made: bool,
    key: u64,
    head: Head,
    args: &[Row],
    row: Row,
) -> Result<(), Memory>
    ensures { OnOk result (lines.new.items
        ≡ lines.old.items ++ (word_of made ++ creation_text key head (names args.now) row.0)) }
{
    if args.len() <= 16 {
        line.tell(made, key, head, args, row);
        lines.extend_from_slice(line.text())?;
        return Ok(());
    }
    lines.extend_from_slice(creation_word(made))?;
    write_creation(key, head, args, row, lines)
}

// Lines with that of another step, which begins with this word.
fn with_listing(mut lines: Vec<u8>, word: &[u8], key: u64, rows: &[Row]) -> Result<Vec<u8>, Memory>
    ensures { IfOk result (λ longer. longer.items
        ≡ lines.items ++ (word.now ++ listing_text key (names rows.now))) }
{
    lines.extend_from_slice(word)?;
    write_listing(key, rows, &mut lines)?;
    Ok(lines)
}

impl Log {
    /// A log without a line. It takes no memory.
    pub fn new(alloc: Global) -> Log
        ensures { result ≡ Some [] }
    {
        Log {
            lines: Some(Vec::new(alloc)),
            line: Line::new(),
        }
    }

    // Notes a creation, which made its row or found it.
    fn note_creation(&mut self, made: bool, key: u64, head: Head, args: &[Row], row: Row)
        ensures { IfSome self.new (λ lines. self.new ≡ option_map
            (λ before. before ++ (word_of made ++ creation_text key head (names args.now) row.0))
            self.old) }
    {
        if let Some(lines) = &mut self.lines {
            if push_creation(lines, &mut self.line, made, key, head, args, row).is_err() {
                self.lines = None;
            }
        }
    }

    /// Notes a creation that made a row.
    pub fn make(&mut self, number: u64, head: Head, args: &[Row], row: Row)
        ensures { Adds self.old self.new (Make number head (names args.now) row.0) }
    {
        self.note_creation(true, number, head, args, row);
    }

    /// Notes a creation that found a row.
    pub fn find(&mut self, after: u64, head: Head, args: &[Row], row: Row)
        ensures { Adds self.old self.new (Find after head (names args.now) row.0) }
    {
        self.note_creation(false, after, head, args, row);
    }

    /// Notes a leave, with the rows that are protected.
    pub fn roots(&mut self, after: u64, rows: &[Row])
        ensures { Adds self.old self.new (Roots after (names rows.now)) }
    {
        self.lines = match self.lines.take() {
            Some(lines) => with_listing(lines, b"# roots ", after, rows).ok(),
            None => None,
        };
    }

    /// Notes a collection, with the rows that stay.
    pub fn collect(&mut self, number: u64, kept: &[Row])
        ensures { Adds self.old self.new (Collect number (names kept.now)) }
    {
        self.lines = match self.lines.take() {
            Some(lines) => with_listing(lines, b"# collect ", number, kept).ok(),
            None => None,
        };
    }

    /// Lets the log go, where memory lacked for what it was to note.
    pub fn lose(&mut self)
        ensures { is_none self.new ≡ true }
    {
        self.lines = None;
    }

    /// Whether memory has lacked.
    pub fn lost(&self) -> bool
        ensures { result ≡ is_none self.now }
    {
        self.lines.is_none()
    }

    /// The lines; none where the log is lost.
    pub fn lines(&self) -> &[u8]
        ensures lines { IfSome self.now (λ lines. result.now ≡ lines) }
        ensures lost { is_none self.now ≡ true → result.now ≡ [] }
    {
        match &self.lines {
            Some(lines) => lines.as_slice(),
            None => &[],
        }
    }

    /// The lines, taken out; or None where the log is lost.
    pub fn into_lines(self) -> Option<Vec<u8>>
        ensures { option_map (λ lines. lines.items) result ≡ self }
    {
        let Log { lines, line: _ } = self;
        lines
    }
}
