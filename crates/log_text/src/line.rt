// A line in memory of its own, written from its end to its front.
ghost use Rattle.std.specs.Prelude.{◌≡◌, ℕ, ◌+◌, ◌*◌, ◌≤◌, [], ◌∷◌, ◌++◌, length, drop, decimal};
ghost use Rattle.log_text.specs.Lines.{names, head_text, names_text, term_text, creation_text};
ghost use Rattle.log_text.specs.Word.{word_of};

use itoa::write_digits;
use std::marker::Model;
use term_model::{Head, Row};

// Room for the line of a creation over 16 rows.
const ROOM: usize = 512;

// Writes a byte before place `at`, and returns where it stands.
#[inline(always)]
fn put(byte: u8, bytes: &mut [u8; ROOM], at: usize) -> usize
    requires { (1 ≤ at) × (at ≤ 512) }
    ensures written { drop result bytes.new ≡ byte ∷ drop at bytes.old }
    ensures start { result + 1 ≡ at }
{
    bytes[at - 1] = byte;
    at - 1
}

// Writes a number so that it ends at `at`, and returns where it starts.
#[inline(always)]
fn put_number(number: u64, bytes: &mut [u8; ROOM], at: usize) -> usize
    requires { (20 ≤ at) × (at ≤ 512) }
    ensures written { drop result bytes.new ≡ decimal number ++ drop at bytes.old }
    ensures room { at ≤ result + 20 }
    ensures within { result ≤ at }
{
    write_digits(number, bytes, at)
}

// The same of a head.
#[inline(always)]
fn put_head(head: Head, bytes: &mut [u8; ROOM], at: usize) -> usize
    requires { (21 ≤ at) × (at ≤ 512) }
    ensures written { drop result bytes.new ≡ head_text head ++ drop at bytes.old }
    ensures room { at ≤ result + 21 }
    ensures within { result ≤ at }
{
    match head {
        Head::App(symbol) => {
            let at = put_number(symbol.0 as u64, bytes, at);
            put(b's', bytes, at)
        }
        Head::Int(value) => {
            let at = put_number(value, bytes, at);
            put(b'i', bytes, at)
        }
        Head::Nil => put(b'e', bytes, at),
        Head::Cons => put(b'c', bytes, at),
    }
}

// The same of a space and its number for each row.
#[inline(always)]
fn put_names(rows: &[Row], bytes: &mut [u8; ROOM], end: usize) -> usize
    requires { (21 * length rows.now ≤ end) × (end ≤ 512) }
    ensures written { drop result bytes.new ≡ names_text (names rows.now) ++ drop end bytes.old }
    ensures room { end ≤ result + 21 * length rows.now }
    ensures within { result ≤ end }
{
    let mut at = end;
    let mut left = rows.len();
    while left > 0 {
        left -= 1;
        at = put_number(rows[left].0 as u64, bytes, at);
        at = put(b' ', bytes, at);
    }
    at
}

// The same of a name, a head and the names of its arguments, with which a line ends.
#[inline(always)]
fn put_term(row: Row, head: Head, args: &[Row], bytes: &mut [u8; ROOM]) -> usize
    requires { length args.now ≤ 16 }
    ensures written { drop result bytes.new ≡ term_text row.0 head (names args.now) }
    ensures room { 100 ≤ result }
    ensures within { result ≤ 512 }
{
    let at = put(b'\n', bytes, ROOM);
    let at = put_names(args, bytes, at);
    let at = put_head(head, bytes, at);
    let at = put(b' ', bytes, at);
    put_number(row.0 as u64, bytes, at)
}

/// The word with which the line of a creation begins.
#[inline(always)]
pub(crate) fn creation_word(made: bool) -> &'static [u8; 7]
    ensures { result.now ≡ word_of made }
{
    if made { b"# make " } else { b"# find " }
}

// The same of that word.
#[inline(always)]
fn put_word(made: bool, bytes: &mut [u8; ROOM], at: usize) -> usize
    requires { (7 ≤ at) × (at ≤ 512) }
    ensures written { drop result bytes.new ≡ word_of made ++ drop at bytes.old }
    ensures within { result ≤ at }
{
    let start = at - 7;
    bytes[start..at].copy_from_slice(creation_word(made));
    start
}

/// The line of a creation; before the first it is empty.
#[derive(Drop)]
pub(crate) struct Line {
    bytes: [u8; ROOM],
    start: usize,
}

impl Model for Line {
    ghost use Rattle.std.specs.Prelude.{ℕ, ◌≤◌, List, drop};

    ghost Value = { List ℕ };

    ghost view = { λ l. drop l.start l.bytes };

    ghost invariant = { λ l. l.start ≤ 512 };
}

impl Line {
    /// An empty line.
    pub(crate) fn new() -> Line
        ensures { result ≡ [] }
    {
        Line {
            bytes: [0; ROOM],
            start: ROOM,
        }
    }

    /// Its bytes.
    pub(crate) fn text(&self) -> &[u8]
        ensures { result.now ≡ self.now }
    {
        &self.bytes[self.start..]
    }

    /// Makes it the line of a creation, which made its row or found it.
    pub(crate) fn tell(&mut self, made: bool, key: u64, head: Head, args: &[Row], row: Row)
        requires { length args.now ≤ 16 }
        ensures { self.new ≡ word_of made ++ creation_text key head (names args.now) row.0 }
    {
        let bytes = &mut self.bytes;
        let at = put_term(row, head, args, bytes);
        let at = put(b' ', bytes, at);
        let at = put_number(key, bytes, at);
        self.start = put_word(made, bytes, at);
    }
}
