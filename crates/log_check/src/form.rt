//! The form of a log's lines.

ghost use Rattle.std.specs.Prelude.{◌≡◌, ◌^◌, IfOk};
ghost use Rattle.log_check.specs.Form.{number_below, names_in, head_in, takes, creation_in, listing_in, entry_in, header_in, caller_in, end_in, line_in, make_of, find_of, roots_of, collect_of};
ghost use Rattle.log_check.specs.Words.{words_after};

use crate::words::{next_word, number_of};
use faults::Memory;
use history_core::Entry;
use std::alloc::Global;
use std::collections::LinkedList;
use term_model::{Head, Symbol};

/// What a creation notes: a key, the name of its term, and its head over the names of its
/// arguments.
#[derive(Drop)]
pub(crate) struct Creation {
    pub(crate) key: u64,
    pub(crate) row: u32,
    pub(crate) head: Head,
    pub(crate) args: LinkedList<u32>,
}

/// What a leave or a collection notes: a key and names.
#[derive(Drop)]
pub(crate) struct Listing {
    pub(crate) key: u64,
    pub(crate) names: LinkedList<u32>,
}

/// A line of a log.
#[derive(Drop)]
pub(crate) enum LogLine {
    /// The rows of the store, and the callers.
    Header { rows: u32, callers: u32 },
    /// The entries of this caller follow.
    Caller(u32),
    Step(Entry),
    End,
}

/// The number below a bound that a word is.
fn number_below(bound: u64, word: &[u8]) -> Option<u64>
    ensures { result ≡ number_below bound word.now }
{
    let number = number_of(word)?;
    if number < bound { Some(number) } else { None }
}

/// A key that a word is.
fn key_of(word: &[u8]) -> Option<u64>
    ensures { result ≡ number_below (2 ^ 62) word.now }
{
    number_below(1 << 62, word)
}

/// A name that a word is.
fn name_of(word: &[u8]) -> Option<u32>
    ensures { result ≡ number_below (2 ^ 32) word.now }
{
    let name = number_below(1 << 32, word)?;
    Some(name as u32)
}

/// The names that words after a space are.
fn names_of(alloc: Global, rest: &[u8]) -> Result<Option<LinkedList<u32>>, Memory>
    ensures { IfOk result (λ names. names ≡ names_in (words_after rest.now)) }
{
    let mut names = LinkedList::new(alloc);
    let mut left = rest;
    'words: while let Some((word, after)) = next_word(left) {
        let Some(name) = name_of(word) else {
            return Ok(None);
        };
        names.push_back(name)?;
        left = after;
    }
    Ok(Some(names))
}

/// The head that a word is.
fn head_of(word: &[u8]) -> Option<Head>
    ensures { result ≡ head_in word.now }
{
    let (first, number) = word.split_first()?;
    if *first == b's' {
        let symbol = number_below(65_535, number)?;
        return Some(Head::App(Symbol(symbol as u32)));
    }
    if *first == b'i' {
        return Some(Head::Int(number_of(number)?));
    }
    if word == b"e".as_slice() {
        return Some(Head::Nil);
    }
    if word == b"c".as_slice() {
        Some(Head::Cons)
    } else {
        None
    }
}

/// Whether a head takes so many arguments.
fn takes(head: Head, count: usize) -> bool
    ensures { result ≡ takes head count }
{
    match head {
        Head::App(_) => count <= 16,
        Head::Int(_) | Head::Nil => count == 0,
        Head::Cons => count == 2,
    }
}

/// What a creation notes, as words after a space.
fn creation_of(alloc: Global, rest: &[u8]) -> Result<Option<Creation>, Memory>
    ensures { IfOk result (λ c. c ≡ creation_in (words_after rest.now)) }
{
    let Some((number, rest)) = next_word(rest) else {
        return Ok(None);
    };
    let Some((row, rest)) = next_word(rest) else {
        return Ok(None);
    };
    let Some((head, rest)) = next_word(rest) else {
        return Ok(None);
    };
    let (Some(key), Some(row), Some(head)) = (key_of(number), name_of(row), head_of(head)) else {
        return Ok(None);
    };
    match names_of(alloc, rest)? {
        Some(args) if takes(head, args.len()) => Ok(Some(Creation {
            key,
            row,
            head,
            args,
        })),
        _ => Ok(None),
    }
}

/// What a leave or a collection notes, as words after a space.
fn listing_of(alloc: Global, rest: &[u8]) -> Result<Option<Listing>, Memory>
    ensures { IfOk result (λ l. l ≡ listing_in (words_after rest.now)) }
{
    let Some((number, rest)) = next_word(rest) else {
        return Ok(None);
    };
    let Some(key) = key_of(number) else {
        return Ok(None);
    };
    match names_of(alloc, rest)? {
        Some(names) => Ok(Some(Listing { key, names })),
        None => Ok(None),
    }
}

fn make(noted: Creation) -> Entry
    ensures { result ≡ make_of noted }
{
    Entry::Make {
        number: noted.key,
        head: noted.head,
        args: noted.args,
        row: noted.row,
    }
}

fn find(noted: Creation) -> Entry
    ensures { result ≡ find_of noted }
{
    Entry::Find {
        after: noted.key,
        head: noted.head,
        args: noted.args,
        row: noted.row,
    }
}

fn roots(noted: Listing) -> Entry
    ensures { result ≡ roots_of noted }
{
    Entry::Roots {
        after: noted.key,
        rows: noted.names,
    }
}

fn collect(noted: Listing) -> Entry
    ensures { result ≡ collect_of noted }
{
    Entry::Collect {
        number: noted.key,
        kept: noted.names,
    }
}

/// The entry of a word and the words after it.
fn entry_of(alloc: Global, word: &[u8], rest: &[u8]) -> Result<Option<Entry>, Memory>
    ensures { IfOk result (λ e. e ≡ entry_in word.now (words_after rest.now)) }
{
    if word == b"make".as_slice() {
        return Ok(creation_of(alloc, rest)?.map(make));
    }
    if word == b"find".as_slice() {
        return Ok(creation_of(alloc, rest)?.map(find));
    }
    if word == b"roots".as_slice() {
        return Ok(listing_of(alloc, rest)?.map(roots));
    }
    if word == b"collect".as_slice() {
        return Ok(listing_of(alloc, rest)?.map(collect));
    }
    Ok(None)
}

/// The rows, 1 to 262,144, and the callers, 1 to 16, as words after a space.
fn header_of(rest: &[u8]) -> Option<LogLine>
    ensures { result ≡ header_in (words_after rest.now) }
{
    let (rows, rest) = next_word(rest)?;
    let (callers, rest) = next_word(rest)?;
    if next_word(rest).is_some() {
        return None;
    }
    let rows = number_below(262_145, rows)?;
    let callers = number_below(17, callers)?;
    if rows > 0 && callers > 0 {
        Some(LogLine::Header {
            rows: rows as u32,
            callers: callers as u32,
        })
    } else {
        None
    }
}

/// The number of a caller, as the one word after a space.
fn caller_of(rest: &[u8]) -> Option<LogLine>
    ensures { result ≡ caller_in (words_after rest.now) }
{
    let (word, rest) = next_word(rest)?;
    if next_word(rest).is_some() {
        return None;
    }
    let caller = number_below(16, word)?;
    Some(LogLine::Caller(caller as u32))
}

/// No word after the one that ends a log.
fn end_of(rest: &[u8]) -> Option<LogLine>
    ensures { result ≡ end_in (words_after rest.now) }
{
    match next_word(rest) {
        Some(_) => None,
        None => Some(LogLine::End),
    }
}

/// The line that words after its mark are.
pub(crate) fn line_of(alloc: Global, rest: &[u8]) -> Result<Option<LogLine>, Memory>
    ensures { IfOk result (λ line. line ≡ line_in (words_after rest.now)) }
{
    let Some((word, rest)) = next_word(rest) else {
        return Ok(None);
    };
    if word == b"log".as_slice() {
        return Ok(header_of(rest));
    }
    if word == b"caller".as_slice() {
        return Ok(caller_of(rest));
    }
    if word == b"end".as_slice() {
        return Ok(end_of(rest));
    }
    Ok(entry_of(alloc, word, rest)?.map(LogLine::Step))
}
