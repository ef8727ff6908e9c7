//! Cuts bytes into tokens.
ghost use Rattle.std.specs.Prelude.{◌≡◌, ◌+◌, ◌-◌, ◌≤◌, ◌<◌, ◌^◌, ◌∷◌, [], false, length, drop, slice_get, IfOk, IfErr, IfSome, Ok, Err, IsErrOf, take};
ghost use Rattle.std.specs.Option.{option_map_or};
ghost use Rattle.std.specs.Str.{bytes_eq};
ghost use Rattle.rec_reader.specs.Tokens.{is_space, is_plain, is_name_byte, run_length, comment_length, begins, is_frequent_mark, ends_word, word_of, mark_of, more_of, token_of_run, piece_at, tokens_of, IsBadByte};

use crate::token::{Name, Sign, Token, Tokens};
use faults::kinds;
use read_faults::{ReadFail, refused};
use std::alloc::Global;

/// The most bytes that an input may have: 32 bits hold each count of what it spells.
pub(crate) const MOST_BYTES: usize = u32::MAX as usize;

/// What begins at a byte, with the number of bytes that follow its first.
#[derive(Clone, Copy)]
pub(crate) enum Piece {
    /// White space or a comment.
    Blank(usize),
    Whole(Token, usize),
    Bad,
}

fn is_space(byte: u8) -> bool
    ensures { result ≡ is_space byte }
{
    byte == b' ' || byte == b'\t' || byte == b'\r' || byte == b'\n'
}

// Most bytes that may not stand in a name are one of these marks.
fn is_frequent_mark(byte: u8) -> bool
    ensures { result ≡ is_frequent_mark byte }
{
    byte == b'(' || byte == b')' || byte == b','
}

fn is_plain(byte: u8) -> bool
    ensures { result ≡ is_plain byte }
{
    if is_frequent_mark(byte) {
        false
    } else {
        is_alphanumeric_or_listed(byte)
    }
}

fn is_alphanumeric_or_listed(byte: u8) -> bool
    ensures { result ≡ is_plain byte }
{
    byte.is_ascii_alphanumeric() || b"_'.@#$&*+/!?^~|\\".contains(&byte)
}

fn is_name_byte(bytes: &[u8], at: usize) -> bool
    requires { at < length bytes.now }
    ensures { result ≡ is_name_byte (drop at bytes.now) }
{
    is_plain(bytes[at]) || (bytes[at] == b'-' && !(at + 1 < bytes.len() && bytes[at + 1] == b'>'))
}

#[inline(always)]
fn run_length(bytes: &[u8], start: usize) -> usize
    requires { start ≤ length bytes.now }
    ensures counted { result ≡ run_length (drop start bytes.now) }
    ensures within { start + result ≤ length bytes.now }
{
    let mut at = start;
    while at < bytes.len() && is_name_byte(bytes, at) {
        at += 1;
    }
    at - start
}

#[inline(never)]
fn comment_length(bytes: &[u8], start: usize) -> usize
    requires { start ≤ length bytes.now }
    ensures counted { result ≡ comment_length (drop start bytes.now) }
    ensures within { start + result ≤ length bytes.now }
{
    let mut at = start;
    while at < bytes.len() && bytes[at] != b'\n' {
        at += 1;
    }
    at - start
}

// Whether the last byte is that of a reserved word. Of most names it isn't, and they need no other
// test.
fn may_be_word(run: &[u8]) -> bool
    ensures { result ≡ option_map_or ends_word (slice_get run.now (length run.now - 1)) false }
{
    match run.last() {
        Some(last) => *last == b'C' || *last == b'S' || *last == b'L' || *last == b'f',
        None => false,
    }
}

// The reserved word that a run is, if it is one.
fn word_of(run: &[u8]) -> Option<Sign>
    ensures { result ≡ word_of run.now }
{
    if may_be_word(run) {
        word_among(run)
    } else {
        None
    }
}

// Whether a run is this text.
fn is_text(run: &[u8], text: &[u8]) -> bool
    ensures { result ≡ bytes_eq run.now text.now }
{
    run == text
}

fn word_among(run: &[u8]) -> Option<Sign>
    ensures { result ≡ word_of run.now }
{
    if is_text(run, b"REC-SPEC") {
        Some(Sign::RecSpec)
    } else if is_text(run, b"SORTS") {
        Some(Sign::Sorts)
    } else if is_text(run, b"CONS") {
        Some(Sign::Cons)
    } else if is_text(run, b"OPNS") {
        Some(Sign::Opns)
    } else if is_text(run, b"VARS") {
        Some(Sign::Vars)
    } else if is_text(run, b"RULES") {
        Some(Sign::Rules)
    } else if is_text(run, b"EVAL") {
        Some(Sign::Eval)
    } else if is_text(run, b"END-SPEC") {
        Some(Sign::EndSpec)
    } else if is_text(run, b"if") {
        Some(Sign::If)
    } else if is_text(run, b"and-if") {
        Some(Sign::AndIf)
    } else {
        None
    }
}

// Whether the first of the bytes is this one.
fn begins_with(bytes: &[u8], byte: u8) -> bool
    ensures { result ≡ begins bytes.now (byte ∷ []) }
{
    match bytes.first() {
        Some(first) => *first == byte,
        None => false,
    }
}

#[inline(always)]
fn mark_of(bytes: &[u8]) -> Option<(Sign, usize)>
    ensures mark { result ≡ mark_of bytes.now }
    ensures within { IfSome result (λ m. m.1 < length bytes.now) }
{
    if begins_with(bytes, b':') {
        Some((Sign::Colon, 0))
    } else if begins_with(bytes, b',') {
        Some((Sign::Comma, 0))
    } else if begins_with(bytes, b'(') {
        Some((Sign::Open, 0))
    } else if begins_with(bytes, b')') {
        Some((Sign::Close, 0))
    } else if begins_with(bytes, b'=') {
        Some((Sign::Equal, 0))
    } else if bytes.starts_with(b"<>") {
        Some((Sign::Unequal, 1))
    } else if bytes.starts_with(b"-><-") {
        Some((Sign::Joins, 3))
    } else if bytes.starts_with(b"->/<-") {
        Some((Sign::Parts, 4))
    } else if bytes.starts_with(b"->") {
        Some((Sign::Arrow, 1))
    } else {
        None
    }
}

// The token of a run that begins at `at` and has `more` bytes after its first.
#[inline(always)]
fn token_of_run(bytes: &[u8], at: usize, more: usize) -> Token
    requires { at + more < length bytes.now }
    ensures { result ≡ token_of_run at (take (more + 1) (drop at bytes.now)) }
{
    let end = at + more + 1;
    match word_of(&bytes[at..end]) {
        Some(sign) => Token::At(sign, at),
        None => Token::Named(Name { start: at, end }),
    }
}

#[inline(always)]
pub(crate) fn piece_at(bytes: &[u8], at: usize) -> Piece
    requires { at < length bytes.now }
    ensures piece { result ≡ piece_at at (drop at bytes.now) }
    ensures within { at + more_of result < length bytes.now }
{
    if is_space(bytes[at]) {
        return Piece::Blank(0);
    }
    if bytes[at] == b'%' {
        return Piece::Blank(comment_length(bytes, at + 1));
    }
    if is_name_byte(bytes, at) {
        let more = run_length(bytes, at + 1);
        return Piece::Whole(token_of_run(bytes, at, more), more);
    }
    match mark_of(&bytes[at..]) {
        Some((sign, more)) => Piece::Whole(Token::At(sign, at), more),
        None => Piece::Bad,
    }
}

/// The tokens of bytes, with their places in bytes from 0.
///
/// White space is space, tab, CR and LF; a comment goes from `%` to the next LF or the end. A name
/// is a longest run of name bytes that is no reserved word. Refuses with kind 1 the first byte
/// where no token, white space or comment begins. An input of 2^32 bytes or more isn't read, and is
/// answered as want of memory.
pub fn tokens(alloc: Global, bytes: &[u8]) -> Result<Tokens<'_>, ReadFail>
    ensures bytes { IfOk result (λ t. t.bytes ≡ bytes.now) }
    ensures tokens { IfOk result (λ t. tokens_of bytes.now ≡ Ok t.tokens) }
    ensures refused_only_at_first_bad_byte { IfErr result (IsBadByte bytes.now) }
    ensures too_long { 2 ^ 32 ≤ length bytes.now → IsErrOf result ReadFail.Memory }
{
    if bytes.len() > MOST_BYTES {
        return Err(ReadFail::Memory);
    }
    let mut items = Vec::new(alloc);
    let mut at = 0;
    while at < bytes.len() {
        match piece_at(bytes, at) {
            Piece::Blank(more) => at += more + 1,
            Piece::Whole(token, more) => {
                items.push(token)?;
                at += more + 1;
            }
            Piece::Bad => return Err(refused(kinds::BAD_BYTE, at)),
        }
    }
    Ok(Tokens { text: bytes, items })
}
