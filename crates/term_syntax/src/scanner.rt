//! Cuts bytes into tokens.
ghost use Rattle.std.specs.Prelude.{◌≡◌, ◌+◌, ◌≤◌, ◌<◌, length, drop, IfOk, IfErr, OnOk, Ok, Err, Some, true, false, slice_index};
ghost use Rattle.std.specs.Char.{is_ascii_digit};
ghost use Rattle.std.specs.Str.Parse.{digits_value, AllDigits};
ghost use Rattle.read_faults.specs.declared.fail.ReadFail.TheVariants.{Memory};
ghost use Rattle.read_faults.specs.Fault.{IsDue};
ghost use Rattle.term_syntax.specs.Shown.{piece_in, plain_at, quoted_at, value_at, BeginsCut};
ghost use Rattle.term_syntax.specs.Reached.{HasTokens};
ghost use Rattle.term_syntax.specs.Tokens as spec;
ghost use Rattle.tree_text.specs.NameBytes as name_bytes;

use crate::name::Name;
use crate::token::{Mark, Shape, Token};
use faults::kinds;
use read_faults::{ReadFail, refused};
use std::alloc::Global;
use tree_text::{begins_name, continues_name};

/// What begins at a byte: white space of one byte, or a token with the place after it.
#[derive(Clone, Copy)]
pub enum Cut {
    Blank,
    Whole(Token, usize),
}

// The place after the name bytes that stand from `start` on.
fn name_end(bytes: &[u8], start: usize) -> usize
    requires { start ≤ length bytes.now }
    ensures end { result ≡ start + spec.front_length name_bytes.continues_name
        (drop start bytes.now) }
    ensures within { result ≤ length bytes.now }
{
    let mut at = start;
    while at < bytes.len() && continues_name(bytes[at]) {
        at += 1;
    }
    at
}

// The place after the digits that stand from `start` on.
fn number_end(bytes: &[u8], start: usize) -> usize
    requires { start ≤ length bytes.now }
    ensures end { result ≡ start + spec.front_length is_ascii_digit (drop start bytes.now) }
    ensures within { result ≤ length bytes.now }
{
    let mut at = start;
    while at < bytes.len() && bytes[at].is_ascii_digit() {
        at += 1;
    }
    at
}

// The integer that digits spell, if they spell one up to 2^64 - 1 without a leading zero.
fn integer_of(digits: &[u8]) -> Option<u64>
    requires { AllDigits 10 digits.now }
    ensures { result ≡ spec.integer_of digits.now }
{
    if digits.len() > 1 && digits[0] == b'0' {
        return None;
    }
    value_of(digits)
}

// The value of digits, if it is at most 2^64 - 1.
fn value_of(digits: &[u8]) -> Option<u64>
    requires { AllDigits 10 digits.now }
    ensures { result ≡ spec.up_to_most (digits_value 10 digits.now) }
{
    let mut value: u64 = 0;
    for digit in digits {
        let shifted = value.checked_mul(10)?;
        value = shifted.checked_add(u64::from(*digit - b'0'))?;
    }
    Some(value)
}

// The quoted name whose first byte stands at `start`, behind its opening quote, and the place after
// its closing quote.
fn quoted(alloc: Global, bytes: &[u8], start: usize) -> Result<(Name, usize), ReadFail>
    requires { start ≤ length bytes.now }
    ensures name { IfOk result (λ q. spec.quoted start false (drop start bytes.now) ≡ Ok q) }
    ensures within { IfOk result (λ q. start < q.1) }
    ensures fits { IfOk result (λ q. q.1 ≤ length bytes.now) }
    ensures refused { IfErr result (IsDue (spec.quoted start false (drop start bytes.now))) }
{
    let mut name = Name::new(alloc);
    let mut at = start;
    let mut behind = false;
    while at < bytes.len() {
        let byte = bytes[at];
        match role_of(behind, byte) {
            Role::Closes => return Ok((name, at + 1)),
            Role::Escapes => behind = true,
            Role::Stands => {
                name.push(byte)?;
                behind = false;
            }
            Role::Bad => return Err(refused(kinds::BAD_BYTE, at)),
        }
        at += 1;
    }
    Err(refused(kinds::UNENDED, at))
}

/// What a byte within quotes does.
#[derive(Clone, Copy)]
enum Role {
    Closes,
    Escapes,
    Stands,
    Bad,
}

// What a byte within quotes does, behind a backslash or not.
fn role_of(behind: bool, byte: u8) -> Role
    ensures { result ≡ spec.role_of behind byte }
{
    match (behind, byte) {
        (true, b'"' | b'\\') => Role::Stands,
        (true, _) => Role::Bad,
        (false, b'"') => Role::Closes,
        (false, b'\\') => Role::Escapes,
        (false, b' '..=b'~') => Role::Stands,
        (false, _) => Role::Bad,
    }
}

#[inline(always)]
fn plain_name(bytes: &[u8], at: usize) -> Cut
    requires within { at < length bytes.now }
    requires begins { name_bytes.begins_name (slice_index bytes.now at) ≡ true }
    ensures begins { BeginsCut (slice_index bytes.now at) result }
    ensures name { piece_in bytes.now result ≡ spec.plain_piece at (drop at bytes.now) }
    ensures after { at < spec.next_of at (piece_in bytes.now result) }
    ensures fits { spec.next_of at (piece_in bytes.now result) ≤ length bytes.now }
{
    let end = name_end(bytes, at + 1);
    let token = Token {
        shape: Shape::Word,
        place: at,
    };
    Cut::Whole(token, end)
}

#[tactic(auto, using(crate::proofs::Pieces::quoted_is))]
fn quoted_name(alloc: Global, bytes: &[u8], at: usize) -> Result<Cut, ReadFail>
    requires within { at < length bytes.now }
    requires quote { slice_index bytes.now at ≡ 34 }
    ensures begins { IfOk result (BeginsCut (slice_index bytes.now at)) }
    ensures name { IfOk result (λ c.
        spec.quoted_piece at (spec.quoted (at + 1) false (drop (at + 1) bytes.now))
        ≡ Ok (piece_in bytes.now c)) }
    ensures after { IfOk result (λ c. at < spec.next_of at (piece_in bytes.now c)) }
    ensures fits { IfOk result (λ c. spec.next_of at (piece_in bytes.now c) ≤ length bytes.now) }
    ensures refused { IfErr result
        (IsDue (spec.quoted_piece at (spec.quoted (at + 1) false (drop (at + 1) bytes.now)))) }
{
    let (_name, end) = quoted(alloc, bytes, at + 1)?;
    let token = Token {
        shape: Shape::Quoted,
        place: at,
    };
    Ok(Cut::Whole(token, end))
}

#[inline(always)]
fn number(bytes: &[u8], at: usize) -> Cut
    requires within { at < length bytes.now }
    requires digit { is_ascii_digit (slice_index bytes.now at) ≡ true }
    ensures begins { BeginsCut (slice_index bytes.now at) result }
    ensures number { piece_in bytes.now result ≡ spec.number_piece at (drop at bytes.now) }
    ensures after { at < spec.next_of at (piece_in bytes.now result) }
    ensures fits { spec.next_of at (piece_in bytes.now result) ≤ length bytes.now }
{
    let end = number_end(bytes, at + 1);
    let token = Token {
        shape: Shape::Number,
        place: at,
    };
    Cut::Whole(token, end)
}

#[inline(always)]
fn mark(bytes: &[u8], byte: u8, mark: Mark, at: usize) -> Cut
    requires at { at < usize.MAX }
    requires mark { spec.mark_of byte ≡ Some mark }
    ensures begins { BeginsCut byte result }
    ensures mark { spec.mark_piece at (spec.mark_of byte) ≡ Ok (piece_in bytes.now result) }
    ensures after { spec.next_of at (piece_in bytes.now result) ≡ at + 1 }
{
    // Only the contract reads these.
    let _ = bytes;
    let _ = byte;
    let token = Token {
        shape: Shape::At(mark),
        place: at,
    };
    Cut::Whole(token, at + 1)
}

/// What begins at a place of the bytes, in bytes from 0.
///
/// White space is space, tab, CR and LF. Refuses with kind 1 the first byte that begins no token or
/// may not stand in quotes, and with kind 3, at the length of the input, quotes that aren't closed.
#[inline(always)]
pub fn piece_at(alloc: Global, bytes: &[u8], at: usize) -> Result<Cut, ReadFail>
    requires { at < length bytes.now }
    ensures begins { IfOk result (BeginsCut (slice_index bytes.now at)) }
    ensures piece { IfOk result (λ c.
        spec.piece_at at (drop at bytes.now) ≡ Ok (piece_in bytes.now c)) }
    ensures after { IfOk result (λ c. at < spec.next_of at (piece_in bytes.now c)) }
    ensures fits { IfOk result (λ c. spec.next_of at (piece_in bytes.now c) ≤ length bytes.now) }
    ensures refused { IfErr result (IsDue (spec.piece_at at (drop at bytes.now))) }
{
    let byte = bytes[at];
    if begins_name(byte) {
        return Ok(plain_name(bytes, at));
    }
    match byte {
        b' ' | b'\t' | b'\r' | b'\n' => Ok(Cut::Blank),
        b'"' => {
            let cut = quoted_name(alloc, bytes, at)?;
            Ok(cut)
        }
        b'(' => Ok(mark(bytes, byte, Mark::Open, at)),
        b')' => Ok(mark(bytes, byte, Mark::Close, at)),
        b'[' => Ok(mark(bytes, byte, Mark::OpenList, at)),
        b']' => Ok(mark(bytes, byte, Mark::CloseList, at)),
        b',' => Ok(mark(bytes, byte, Mark::Comma, at)),
        b'0'..=b'9' => Ok(number(bytes, at)),
        _ => Err(refused(kinds::BAD_BYTE, at)),
    }
}

/// Looks whether all bytes have tokens, and refuses them as `piece_at` does where they don't.
pub(crate) fn look_through(alloc: Global, bytes: &[u8]) -> Result<(), ReadFail>
    ensures tokens { OnOk result (HasTokens bytes.now) }
    ensures refused { IfErr result (IsDue (spec.tokens_of bytes.now)) }
{
    let mut at = 0;
    while at < bytes.len() {
        match piece_at(alloc, bytes, at)? {
            Cut::Blank => at += 1,
            Cut::Whole(_token, next) => at = next,
        }
    }
    Ok(())
}

/// The plain name at a place, without bytes where none is.
#[tactic(auto, using(crate::proofs::Pieces::plain_again, crate::proofs::Pieces::plain_past))]
pub(crate) fn plain_name_at(bytes: &[u8], place: usize) -> &[u8]
    ensures { result.now ≡ plain_at bytes.now place }
{
    if place < bytes.len() {
        let end = name_end(bytes, place + 1);
        &bytes[place..end]
    } else {
        &[]
    }
}

/// The name in quotes at a place, without bytes where none is.
#[tactic(auto, using(crate::proofs::Pieces::quoted_again, crate::proofs::Pieces::quoted_not, crate::proofs::Pieces::quoted_past))]
pub fn quoted_name_at(alloc: Global, bytes: &[u8], place: usize) -> Result<Name, ReadFail>
    ensures name { IfOk result (λ n. n ≡ quoted_at bytes.now place) }
    ensures memory { IfErr result (λ e. e ≡ Memory) }
{
    if place >= bytes.len() {
        return Ok(Name::new(alloc));
    }
    match quoted(alloc, bytes, place + 1) {
        Ok((name, _)) => Ok(name),
        Err(ReadFail::Refused { .. }) => Ok(Name::new(alloc)),
        Err(ReadFail::Memory) => Err(ReadFail::Memory),
    }
}

/// The number at a place, if one is there that is an integer up to 2^64 - 1 without a leading zero.
#[tactic(auto, using(crate::proofs::Pieces::value_again, crate::proofs::Pieces::no_value, crate::proofs::Pieces::value_past, crate::proofs::Pieces::digits_cut))]
pub fn integer_at(bytes: &[u8], place: usize) -> Option<u64>
    ensures { result ≡ value_at bytes.now place }
{
    if place >= bytes.len() {
        return None;
    }
    if bytes[place].is_ascii_digit() {
        let end = number_end(bytes, place + 1);
        integer_of(&bytes[place..end])
    } else {
        None
    }
}
