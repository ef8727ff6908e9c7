//! The form of traces and of the lines before them.

ghost use Rattle.std.specs.Prelude.{◌≡◌, is_some, MatchOption, None};
ghost use Rattle.log_check.specs.Words.{words_after};
ghost use Rattle.run_checks.specs.Form.{event_in, events_in, trace_in, is_no_value, is_end, is_number};

use log_check::words::{capped_number_of, first_word, next_word};

/// Whether a word spells an event.
fn is_event(word: &[u8]) -> bool
    ensures { result ≡ is_some (event_in word.now) }
{
    let Some((first, number)) = word.split_first() else {
        return false;
    };
    if *first == b'd' || *first == b'r' {
        return capped_number_of(number).is_some();
    }
    word == b"u".as_slice()
}

/// Whether words after a space are events.
fn are_events(rest: &[u8]) -> bool
    ensures { result ≡ is_some (events_in (words_after rest.now)) }
{
    let mut left = rest;
    'words: while let Some((word, after)) = next_word(left) {
        if !is_event(word) {
            return false;
        }
        left = after;
    }
    true
}

/// Whether a word is a number.
fn is_number(number: u32, word: &[u8]) -> bool
    ensures { result ≡ is_number number word.now }
{
    capped_number_of(word) == Some(u128::from(number))
}

/// The events of a trace of the term with this number, as words after a space; None where the line
/// doesn't begin as such a trace.
pub(crate) fn events_of(number: u32, line: &[u8]) -> Option<&[u8]>
    ensures { MatchOption result (trace_in number line.now ≡ None)
        (λ rest. trace_in number line.now ≡ events_in (words_after rest.now)) }
{
    let (mark, rest) = first_word(line);
    let (word, rest) = next_word(rest)?;
    let (index, rest) = next_word(rest)?;
    if mark == b"#".as_slice() && word == b"trace".as_slice() && is_number(number, index) {
        Some(rest)
    } else {
        None
    }
}

/// Whether a line is a trace of the term with this number.
pub(crate) fn is_trace(number: u32, line: &[u8]) -> bool
    ensures { result ≡ is_some (trace_in number line.now) }
{
    match events_of(number, line) {
        Some(rest) => are_events(rest),
        None => false,
    }
}

/// Whether a line says why a term has no value.
pub(crate) fn is_no_value(line: &[u8]) -> bool
    ensures { result ≡ is_no_value line.now }
{
    line == b"out of fuel".as_slice()
        || line == b"too deep".as_slice()
        || line == b"too large".as_slice()
}

/// Whether a line ends the traces.
pub(crate) fn is_end(line: &[u8]) -> bool
    ensures { result ≡ is_end line.now }
{
    line == b"# end".as_slice()
}
