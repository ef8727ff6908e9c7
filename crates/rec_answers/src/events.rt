// The traces of values, behind the lines of their terms.
ghost use Rattle.std.specs.Prelude.{◌≡◌, ◌++◌, [], OnOk, decimal, length, if◌then◌else◌};
ghost use Rattle.std.specs.List.{flat_map};
ghost use Rattle.term_lines.specs.Line.{is_value_kind};
ghost use Rattle.rec_answers.specs.Lines.{line};
ghost use Rattle.rec_answers.specs.Traced.{event_text, trace_text, told_before};

use crate::joining::is_value;
use faults::Memory;
use itoa::Buffer;
use rewrite_model::Event;
use worker_crew::Line;

// Appends a word and a number.
fn push_numbered(text: &mut Vec<u8>, word: &[u8], number: u64) -> Result<(), Memory>
    ensures { OnOk result (text.new.items ≡ text.old.items ++ word.now ++ decimal number) }
{
    text.extend_from_slice(word)?;
    text.extend_from_slice(Buffer::new().format(number).as_bytes())?;
    Ok(())
}

// Appends an event behind a space.
fn push_event(text: &mut Vec<u8>, event: Event) -> Result<(), Memory>
    ensures { OnOk result (text.new.items ≡ text.old.items ++ event_text event) }
{
    match event {
        Event::Down(argument) => push_numbered(text, b" d", u64::from(argument)),
        Event::Up => {
            text.extend_from_slice(b" u")?;
            Ok(())
        }
        Event::Rule(rule) => push_numbered(text, b" r", u64::from(rule)),
    }
}

// Appends events, each behind a space.
fn push_events(text: &mut Vec<u8>, events: &[Event]) -> Result<(), Memory>
    ensures { OnOk result (text.new.items ≡ text.old.items ++ flat_map event_text events.now) }
{
    for event in events {
        push_event(text, *event)?;
    }
    Ok(())
}

// Appends the trace of the term with a number.
fn push_trace(text: &mut Vec<u8>, number: u64, events: &[Event]) -> Result<(), Memory>
    ensures { OnOk result (text.new.items ≡ text.old.items ++ line (trace_text number events.now)) }
{
    push_numbered(text, b"# trace ", number)?;
    push_events(text, events)?;
    text.push(b'\n')?;
    Ok(())
}

// Appends the trace of a term whose line is a value.
fn push_trace_of(
    text: &mut Vec<u8>,
    number: u64,
    told: &Line,
    events: &[Event],
) -> Result<(), Memory>
    ensures { OnOk result (text.new.items ≡ text.old.items
        ++ (if is_value_kind told.now.kind then line (trace_text number events.now) else [])) }
{
    if is_value(told) {
        push_trace(text, number, events)?;
    }
    Ok(())
}

/// Appends the traces of all lines that are values, by the events beside them.
pub fn push_traces(text: &mut Vec<u8>, lines: &[Line], traces: &[Vec<Event>]) -> Result<(), Memory>
    requires one_each { length traces.now ≡ length lines.now }
    ensures { OnOk result (text.new.items ≡ text.old.items
        ++ told_before lines.now traces.now (length lines.now)) }
{
    let mut number = 0;
    'terms: while number < lines.len() {
        push_trace_of(text, number as u64, &lines[number], &traces[number])?;
        number += 1;
    }
    Ok(())
}
