// From the lines of the terms to what is written of them.
ghost use Rattle.std.specs.Prelude.{◌≡◌, ◌++◌, ◌<◌, OnOk, IfOk, map, count_by, sum_by, length};
ghost use Rattle.std.specs.List.{flat_map, list_all};
ghost use Rattle.term_lines.specs.Line.{is_value_kind};
ghost use Rattle.rec_answers.specs.Lines.{line};
ghost use Rattle.rec_answers.specs.Drilled.{count_line, counts_text};

use crate::results::Workers;
use faults::Memory;
use itoa::Buffer;
use std::alloc::Global;
use term_lines::LineKind;
use worker_crew::Line;

/// Whether a line is a value.
pub fn is_value(line: &Line) -> bool
    ensures { result ≡ is_value_kind line.now.kind }
{
    match line.kind {
        LineKind::Value => true,
        LineKind::OutOfFuel | LineKind::TooDeep | LineKind::TooLarge => false,
    }
}

/// All lines in order, each with its end. Their room is taken at once, so that no line is copied
/// twice.
pub fn joined(alloc: Global, lines: &[Line]) -> Result<Vec<u8>, Memory>
    ensures { IfOk result (λ text. text.items ≡ flat_map (λ l. line l.text.items) lines.now) }
{
    let length = lines.iter().fold(lines.len(), |length, line| {
        length.saturating_add(line.text.len())
    });
    let mut text = Vec::with_capacity(alloc, length)?;
    for line in lines {
        text.extend_from_slice(&line.text)?;
        text.push(b'\n')?;
    }
    Ok(text)
}

/// Whether each line is a value.
pub fn are_values(lines: &[Line]) -> bool
    ensures { result ≡ list_all (λ l. is_value_kind l.kind) lines.now }
{
    lines.iter().all(is_value)
}

/// How many lines are values.
pub fn count_values(lines: &[Line]) -> usize
    ensures { result ≡ count_by (λ l. is_value_kind l.kind) lines.now }
{
    lines.iter().filter(|line| is_value(line)).count()
}

/// The fuel that all values took together.
pub fn total_spent(lines: &[Line]) -> u128
    ensures { result ≡ sum_by (λ l. l.spent) lines.now }
{
    let mut total: u128 = 0;
    for line in lines {
        total += u128::from(line.spent);
    }
    total
}

/// The worker of each line.
pub fn workers_of(alloc: Global, lines: &[Line]) -> Result<Workers, Memory>
    ensures { IfOk result (λ w. w ≡ map (λ l. l.worker) lines.now) }
{
    let mut workers = Workers::none(alloc);
    for line in lines {
        workers.add(line.worker)?;
    }
    Ok(workers)
}

// Appends a name, a number and the end of the line.
fn push_count(text: &mut Vec<u8>, name: &[u8], number: u128) -> Result<(), Memory>
    ensures { OnOk result (text.new.items ≡ text.old.items ++ count_line name.now number) }
{
    text.extend_from_slice(name)?;
    text.extend_from_slice(Buffer::new().format(number).as_bytes())?;
    text.extend_from_slice(b"\n")?;
    Ok(())
}

/// The lines of a drill: how many terms there were, how many have a value, and the fuel that those
/// took.
pub fn counts(alloc: Global, terms: u32, values: usize, spent: u128) -> Result<Vec<u8>, Memory>
    ensures { IfOk result (λ text. text.items ≡ counts_text terms values spent) }
{
    let mut text = Vec::new(alloc);
    push_count(&mut text, b"terms ", u128::from(terms))?;
    push_count(&mut text, b"values ", values as u128)?;
    push_count(&mut text, b"spent ", spent)?;
    Ok(text)
}
