//! The lines of an output, and the traces after them.

ghost use Rattle.std.specs.Prelude.{◌≡◌, ℕ, ◌+◌, ◌<◌, ◌≤◌, ◌^◌, List, [], ◌∷◌, length, map, None, IfOk, IfErr, OnOk};
ghost use Rattle.run_checks.specs.Form.{values_from, wrong_from, wrong_after, wrong_line};
ghost use Rattle.run_checks.specs.Refusing.{IsCutOff, IsWrongAt, IsCut, seen};
ghost use Rattle.log_check.specs.Words.{lines};
ghost use Rattle.read_faults.specs.declared.fail.ReadFail.TheVariants.{Refused};

use crate::form::{is_end, is_no_value, is_trace};
use faults::kinds;
use log_check::lines::next_line;
use read_faults::ReadFail;
use std::alloc::Global;

/// The refusal of a line of a wrong form, counted from 1; 0 stands for what is before the lines.
pub(crate) fn bad_line(line: u64) -> ReadFail
    ensures { result ≡ Refused 15 line }
{
    ReadFail::Refused {
        kind: kinds::BAD_LINE,
        offset: line,
    }
}

/// An output that is cut: so many lines, and what comes after them.
#[derive(Drop)]
pub(crate) struct Output<'a> {
    pub(crate) lines: Vec<&'a [u8]>,
    pub(crate) traces: &'a [u8],
}

/// The lines of so many terms and what comes after them, where the whole output has its form, and
/// how many of these lines are values.
pub(crate) fn take_formed<'a>(
    alloc: Global,
    count: usize,
    output: &'a [u8],
) -> Result<(Output<'a>, u64), ReadFail>
    requires { count ≤ 65535 }
    ensures cut { IfOk result
        (λ x. IsCut count (lines output.now) (seen x.0) (lines x.0.traces.now)) }
    ensures formed { IfOk result (λ x. wrong_line count (lines output.now) ≡ None) }
    ensures count { IfOk result (λ x. x.1 ≡ length (values_from 0 (seen x.0))) }
    ensures wrong { IfErr result (IsWrongAt (wrong_line count (lines output.now))) }
{
    let cut = take_lines(alloc, count, output)?;
    let values = count_traces(&cut.lines, cut.traces)?;
    Ok((cut, values))
}

/// The first `count` lines of an output, and what comes after them.
fn take_lines<'a>(alloc: Global, count: usize, output: &'a [u8]) -> Result<Output<'a>, ReadFail>
    requires { count ≤ 65535 }
    ensures taken { IfOk result (λ o. IsCut count (lines output.now)
        (map (λ l. l.now) o.lines.items) (lines o.traces.now)) }
    ensures too_few { IfErr result (IsCutOff count (lines output.now)) }
{
    let mut taken = Vec::with_capacity(alloc, count)?;
    let mut rest = output;
    for number in 0..count {
        let Some((line, after)) = next_line(rest) else {
            return Err(bad_line(number as u64 + 1));
        };
        taken.push(line)?;
        rest = after;
    }
    Ok(Output {
        lines: taken,
        traces: rest,
    })
}

/// How many of the lines are values, where each of these has its trace, and nothing but the end
/// comes after the traces.
fn count_traces(taken: &[&[u8]], traces: &[u8]) -> Result<u64, ReadFail>
    requires { length taken.now ≤ 65535 }
    ensures formed { IfOk result
        (λ n. wrong_after (map (λ l. l.now) taken.now) (lines traces.now) ≡ None) }
    ensures count { IfOk result (λ n. n ≡ length (values_from 0 (map (λ l. l.now) taken.now))) }
    ensures wrong { IfErr result
        (IsWrongAt (wrong_after (map (λ l. l.now) taken.now) (lines traces.now))) }
{
    let mut place = taken.len() as u64;
    let mut rest = traces;
    for (number, line) in taken.iter().enumerate() {
        if !is_no_value(line) {
            place += 1;
            rest = after_trace(number as u32, place, rest)?;
        }
    }
    ended(place + 1, rest)?;
    Ok(place - taken.len() as u64)
}

/// What comes after the trace of the term with a number, which is the next line, with this place.
fn after_trace(number: u32, place: u64, rest: &[u8]) -> Result<&[u8], ReadFail>
    ensures after { IfOk result (λ after. (more : List ℕ)
        → wrong_from place (number ∷ more) (lines rest.now)
        ≡ wrong_from (place + 1) more (lines after.now)) }
    ensures wrong { IfErr result
        (λ e. (more : List ℕ) → IsWrongAt (wrong_from place (number ∷ more) (lines rest.now)) e) }
{
    match next_line(rest) {
        Some((line, after)) if is_trace(number, line) => Ok(after),
        _ => Err(bad_line(place)),
    }
}

/// Nothing but the end comes, at this place.
fn ended(place: u64, rest: &[u8]) -> Result<(), ReadFail>
    requires { place < 2 ^ 32 }
    ensures ended { OnOk result (wrong_from place [] (lines rest.now) ≡ None) }
    ensures wrong { IfErr result (IsWrongAt (wrong_from place [] (lines rest.now))) }
{
    match next_line(rest) {
        Some((line, after)) if is_end(line) => {
            if after.is_empty() {
                Ok(())
            } else {
                Err(bad_line(place + 1))
            }
        }
        _ => Err(bad_line(place)),
    }
}
