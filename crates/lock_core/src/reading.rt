// Schedules, read and run.
ghost use Rattle.std.specs.Prelude.{◌≡◌, ◌≢◌, ◌↔◌, ℕ, ◌<◌, ◌≤◌, [], ◌++◌, ◌∷◌, List, Result, length, MatchOption, IsTrue};
ghost use Rattle.std.specs.Fmt.{decimal};
ghost use Rattle.lock_core.specs.declared.parts.LockStep.{LockStep};
ghost use Rattle.lock_core.specs.declared.reading.LineFault.{LineFault};
ghost use Rattle.lock_core.specs.Lock.{Lock, at_start};
ghost use Rattle.lock_core.specs.Lines.{Lacks, IsNoStepAlone, IsNoStepOn};
ghost use Rattle.lock_core.specs.Schedule.{lines, step_text, IsOnSeat, IsLine, IsBadLine, ComesTo};

use crate::machine::step;
use crate::parts::LockStep;
use crate::state::LockState;
use faults::kinds;

/// Why a schedule is refused, and at which line, counted from 1.
#[derive(Clone, Copy, Debug, PartialEq, Eq)]
pub struct LineFault {
    /// 15 for a line of a wrong form, 16 for a step out of place.
    pub kind: u8,
    pub line: u64,
}

// The bytes before and after the first byte b.
fn split_at_byte(bytes: &[u8], b: u8) -> Option<(&[u8], &[u8])>
    ensures { MatchOption result (Lacks b bytes.now)
        (λ parts. Lacks b parts.0.now × (bytes.now ≡ parts.0.now ++ b ∷ parts.1.now)) }
{
    for (i, x) in bytes.iter().enumerate() {
        if *x == b {
            return Some((&bytes[..i], &bytes[i + 1..]));
        }
    }
    None
}

// Whether a text is a number in decimal.
fn is_decimal(text: &[u8], n: u32) -> bool
    ensures { IsTrue result ↔ (text.now ≡ decimal n) }
{
    let Some((last, front)) = text.split_last() else {
        return false;
    };
    if *last != b'0' + (n % 10) as u8 {
        return false;
    }
    if n < 10 {
        front.is_empty()
    } else {
        is_decimal(front, n / 10)
    }
}

// The seat, one of `seats`, whose number a text is.
fn read_seat(text: &[u8], seats: u32) -> Option<u32>
    ensures { MatchOption result ((i : ℕ) → i < seats → text.now ≢ decimal i)
        (λ i. (i < seats) × (text.now ≡ decimal i)) }
{
    for i in 0..seats {
        if is_decimal(text, i) {
            return Some(i);
        }
    }
    None
}

// The step that is written as one word.
fn step_alone(word: &[u8]) -> Option<LockStep>
    ensures { MatchOption result (IsNoStepAlone word.now)
        (λ x. (word.now ≡ step_text x) × ((n : ℕ) → IsOnSeat n x)) }
{
    match word {
        b"raise" => Some(LockStep::Raise),
        b"look" => Some(LockStep::Look),
        b"lower" => Some(LockStep::Lower),
        b"take" => Some(LockStep::Take),
        b"give" => Some(LockStep::Give),
        _ => None,
    }
}

// The step on seat j that is written with this word.
fn step_on(word: &[u8], j: u32) -> Option<LockStep>
    ensures { MatchOption result (IsNoStepOn word.now)
        (λ x. (word.now ++ 32 ∷ decimal j ≡ step_text x) × ((n : ℕ) → j < n → IsOnSeat n x)) }
{
    match word {
        b"ask" => Some(LockStep::Ask(j)),
        b"peek" => Some(LockStep::Peek(j)),
        b"unask" => Some(LockStep::Unask(j)),
        _ => None,
    }
}

// A step, on a seat below `seats` where it is on one.
fn read_step(text: &[u8], seats: u32) -> Option<LockStep>
    ensures { MatchOption result ((x : LockStep) → IsOnSeat seats x → text.now ≢ step_text x)
        (λ x. IsOnSeat seats x × (text.now ≡ step_text x)) }
{
    match split_at_byte(text, b' ') {
        None => step_alone(text),
        Some((word, seat)) => step_on(word, read_seat(seat, seats)?),
    }
}

// A line: a seat, a space and a step.
fn read_line(line: &[u8], seats: u32) -> Option<(u32, LockStep)>
    ensures { MatchOption result (IsBadLine seats line.now)
        (λ read. IsLine seats line.now read.0 read.1) }
{
    let (seat, text) = split_at_byte(line, b' ')?;
    let seat = read_seat(seat, seats)?;
    let step = read_step(text, seats)?;
    Some((seat, step))
}

// The first line, and what comes after it.
fn next_line(bytes: &[u8]) -> (&[u8], &[u8])
    requires { bytes.now ≢ [] }
    ensures lines { lines bytes.now ≡ result.0.now ∷ lines result.1.now }
    ensures less { length result.1.now < length bytes.now }
{
    match split_at_byte(bytes, b'\n') {
        None => (bytes, &[]),
        Some(parts) => parts,
    }
}

/// Runs a schedule, a line for each step, from the start of a lock of that many seats. Each line is
/// read before its step is tried, and the first line that is of a wrong form, or whose step is out
/// of place, is the fault.
pub fn schedule(bytes: &[u8], seats: u32) -> Result<LockState, LineFault>
    requires { (1 ≤ seats) × (seats ≤ 16) }
    ensures { ComesTo seats (at_start seats) 1 (lines bytes.now) result }
{
    let mut state = LockState::new(seats);
    let mut rest = bytes;
    let mut line = 0;
    while !rest.is_empty() {
        let (text, after) = next_line(rest);
        line += 1;
        let Some((seat, next)) = read_line(text, seats) else {
            return Err(LineFault {
                kind: kinds::BAD_LINE,
                line,
            });
        };
        let Some(stepped) = step(&state, seat, next) else {
            return Err(LineFault {
                kind: kinds::OUT_OF_PLACE,
                line,
            });
        };
        state = stepped;
        rest = after;
    }
    Ok(state)
}

/// A schedule comes to one lock or one fault alone.
pub fn schedules_have_one_outcome()
    ensures { (n : ℕ) (l : Lock) (k : ℕ) (ls : List (List ℕ)) (r q : Result Lock LineFault) → n ≤ 16
        → ComesTo n l k ls r → ComesTo n l k ls q → r ≡ q }
{}
