// A lock, written as text.
ghost use Rattle.std.specs.Prelude.{◌≡◌, ◌++◌, OnOk, OnErr};
ghost use Rattle.std.specs.Fmt.{decimal};
ghost use Rattle.lock_core.specs.StateText.{phase_text, standing_text, flag_text, mutex_text, seat_line, state_text, joined, Appends};

use crate::parts::{Phase, SeatState, Standing};
use crate::state::LockState;
use faults::Memory;

fn phase_word(phase: Phase) -> &'static [u8]
    ensures { result.now ≡ phase_text phase }
{
    match phase {
        Phase::Out => b"out",
        Phase::Raised => b"raised",
        Phase::Shared => b"shared",
        Phase::Blocked => b"blocked",
        Phase::Holder => b"holder",
    }
}

fn standing_word(standing: Standing) -> &'static [u8]
    ensures { result.now ≡ standing_text standing }
{
    match standing {
        Standing::Free => b"free",
        Standing::Asked => b"asked",
        Standing::Seen => b"seen",
        Standing::Held => b"held",
    }
}

fn flag_word(flag: bool) -> &'static [u8]
    ensures { result.now ≡ flag_text flag }
{
    if flag { b"1" } else { b"0" }
}

// Appends the parts in order.
fn push_all(out: &mut Vec<u8>, parts: &[&[u8]]) -> Result<(), Memory>
    ensures { Appends out.old.items out.new.items (joined parts.now) result }
{
    for part in parts {
        out.extend_from_slice(part)?;
    }
    Ok(())
}

// Appends a number in decimal.
fn push_decimal(out: &mut Vec<u8>, n: u32) -> Result<(), Memory>
    ensures { Appends out.old.items out.new.items (decimal n) result }
{
    if n >= 10 {
        push_decimal(out, n / 10)?;
    }
    out.push(b'0' + (n % 10) as u8)?;
    Ok(())
}

fn push_seat(out: &mut Vec<u8>, j: u32, seat: SeatState) -> Result<(), Memory>
    ensures { Appends out.old.items out.new.items (seat_line j seat) result }
{
    push_all(out, &[b"seat "])?;
    push_decimal(out, j)?;
    let parts: [&[u8]; 9] = [
        b" ",
        phase_word(seat.phase),
        b" busy ",
        flag_word(seat.busy),
        b" forbidden ",
        flag_word(seat.forbidden),
        b" ",
        standing_word(seat.standing),
        b"\n",
    ];
    push_all(out, &parts)
}

fn push_mutex(out: &mut Vec<u8>, mutex: Option<u32>) -> Result<(), Memory>
    ensures { Appends out.old.items out.new.items (mutex_text mutex) result }
{
    match mutex {
        None => push_all(out, &[b"mutex free"]),
        Some(i) => {
            push_all(out, &[b"mutex "])?;
            push_decimal(out, i)
        }
    }
}

fn push_state(out: &mut Vec<u8>, state: &LockState) -> Result<(), Memory>
    ensures { Appends out.old.items out.new.items (state_text state.now) result }
{
    for j in 0..state.count() {
        push_seat(out, j, state.seat(j))?;
    }
    push_mutex(out, state.mutex())?;
    push_all(out, &[b"\n"])
}

/// Appends a line for each seat and one for the mutex: `seat I PHASE busy B forbidden F STANDING`,
/// and `mutex I` or `mutex free`. Without memory nothing is appended.
pub fn write_state(state: &LockState, out: &mut Vec<u8>) -> Result<(), Memory>
    ensures ok { OnOk result (out.new.items ≡ out.old.items ++ state_text state.now) }
    ensures err { OnErr result (out.new.items ≡ out.old.items) }
{
    let before = out.len();
    let result = push_state(out, state);
    if result.is_err() {
        out.truncate(before);
    }
    result
}
