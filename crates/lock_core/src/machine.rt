// The machine that runs: what each step does, by the table of the lock.
ghost use Rattle.std.specs.Prelude.{◌≡◌, ◌≢◌, ℕ, ◌<◌, length, ◌↔◌, IsTrue, MatchBool};
ghost use Rattle.lock_core.specs.declared.parts.Phase.TheVariants.{Holder};
ghost use Rattle.lock_core.specs.declared.parts.Standing.TheVariants.{Free};
ghost use Rattle.lock_core.specs.declared.parts.LockStep.TheVariants.{Raise, Look, Lower, Take, Ask, Peek, Unask, Give};
ghost use Rattle.lock_core.specs.Lock.{seat_of, Answers};

use crate::parts::{LockStep, Phase, SeatState, Standing};
use crate::state::LockState;

/// One step of a seat. `None` exactly where it is out of place, as a step by or on a seat that
/// isn't there.
pub fn step(state: &LockState, seat: u32, step: LockStep) -> Option<LockState>
    ensures { Answers state.now seat step result }
{
    if seat >= state.count() {
        return None;
    }
    match step {
        LockStep::Raise => raise(state, seat),
        LockStep::Look => look(state, seat),
        LockStep::Lower => lower(state, seat),
        LockStep::Take => take(state, seat),
        LockStep::Ask(other) => ask(state, seat, other),
        LockStep::Peek(other) => peek(state, seat, other),
        LockStep::Unask(other) => unask(state, seat, other),
        LockStep::Give => give(state, seat),
    }
}

fn raise(state: &LockState, i: u32) -> Option<LockState>
    requires { i < length state.now.seats }
    ensures { Answers state.now i Raise result }
{
    let own = state.seat(i);
    if own.phase != Phase::Out {
        return None;
    }
    let raised = SeatState {
        phase: Phase::Raised,
        busy: true,
        ..own
    };
    Some(state.with_seat(i, raised))
}

fn look(state: &LockState, i: u32) -> Option<LockState>
    requires { i < length state.now.seats }
    ensures { Answers state.now i Look result }
{
    let own = state.seat(i);
    if own.phase != Phase::Raised {
        return None;
    }
    let phase = if own.forbidden {
        Phase::Blocked
    } else {
        Phase::Shared
    };
    Some(state.with_seat(i, SeatState { phase, ..own }))
}

fn lower(state: &LockState, i: u32) -> Option<LockState>
    requires { i < length state.now.seats }
    ensures { Answers state.now i Lower result }
{
    let own = state.seat(i);
    if own.phase != Phase::Shared && own.phase != Phase::Blocked {
        return None;
    }
    let lowered = SeatState {
        phase: Phase::Out,
        busy: false,
        ..own
    };
    Some(state.with_seat(i, lowered))
}

fn take(state: &LockState, i: u32) -> Option<LockState>
    requires { i < length state.now.seats }
    ensures { Answers state.now i Take result }
{
    let own = state.seat(i);
    if own.phase != Phase::Out {
        return None;
    }
    if state.mutex().is_some() {
        return Some(state.changed(state.mutex(), i, own));
    }
    let holder = SeatState {
        phase: Phase::Holder,
        ..own
    };
    Some(state.changed(Some(i), i, holder))
}

// Whether seat i is the holder, and j is another seat.
fn names_other(state: &LockState, i: u32, j: u32) -> bool
    requires { i < length state.now.seats }
    ensures { IsTrue result ↔ ((seat_of state.now i).phase ≡ Holder) × (j < length state.now.seats)
        × (j ≢ i) }
{
    state.seat(i).phase == Phase::Holder && j < state.count() && j != i
}

fn ask(state: &LockState, i: u32, j: u32) -> Option<LockState>
    requires { i < length state.now.seats }
    ensures { Answers state.now i (Ask j) result }
{
    if !names_other(state, i, j) {
        return None;
    }
    let other = state.seat(j);
    if other.standing != Standing::Free {
        return None;
    }
    let asked = SeatState {
        forbidden: true,
        standing: Standing::Asked,
        ..other
    };
    Some(state.with_seat(j, asked))
}

fn peek(state: &LockState, i: u32, j: u32) -> Option<LockState>
    requires { i < length state.now.seats }
    ensures { Answers state.now i (Peek j) result }
{
    if !names_other(state, i, j) {
        return None;
    }
    let other = state.seat(j);
    if other.standing != Standing::Asked {
        return None;
    }
    let standing = if other.busy {
        Standing::Seen
    } else {
        Standing::Held
    };
    Some(state.with_seat(j, SeatState { standing, ..other }))
}

fn unask(state: &LockState, i: u32, j: u32) -> Option<LockState>
    requires { i < length state.now.seats }
    ensures { Answers state.now i (Unask j) result }
{
    if !names_other(state, i, j) {
        return None;
    }
    let other = state.seat(j);
    if other.standing == Standing::Free {
        return None;
    }
    let freed = SeatState {
        forbidden: false,
        standing: Standing::Free,
        ..other
    };
    Some(state.with_seat(j, freed))
}

// Whether every seat but i stands as free.
fn others_free(state: &LockState, i: u32) -> bool
    ensures { MatchBool result ((j : ℕ) → j < length state.now.seats → j ≢ i
        → (seat_of state.now j).standing ≡ Free) ((j : ℕ) × (j < length state.now.seats) × (j ≢ i)
        × ((seat_of state.now j).standing ≢ Free)) }
{
    for j in 0..state.count() {
        if j != i && state.seat(j).standing != Standing::Free {
            return false;
        }
    }
    true
}

fn give(state: &LockState, i: u32) -> Option<LockState>
    requires { i < length state.now.seats }
    ensures { Answers state.now i Give result }
{
    let own = state.seat(i);
    if own.phase != Phase::Holder || !others_free(state, i) {
        return None;
    }
    let out = SeatState {
        phase: Phase::Out,
        ..own
    };
    Some(state.changed(None, i, out))
}
