//! The steps of the lock, and those that begin a granted access.
ghost use Rattle.std.specs.Prelude.{◌≡◌, ◌≢◌, ◌↔◌, ℕ, ◌<◌, IsTrue, OnOk, MatchBool, length};
ghost use Rattle.lock_core.specs.Lock.{seat_of};
ghost use Rattle.lock_core.specs.Exclusion.{IsExclusive};
ghost use Rattle.lock_core.specs.declared.parts.Standing.TheVariants.{Held};
ghost use Rattle.store_model.specs.declared.view.Call.TheVariants.{Idle};
ghost use Rattle.store_model.specs.declared.view.Stay.TheVariants.{Away};
ghost use Rattle.store_model.specs.Machine.{left, InAccess, LockAlone, LowerShared, UnaskSeat, GiveGranted, protected_in};
ghost use Rattle.store_model.specs.Steps.{IsAtRest, MayLeave};
ghost use Rattle.store_core.specs.Planning.{Plans, PlansStep};
ghost use Rattle.store_model.specs.declared.step.StoreStep.TheVariants.{Lock, LoadBase, LoadInUse};

use crate::machine::change::{Change, Sight};
use crate::machine::moves::{base_on, begin_leaving, leave_with, make_ready, narrow};
use crate::machine::rooting::protected_rows;
use crate::machine::rows::list_of;
use faults::Memory;
use lock_core::{LockState, LockStep, Phase, Standing};
use store_model::{Call, Place, Stay, View};

/// The phase of a seat; one that isn't there is out.
pub(crate) fn phase_of(lock: &LockState, seat: u32) -> Phase
    ensures { result ≡ (seat_of lock.now seat).phase }
{
    if seat < lock.count() {
        lock.seat(seat).phase
    } else {
        Phase::Out
    }
}

// Whether each other seat is held.
fn others_held(lock: &LockState, seat: u32) -> bool
    ensures { MatchBool result ((j : ℕ) → j < length lock.now.seats → j ≢ seat
        → (seat_of lock.now j).standing ≡ Held) ((j : ℕ) × (j < length lock.now.seats) × (j ≢ seat)
        × ((seat_of lock.now j).standing ≢ Held)) }
{
    for j in 0..lock.count() {
        if j != seat && lock.seat(j).standing != Standing::Held {
            return false;
        }
    }
    true
}

/// Whether a seat is in exclusive access.
pub(crate) fn is_exclusive(lock: &LockState, seat: u32) -> bool
    ensures { IsTrue result ↔ IsExclusive lock.now seat }
{
    seat < lock.count() && lock.seat(seat).phase == Phase::Holder && others_held(lock, seat)
}

/// Whether a seat is in shared or in exclusive access.
pub(crate) fn is_in_access(lock: &LockState, seat: u32) -> bool
    ensures { IsTrue result ↔ InAccess lock.now seat }
{
    phase_of(lock, seat) == Phase::Shared || is_exclusive(lock, seat)
}

/// Whether no call is under way.
pub(crate) fn is_idle(view: &View) -> bool
    ensures { IsTrue result ↔ (view.now.call ≡ Idle) }
{
    matches!(view.call, Call::Idle)
}

/// Whether a seat is in a granted access with no call under way.
pub(crate) fn is_at_rest(view: &View) -> bool
    ensures { IsTrue result ↔ IsAtRest view.now }
{
    is_idle(view) && view.stay == Stay::Ready
}

// Whether the end of an exclusive access may begin, or go on.
fn may_leave(view: &View) -> bool
    ensures { IsTrue result ↔ (view.now.call ≡ Idle) × MayLeave view.now }
{
    is_idle(view) && (view.stay == Stay::Ready || view.stay == Stay::Leaving)
}

/// A step of the lock.
pub(crate) fn plan_lock(
    sight: &Sight,
    view: &mut View,
    step: LockStep,
) -> Result<Option<Change>, Memory>
    requires { view.old ≡ sight.now.view.now }
    ensures { PlansStep sight.now (Lock step) view.new result }
{
    if sight.view.stay == Stay::Away {
        return plan_alone(sight, step);
    }
    match step {
        LockStep::Lower => plan_lower(sight, view),
        LockStep::Unask(other) => plan_unask(sight, view, other),
        LockStep::Give => plan_give(sight, view),
        _ => Ok(None),
    }
}

// A step of a seat that is in no granted access: it lowers its flag only where it is blocked.
fn plan_alone(sight: &Sight, step: LockStep) -> Result<Option<Change>, Memory>
    requires { sight.now.view.now.stay ≡ Away }
    ensures { Plans sight.now (LockAlone step) sight.now.view.now result }
{
    if step == LockStep::Lower && phase_of(sight.lock, sight.seat) != Phase::Blocked {
        return Ok(None);
    }
    match lock_core::step(sight.lock, sight.seat, step) {
        Some(lock) => Ok(Some(Change::of_lock(lock))),
        None => Ok(None),
    }
}

// The end of a shared access.
fn plan_lower(sight: &Sight, view: &mut View) -> Result<Option<Change>, Memory>
    requires { view.old ≡ sight.now.view.now }
    ensures { Plans sight.now LowerShared view.new result }
{
    if phase_of(sight.lock, sight.seat) != Phase::Shared || !is_at_rest(sight.view) {
        return Ok(None);
    }
    leave(view)?;
    match lock_core::step(sight.lock, sight.seat, LockStep::Lower) {
        Some(lock) => Ok(Some(Change::of_lock(lock))),
        None => Ok(None),
    }
}

// A part of the end of an exclusive access.
fn plan_unask(sight: &Sight, view: &mut View, other: u32) -> Result<Option<Change>, Memory>
    requires { view.old ≡ sight.now.view.now }
    ensures { Plans sight.now (UnaskSeat other) view.new result }
{
    if !may_leave(sight.view) {
        return Ok(None);
    }
    begin_leaving(view);
    match lock_core::step(sight.lock, sight.seat, LockStep::Unask(other)) {
        Some(lock) => Ok(Some(Change::of_lock(lock))),
        None => Ok(None),
    }
}

// The end of an exclusive access.
fn plan_give(sight: &Sight, view: &mut View) -> Result<Option<Change>, Memory>
    requires { view.old ≡ sight.now.view.now }
    ensures { Plans sight.now GiveGranted view.new result }
{
    if !may_leave(sight.view) {
        return Ok(None);
    }
    leave(view)?;
    match lock_core::step(sight.lock, sight.seat, LockStep::Give) {
        Some(lock) => Ok(Some(Change::of_lock(lock))),
        None => Ok(None),
    }
}

// What a seat knows at the end of its access.
fn leave(view: &mut View) -> Result<(), Memory>
    ensures { OnOk result (view.new ≡ left view.old (protected_in view.old)) }
{
    let rows = protected_rows(view)?;
    let list = list_of(*view.got.allocator(), rows.as_slice())?;
    leave_with(view, list)
}

/// The load of the base, first of a granted access.
pub(crate) fn plan_load_base(sight: &Sight, view: &mut View) -> Result<Option<Change>, Memory>
    requires { view.old ≡ sight.now.view.now }
    ensures { PlansStep sight.now LoadBase view.new result }
{
    if !is_in_access(sight.lock, sight.seat)
        || !is_idle(sight.view)
        || sight.view.stay != Stay::Away
    {
        return Ok(None);
    }
    let base = sight.table.load(&Place::Base);
    base_on(view, base)?;
    Ok(Some(Change::of_nothing()))
}

/// The load of the number of buckets in use, after it.
pub(crate) fn plan_load_in_use(sight: &Sight, view: &mut View) -> Result<Option<Change>, Memory>
    requires { view.old ≡ sight.now.view.now }
    ensures { PlansStep sight.now LoadInUse view.new result }
{
    if !is_idle(sight.view) || sight.view.stay != Stay::Based {
        return Ok(None);
    }
    let in_use = narrow(sight.table.load(&Place::InUse))?;
    make_ready(view, in_use);
    Ok(Some(Change::of_nothing()))
}
