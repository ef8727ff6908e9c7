//! A collection in an access of its own.
ghost use Rattle.std.specs.Prelude.{◌≡◌, IfOk, IfErr, Err};
ghost use Rattle.store_model.specs.Steps.{AreLastRoots};
ghost use Rattle.node_rows.specs.Belonging.{IsPassOf, IsExclusive, IsSamePass, IsSeated};
ghost use Rattle.node_rows.specs.Inside.{IsInside};
ghost use Rattle.node_rows.specs.Passes.{IsOut};
ghost use Rattle.node_rows.specs.Told.{Tells, view_of};
ghost use Rattle.row_sweep.specs.Collected.{HasKept};
ghost use Rattle.sweep_phase.specs.Now.{Answers, Leaves};

use busy_forbidden::Busy;
use node_rows::{Pass, Store};
use row_sweep::{Kept, Worn, collect};

/// Why a collection in an access of its own wasn't made: the entry was refused, or the collection
/// was worn.
#[derive(Clone, Copy, Debug, PartialEq, Eq)]
pub enum TryCollect {
    Busy(Busy),
    Worn,
}

// Collects in exclusive access, and ends it.
fn collect_and_leave(store: &Store, pass: &mut Pass) -> Result<Kept, Worn>
    requires inside { IsInside store.now pass.old }
    requires granted { IsExclusive pass.old }
    requires last_roots { AreLastRoots (view_of pass.old).store }
    ensures pass { IsSeated store.now pass.new }
    ensures same { IsSamePass pass.old pass.new }
    ensures out { IsOut (view_of pass.new) }
    ensures told { Tells pass.new }
    ensures leaves { Leaves store.now.sizes pass.new.seat.number (view_of pass.old).store
        (view_of pass.new).store result }
    ensures crowd { IfOk result (λ kept. HasKept (view_of pass.new) kept.live) }
    ensures same_crowd { IfErr result (λ _. (view_of pass.new).crowd ≡ (view_of pass.old).crowd) }
{
    let result = collect(store, pass);
    store.leave_exclusive(pass);
    result
}

/// Enters exclusive access without a wait, collects, and leaves. `Busy` comes exactly where the
/// entry answered it, and nothing of the store is known then that wasn't before; `Worn` as in
/// `collect`. A granted entry notes Roots at its end, after a `Worn` too.
pub fn collect_now(store: &Store, pass: &mut Pass) -> Result<Kept, TryCollect>
    requires of { IsPassOf store.now pass.old }
    requires out { IsOut (view_of pass.old) }
    requires told { Tells pass.old }
    ensures pass { IsSeated store.now pass.new }
    ensures same { IsSamePass pass.old pass.new }
    ensures out { IsOut (view_of pass.new) }
    ensures told { Tells pass.new }
    ensures answers { Answers store.now.sizes pass.new.seat.number pass.new.seat.seats
        (view_of pass.old) (view_of pass.new) result }
    ensures crowd { IfOk result (λ kept. HasKept (view_of pass.new) kept.live) }
    ensures same_crowd { IfErr result (λ _. (view_of pass.new).crowd ≡ (view_of pass.old).crowd) }
{
    match store.try_enter_exclusive(pass) {
        Err(busy) => return Err(TryCollect::Busy(busy)),
        Ok(()) => {}
    }
    match collect_and_leave(store, pass) {
        Ok(kept) => Ok(kept),
        Err(Worn) => Err(TryCollect::Worn),
    }
}
