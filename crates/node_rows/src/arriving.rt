//! What each granted access loads first.
ghost use Rattle.std.specs.Prelude.{◌≡◌, max, pred};
ghost use Rattle.busy_forbidden.specs.Calls.{IsSame};
ghost use Rattle.node_rows.specs.Belonging.{IsPrepared, IsSeated, IsOpen};
ghost use Rattle.node_rows.specs.Steps.{MayLoad};
ghost use Rattle.node_rows.specs.Shown.{IsAway};
ghost use Rattle.node_rows.specs.Passes.{Came};
ghost use Rattle.node_rows.specs.Told.{Tells, view_of};

use crate::places::{base_word, in_use_word};
use crate::steps::{load_base, load_in_use};
use crate::store::{Pass, Store};

// The greatest number seen, once this base was loaded: all before the base were given.
fn later(seen: u64, base: u64) -> u64
    ensures { result ≡ max seen (pred base) }
{
    if base > 0 && seen < base - 1 {
        base - 1
    } else {
        seen
    }
}

// Loads what each granted access loads first.
pub(crate) fn arrive(store: &Store, pass: &mut Pass)
    requires store { IsOpen store.now }
    requires pass { IsSeated store.now pass.old }
    requires away { IsAway (view_of pass.old).store }
    requires granted { MayLoad (view_of pass.old).lock pass.old.seat.number pass.old.seat.seats }
    ensures pass { IsSeated store.now pass.new }
    ensures same { IsSame pass.old.seat.seat pass.new.seat.seat
        × (pass.new.seat.number ≡ pass.old.seat.number)
        × (pass.new.seat.seats ≡ pass.old.seat.seats) }
    ensures lock { (view_of pass.new).lock ≡ (view_of pass.old).lock }
    ensures came { Came (view_of pass.old) (view_of pass.new) pass.new.base pass.new.in_use }
    ensures ready { IsPrepared store.now pass.new }
    ensures told { Tells pass.old → Tells pass.new }
    ensures crowd { (view_of pass.new).crowd ≡ (view_of pass.old).crowd }
{
    pass.base = load_base(&store.table, &mut pass.seat, base_word(&store.sizes));
    pass.seen = later(pass.seen, pass.base);
    pass.in_use = load_in_use(&store.table, &mut pass.seat, in_use_word(&store.sizes));
}
