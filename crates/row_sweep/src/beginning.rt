//! The begin of a collection: it loads the base, the claim and the free count, and is worn or not.
ghost use Rattle.std.specs.Prelude.{◌≡◌, ◌<◌, ◌≤◌, ◌+◌, ◌^◌, ◌↔◌, IsTrue, IfOk, IfErr, [], ◌∷◌};
ghost use Rattle.store_model.specs.declared.view.Call.TheVariants.{Idle, Loading};
ghost use Rattle.store_model.specs.declared.view.Place.TheVariants.{Base, Claim, FreeCount};
ghost use Rattle.store_model.specs.Invariant.{span};
ghost use Rattle.store_model.specs.Steps.{loading};
ghost use Rattle.node_rows.specs.Belonging.{IsOpen};
ghost use Rattle.node_rows.specs.Collecting.{HasStore};
ghost use Rattle.node_rows.specs.Steps.{Known};
ghost use Rattle.row_sweep.specs.Loaded.{begun};
ghost use Rattle.row_sweep.specs.Gathered.{IsAlone, Gathers, StaysSeat, LoadsClaim, IsWorn};

use crate::sweep::{Sweep, Worn};
use busy_forbidden::Seat;
use node_rows::{NodeRows, Store, base_word, claim_word, free_count_word, load_any};
use store_model::{Place, Sizes};

// Loads the base, which is that of the access.
fn load_base(store: &Store, seat: &mut Seat<NodeRows>) -> u64
    requires store { IsOpen store.now }
    requires alone { IsAlone store.now seat.old.seat seat.old.number seat.old.seats }
    requires call { seat.old.seat.me.0.store.call ≡ Idle }
    ensures alone { IsAlone store.now seat.new.seat seat.new.number seat.new.seats }
    ensures stays { StaysSeat seat.old.seat seat.old.number seat.old.seats seat.new.seat
        seat.new.number seat.new.seats }
    ensures call { seat.new.seat.me.0.store.call ≡ Loading ((Base, result) ∷ []) }
    ensures base { result ≡ seat.old.seat.me.0.store.base }
{
    let word = base_word(&store.sizes);
    load_any(&store.table, seat, word, Place::Base)
}

// Loads the claim after the base.
fn load_claim(store: &Store, seat: &mut Seat<NodeRows>, base: u64) -> u64
    requires store { IsOpen store.now }
    requires alone { IsAlone store.now seat.old.seat seat.old.number seat.old.seats }
    requires call { seat.old.seat.me.0.store.call ≡ Loading ((Base, base) ∷ []) }
    requires base { base ≡ seat.old.seat.me.0.store.base }
    ensures alone { IsAlone store.now seat.new.seat seat.new.number seat.new.seats }
    ensures stays { StaysSeat seat.old.seat seat.old.number seat.old.seats seat.new.seat
        seat.new.number seat.new.seats }
    ensures call { seat.new.seat.me.0.store.call ≡ Loading ((Base, base) ∷ (Claim, result) ∷ []) }
    ensures few { result ≤ store.now.sizes.rows + store.now.sizes.seats }
    ensures loads { LoadsClaim store.now.sizes seat.new.number seat.old.seat.me.0.store result }
{
    let word = claim_word(&store.sizes);
    load_any(&store.table, seat, word, Place::Claim)
}

// Loads the free count after the claim. With it the collection is worn, or not.
fn load_free_count(store: &Store, seat: &mut Seat<NodeRows>, base: u64, claim: u64) -> u64
    requires store { IsOpen store.now }
    requires alone { IsAlone store.now seat.old.seat seat.old.number seat.old.seats }
    requires call { seat.old.seat.me.0.store.call ≡ Loading ((Base, base) ∷ (Claim, claim) ∷ []) }
    ensures alone { IsAlone store.now seat.new.seat seat.new.number seat.new.seats }
    ensures stays { StaysSeat seat.old.seat seat.old.number seat.old.seats seat.new.seat
        seat.new.number seat.new.seats }
    ensures call { seat.new.seat.me.0.store.call ≡ loading store.now.table.shared.key
        (begun base claim result []) }
    ensures stands { HasStore store.now.table.shared.key seat.new.number seat.new.seat.me.0.store }
    ensures known { Known store.now.table.shared.key seat.new.seat.me.0.store }
{
    let word = free_count_word(&store.sizes);
    load_any(&store.table, seat, word, Place::FreeCount)
}

// Whether a base and a claim leave no room for another epoch.
fn is_worn(sizes: &Sizes, base: u64, claim: u64) -> bool
    requires base { base ≤ 2 ^ 62 }
    requires claim { claim ≤ sizes.now.rows + sizes.now.seats }
    ensures { IsTrue result ↔ (2 ^ 62 < base + claim + 1 + span sizes.now) }
{
    base + claim + 1 + (u64::from(sizes.rows) + u64::from(sizes.seats) + 1) > 1 << 62
}

/// Begins a collection in exclusive access. `Worn` comes exactly where the base and the claim that
/// are loaded leave no room for another epoch; nothing has changed then.
pub(crate) fn begin<'a>(store: &'a Store, seat: &mut Seat<NodeRows>) -> Result<Sweep<'a>, Worn>
    requires store { IsOpen store.now }
    requires alone { IsAlone store.now seat.old.seat seat.old.number seat.old.seats }
    requires call { seat.old.seat.me.0.store.call ≡ Idle }
    requires known { Known store.now.table.shared.key seat.old.seat.me.0.store }
    ensures stays { StaysSeat seat.old.seat seat.old.number seat.old.seats seat.new.seat
        seat.new.number seat.new.seats }
    ensures store { IfOk result (λ c. c.store.now ≡ store.now) }
    ensures base { IfOk result (λ c. c.base ≡ seat.old.seat.me.0.store.base) }
    ensures gathers { IfOk result (λ c. Gathers c seat.new.seat seat.new.number seat.new.seats) }
    ensures loads { IfOk result
        (λ c. LoadsClaim store.now.sizes seat.old.number seat.old.seat.me.0.store c.claim) }
    ensures worn { IfErr result
        (λ _. IsWorn store.now.sizes seat.old.number seat.old.seat.me.0.store) }
    ensures unchanged { IfErr result (λ _. seat.new.seat.me.0 ≡ seat.old.seat.me.0) }
{
    let base = load_base(store, seat);
    let claim = load_claim(store, seat, base);
    let count = load_free_count(store, seat, base, claim);
    if is_worn(&store.sizes, base, claim) {
        return Err(Worn);
    }
    Ok(Sweep {
        store,
        base,
        claim,
        count,
    })
}
