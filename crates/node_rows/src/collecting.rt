//! The steps of a collection, each one atomic action on one word of the table.
ghost use Rattle.std.specs.Prelude.{◌≡◌};
ghost use Rattle.store_model.specs.declared.view.Place.TheVariants.{Claim};
ghost use Rattle.store_model.specs.Machine.{Step, LoadAny, StoreAny, StoreClaim};
ghost use Rattle.store_model.specs.Shown.{index_of};
ghost use Rattle.busy_forbidden.specs.Calls.{IsSame};
ghost use Rattle.node_rows.specs.Steps.{IsOf, Known, with_store};
ghost use Rattle.node_rows.specs.Collecting.{collects_on, claims_on, loaded_any, stored_any, ended_by, MayCollect, MayEndBy, HasStore, IsKept};
ghost use Rattle.node_rows.specs.Crowding.{kept_in, swept, HasCrowd};

use crate::rule::NodeRows;
use crate::view::NodeView;
use atomic_table::Play;
use busy_forbidden::{Seat, Table};
use std::marker::{Brand, PhantomData};
use store_model::Place;

/// The step of a collection that a load or a store is. Each call picks it, by its operands.
pub(crate) trait Collects {
    ghost step: { Step };
}

impl Collects for Brand {
    ghost step = { StoreClaim };
}

struct OnCollect<X> {
    of: PhantomData<X>,
}

impl<X: Collects> Play<(), NodeView> for OnCollect<X> {
    ghost then = { collects_on X.step };
}

struct OnClaim;

impl Play<(), NodeView> for OnClaim {
    ghost then = { claims_on };
}

// A load from this place, which only the proof reads.
fn load_place<X: Collects>(
    table: &Table<NodeRows>,
    seat: &mut Seat<NodeRows>,
    word: usize,
    place: Place,
) -> u64
    requires of { IsOf table.now.shared.table_id table.now.shared.key seat.old.seat }
    requires may { MayCollect table.now.shared.key seat.old.number seat.old.seats seat.old.seat.me.0
        (LoadAny place) place word }
    requires count { seat.old.seats ≡ table.now.shared.key.seats }
    requires step { X.step ≡ LoadAny place }
    ensures of { IsOf table.now.shared.table_id table.now.shared.key seat.new.seat }
    ensures same { IsSame seat.old.seat seat.new.seat
        × (seat.new.number ≡ seat.old.number) × (seat.new.seats ≡ seat.old.seats) }
    ensures view { seat.new.seat.me.0 ≡ with_store seat.old.seat.me.0
        (loaded_any table.now.shared.key seat.old.seat.me.0.store place result) }
    ensures known { Known table.now.shared.key seat.new.seat.me.0.store }
    ensures has_store { HasStore table.now.shared.key seat.new.number seat.new.seat.me.0.store }
{
    table.shared.load::<OnCollect<X>>(&mut seat.seat, word)
}

// A store at this place, which only the proof reads.
fn store_place<X: Collects>(
    table: &Table<NodeRows>,
    seat: &mut Seat<NodeRows>,
    word: usize,
    place: Place,
    value: u64,
)
    requires of { IsOf table.now.shared.table_id table.now.shared.key seat.old.seat }
    requires may { MayCollect table.now.shared.key seat.old.number seat.old.seats seat.old.seat.me.0
        (StoreAny place value) place word }
    requires count { seat.old.seats ≡ table.now.shared.key.seats }
    requires step { X.step ≡ StoreAny place value }
    ensures of { IsOf table.now.shared.table_id table.now.shared.key seat.new.seat }
    ensures same { IsSame seat.old.seat seat.new.seat
        × (seat.new.number ≡ seat.old.number) × (seat.new.seats ≡ seat.old.seats) }
    ensures view { seat.new.seat.me.0 ≡ with_store seat.old.seat.me.0
        (stored_any seat.old.seat.me.0.store place value) }
    ensures known { Known table.now.shared.key seat.new.seat.me.0.store }
    ensures has_store { HasStore table.now.shared.key seat.new.number seat.new.seat.me.0.store }
{
    table
        .shared
        .store::<OnCollect<X>>(&mut seat.seat, word, value);
}

/// A collection's load of any word, in exclusive access: first the base, the claim and the free
/// count. With these it ends where they leave no room for another epoch.
pub fn load_any(
    table: &Table<NodeRows>,
    seat: &mut Seat<NodeRows>,
    word: usize,
    place: Place,
) -> u64
    requires of { IsOf table.now.shared.table_id table.now.shared.key seat.old.seat }
    requires may { MayCollect table.now.shared.key seat.old.number seat.old.seats seat.old.seat.me.0
        (LoadAny place) place word }
    requires count { seat.old.seats ≡ table.now.shared.key.seats }
    ensures of { IsOf table.now.shared.table_id table.now.shared.key seat.new.seat }
    ensures same { IsSame seat.old.seat seat.new.seat
        × (seat.new.number ≡ seat.old.number) × (seat.new.seats ≡ seat.old.seats) }
    ensures view { seat.new.seat.me.0 ≡ with_store seat.old.seat.me.0
        (loaded_any table.now.shared.key seat.old.seat.me.0.store place result) }
    ensures known { Known table.now.shared.key seat.new.seat.me.0.store }
    ensures has_store { HasStore table.now.shared.key seat.new.number seat.new.seat.me.0.store }
{
    load_place::<Brand>(table, seat, word, place)
}

/// A collection's store, once it has loaded all words: of a row's next, a bucket, a free place, the
/// free count, the number of buckets in use, or the base.
pub fn store_any(
    table: &Table<NodeRows>,
    seat: &mut Seat<NodeRows>,
    word: usize,
    place: Place,
    value: u64,
)
    requires of { IsOf table.now.shared.table_id table.now.shared.key seat.old.seat }
    requires may { MayCollect table.now.shared.key seat.old.number seat.old.seats seat.old.seat.me.0
        (StoreAny place value) place word }
    requires count { seat.old.seats ≡ table.now.shared.key.seats }
    ensures of { IsOf table.now.shared.table_id table.now.shared.key seat.new.seat }
    ensures same { IsSame seat.old.seat seat.new.seat
        × (seat.new.number ≡ seat.old.number) × (seat.new.seats ≡ seat.old.seats) }
    ensures view { seat.new.seat.me.0 ≡ with_store seat.old.seat.me.0
        (stored_any seat.old.seat.me.0.store place value) }
    ensures known { Known table.now.shared.key seat.new.seat.me.0.store }
    ensures has_store { HasStore table.now.shared.key seat.new.number seat.new.seat.me.0.store }
{
    store_place::<Brand>(table, seat, word, place, value);
}

/// The last store of a collection, of the claim: it notes the Collect, and the rows kept are those
/// in no free place. The crowd is then the trees of these, in their order.
pub fn store_claim(table: &Table<NodeRows>, seat: &mut Seat<NodeRows>, word: usize)
    requires of { IsOf table.now.shared.table_id table.now.shared.key seat.old.seat }
    requires word { word ≡ index_of table.now.shared.key Claim }
    requires may { MayEndBy table.now.shared.key seat.old.number seat.old.seat.me.0.store }
    ensures of { IsOf table.now.shared.table_id table.now.shared.key seat.new.seat }
    ensures same { IsSame seat.old.seat seat.new.seat
        × (seat.new.number ≡ seat.old.number) × (seat.new.seats ≡ seat.old.seats) }
    ensures view { seat.new.seat.me.0 ≡ swept seat.old.seat.me.0
        (ended_by table.now.shared.key seat.old.seat.me.0.store) seat.new.seat.me.0.crowd }
    ensures known { Known table.now.shared.key seat.new.seat.me.0.store }
    ensures has_store { HasStore table.now.shared.key seat.new.number seat.new.seat.me.0.store }
    ensures has_crowd { HasCrowd table.now.shared.key seat.new.number seat.new.seat.me.0 }
    ensures crowd { IsKept (kept_in seat.new.seat.me.0.store.entries) seat.new.seat.me.0.store.knows
        seat.new.seat.me.0.crowd }
{
    table.shared.store::<OnClaim>(&mut seat.seat, word, 0);
}
