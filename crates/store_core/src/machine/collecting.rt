//! The steps of a collection.
ghost use Rattle.std.specs.Prelude.{◌≡◌, ◌↔◌, ◌+◌, ◌^◌, ◌++◌, ◌∷◌, [], true, nat_lt, IfOk, IsTrue, OnOk, length};
ghost use Rattle.history_core.specs.Chronicle.{last_roots, roots_after};
ghost use Rattle.lock_core.specs.Exclusion.{IsExclusive};
ghost use Rattle.store_model.specs.Machine as machine;
ghost use Rattle.store_model.specs.Steps.{loads, stores, worn_by, loading, is_stored, IsNextLoad, IsLoading, AreLastRoots, MayStore};
ghost use Rattle.store_model.specs.declared.view.Stay.TheVariants.{Ready};
ghost use Rattle.store_model.specs.declared.view.Call.TheVariants.{Storing};
ghost use Rattle.store_model.specs.Invariant.{span};
ghost use Rattle.store_model.specs.Shown.{shown, in_table};
ghost use Rattle.store_core.specs.Planning.{Plans, PlansStep};
ghost use Rattle.store_model.specs.declared.step.StoreStep.TheVariants.{LoadAny};

use crate::machine::acting::same_place;
use crate::machine::change::{Change, Sight};
use crate::machine::copies::copy_loads;
use crate::machine::locking::is_exclusive;
use crate::machine::moves::set_call;
use crate::machine::rooting::protected_rows;
use crate::machine::rows::{rows_of, words_in};
use crate::machine::whole::{first_loaded, is_whole};
use faults::Memory;
use history_core::Entry;
use std::collections::LinkedList;
use store_model::{Call, Place, Sizes, Stay, View};

/// A load.
pub(crate) fn plan_load_any(
    sight: &Sight,
    view: &mut View,
    place: Place,
) -> Result<Option<Change>, Memory>
    requires { view.old ≡ sight.now.view.now }
    ensures { PlansStep sight.now (LoadAny place) view.new result }
{
    if !may_load(sight, &place) || !are_last_roots(sight.view)? {
        return Ok(None);
    }
    let value = sight.table.load(&place);
    add_load(view, &sight.table.sizes, place, value)?;
    Ok(Some(Change::of_nothing()))
}

// Whether a collection in exclusive access may load next from here.
fn may_load(sight: &Sight, place: &Place) -> bool
    ensures { IsTrue result ↔ IsLoading sight.now.view.now.call × (sight.now.view.now.stay ≡ Ready)
        × IsExclusive sight.now.lock.now sight.now.seat
        × (in_table sight.now.table.now.sizes place.now ≡ true)
        × IsNextLoad (loads sight.now.view.now.call) place.now }
{
    is_loading(&sight.view.call)
        && sight.view.stay == Stay::Ready
        && is_exclusive(sight.lock, sight.seat)
        && sight.table.has(place)
        && is_next_load(&sight.view.call, place)
}

// Whether a collection begins, or has stored nothing yet.
fn is_loading(call: &Call) -> bool
    ensures { IsTrue result ↔ IsLoading call.now }
{
    matches!(call, Call::Idle | Call::Loading(_))
}

// How many words a collection has loaded.
fn count_loads(call: &Call) -> usize
    ensures { result ≡ length (loads call.now) }
{
    match call {
        Call::Loading(list) | Call::Storing(list, _) => list.len(),
        _ => 0,
    }
}

// A collection loads the base, the claim and the free count, and then any words.
fn is_next_load(call: &Call, place: &Place) -> bool
    ensures { IsTrue result ↔ IsNextLoad (loads call.now) place.now }
{
    match count_loads(call) {
        0 => same_place(place, &Place::Base),
        1 => same_place(place, &Place::Claim),
        2 => same_place(place, &Place::FreeCount),
        _ => true,
    }
}

// Whether the own protected rows are those of the last Roots.
fn are_last_roots(view: &View) -> Result<bool, Memory>
    ensures { IfOk result (λ b. IsTrue b ↔ AreLastRoots view.now) }
{
    let last = last_roots(&view.entries)?;
    let rows = protected_rows(view)?;
    Ok(are_same(last.as_slice(), rows.as_slice()))
}

fn are_same(one: &[u32], other: &[u32]) -> bool
    ensures { IsTrue result ↔ (one.now ≡ other.now) }
{
    one == other
}

// The rows of the last Roots; none, where there is none.
#[tactic(auto, using(crate::proofs::Deciding::last_on))]
fn last_roots(entries: &LinkedList<Entry>) -> Result<Vec<u32>, Memory>
    ensures { IfOk result (λ rows. rows.items ≡ last_roots [] entries.now) }
{
    let mut last = Vec::new(*entries.allocator());
    for entry in entries {
        last = roots_after(last, entry)?;
    }
    Ok(last)
}

fn roots_after(rows: Vec<u32>, entry: &Entry) -> Result<Vec<u32>, Memory>
    ensures { IfOk result (λ r. r.items ≡ roots_after rows.items entry.now) }
{
    match entry {
        Entry::Roots { rows, .. } => rows_of(rows),
        _ => Ok(rows),
    }
}

// Whether the base, the claim and the free count are loaded, and leave no room for another epoch.
fn is_worn(sizes: &Sizes, loads: &[(Place, u64)]) -> bool
    ensures { result ≡ worn_by sizes.now loads.now }
{
    match (
        first_loaded(&Place::Base, loads),
        first_loaded(&Place::Claim, loads),
        first_loaded(&Place::FreeCount, loads),
    ) {
        (Some(base), Some(claim), Some(_)) => leaves_no_room(sizes, base, claim),
        _ => false,
    }
}

fn leaves_no_room(sizes: &Sizes, base: u64, claim: u64) -> bool
    ensures { result ≡ nat_lt (2 ^ 62) (base + claim + 1 + span sizes.now) }
{
    let span = u128::from(sizes.rows) + u128::from(sizes.seats) + 1;
    1 << 62 < u128::from(base) + u128::from(claim) + 1 + span
}

// What a seat knows after a load of its collection.
fn add_load(view: &mut View, sizes: &Sizes, place: Place, value: u64) -> Result<(), Memory>
    ensures { OnOk result
        (view.new ≡ machine.with_call view.old
        (loading sizes.now (loads view.old.call ++ (place, value) ∷ []))) }
{
    let mut list = loads_in(view)?;
    list.push_back((place, value))?;
    set_call(view, next_call(sizes, list)?);
    Ok(())
}

// A collection that has loaded so much: Worn ends it.
fn next_call(sizes: &Sizes, list: LinkedList<(Place, u64)>) -> Result<Call, Memory>
    ensures { IfOk result (λ call. call ≡ loading sizes.now list) }
{
    let words = words_in(&list)?;
    if is_worn(sizes, words.as_slice()) {
        Ok(Call::Idle)
    } else {
        Ok(Call::Loading(list))
    }
}

// What a collection has loaded.
fn loads_in(view: &View) -> Result<LinkedList<(Place, u64)>, Memory>
    ensures { IfOk result (λ list. list ≡ loads view.now.call) }
{
    match &view.call {
        Call::Loading(list) | Call::Storing(list, _) => Ok(copy_loads(list)?),
        _ => Ok(LinkedList::new(*view.got.allocator())),
    }
}

// What a collection has stored, the last one first.
fn stores_in(view: &View) -> Result<LinkedList<(Place, u64)>, Memory>
    ensures { IfOk result (λ list. list ≡ stores view.now.call) }
{
    match &view.call {
        Call::Storing(_, list) => Ok(copy_loads(list)?),
        _ => Ok(LinkedList::new(*view.got.allocator())),
    }
}

/// A store before the last.
pub(crate) fn plan_store_any(
    sight: &Sight,
    view: &mut View,
    place: Place,
    value: u64,
) -> Result<Option<Change>, Memory>
    requires { view.old ≡ sight.now.view.now }
    ensures { Plans sight.now (machine.StoreAny place value) view.new result }
{
    if !sight.table.has(&place) || !is_stored(&place) || !may_store(sight)? {
        return Ok(None);
    }
    add_store(view, place, value)?;
    Ok(Some(Change::of_word(place, value)))
}

// The words that a collection stores before the claim.
fn is_stored(place: &Place) -> bool
    ensures { result ≡ is_stored place.now }
{
    match place {
        Place::Base
        | Place::FreeCount
        | Place::InUse
        | Place::FreePlace(_)
        | Place::Bucket(_)
        | Place::Next(_) => true,
        _ => false,
    }
}

// Whether a collection goes on to store.
fn may_store(sight: &Sight) -> Result<bool, Memory>
    ensures { IfOk result
        (λ b. IsTrue b
        ↔ MayStore sight.now.table.now.sizes
        (shown sight.now.table.now.sizes sight.now.table.now.words.items) sight.now.view.now.call) }
{
    match &sight.view.call {
        Call::Loading(list) => {
            let loads = words_in(list)?;
            is_whole(sight.table, loads.as_slice())
        }
        Call::Storing(_, _) => Ok(true),
        _ => Ok(false),
    }
}

// What a seat knows after a store of its collection.
fn add_store(view: &mut View, place: Place, value: u64) -> Result<(), Memory>
    ensures { OnOk result
        (view.new ≡ machine.with_call view.old
        (Storing (loads view.old.call) ((place, value) ∷ stores view.old.call))) }
{
    let loads = loads_in(view)?;
    let mut stores = stores_in(view)?;
    stores.push_front((place, value))?;
    set_call(view, Call::Storing(loads, stores));
    Ok(())
}
