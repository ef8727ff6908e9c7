//! Whether a collection may end.
ghost use Rattle.std.specs.Prelude.{◌≡◌, ℕ, ◌↔◌, List, [], ◌∷◌, ◌++◌, IfOk, IsTrue, MatchOption};
ghost use Rattle.store_model.specs.Machine.{State};
ghost use Rattle.store_model.specs.declared.view.Place.{Place};
ghost use Rattle.store_model.specs.Shown.{shown};
ghost use Rattle.store_model.specs.Steps.{MayEnd, grown_use, value_at};
ghost use Rattle.store_model.specs.Ending.{BaseFollows, IsBroken, IsEnding, Keeps, UseFollows};

use crate::machine::marked_chains::chains_stand;
use crate::machine::marking::{are_opposite, count_left, free_rows};
use crate::machine::reached::reached_rows;
use crate::machine::table::Table;
use faults::Memory;
use std::alloc::Global;
use std::collections::LinkedList;
use store_model::{Place, Sizes};

// Whether two places are the same.
fn is_same(p: Place, q: Place) -> bool
    ensures { IsTrue result ↔ (p ≡ q) }
{
    p == q
}

// What was loaded first from a place, by what was before a load.
fn with_load(value: Option<u64>, place: Place, load: (Place, u64)) -> Option<u64>
    ensures { (before : List (Place × ℕ)) → value ≡ value_at place before
        → result ≡ value_at place (before ++ load ∷ []) }
{
    if value.is_some() {
        return value;
    }
    if is_same(load.0, place) {
        Some(load.1)
    } else {
        None
    }
}

// What was loaded first from a place.
fn value_at(place: Place, loads: &LinkedList<(Place, u64)>) -> Option<u64>
    ensures { result ≡ value_at place loads.now }
{
    let mut value = None;
    for load in loads {
        value = with_load(value, place, *load);
    }
    value
}

// Whether the base follows from what was loaded.
fn base_follows(table: &Table, loads: &LinkedList<(Place, u64)>) -> bool
    ensures { IsTrue result ↔ BaseFollows (shown table.now.sizes table.now.words.items) loads.now }
{
    let word = table.load(&Place::Base);
    let Some(base) = value_at(Place::Base, loads) else {
        return false;
    };
    let Some(claim) = value_at(Place::Claim, loads) else {
        return false;
    };
    word > base && word - base - 1 == claim
}

// The buckets in use after a collection that keeps so many rows.
fn grown_use(sizes: &Sizes, in_use: u64, kept: u32) -> u64
    ensures { result ≡ grown_use sizes.now in_use kept }
{
    if in_use < 2 * u64::from(kept) {
        u64::from(sizes.buckets).min(2 * in_use)
    } else {
        in_use
    }
}

// Whether the buckets in use follow from what was loaded and how many rows are kept.
fn use_follows(table: &Table, loads: &LinkedList<(Place, u64)>, kept: u32) -> bool
    ensures { IsTrue result
        ↔ UseFollows table.now.sizes (shown table.now.sizes table.now.words.items) loads.now kept }
{
    match value_at(Place::InUse, loads) {
        Some(in_use) => table.load(&Place::InUse) == grown_use(&table.sizes, in_use, kept),
        None => false,
    }
}

// How many rows are kept; None where the words aren't whole again, or keep others than those
// reached.
fn kept_rows(alloc: Global, table: &Table) -> Result<Option<u32>, Memory>
    ensures { IfOk result (λ o. MatchOption o
        (IsBroken table.now.sizes (shown table.now.sizes table.now.words.items))
        (Keeps table.now.sizes (shown table.now.sizes table.now.words.items))) }
{
    let Some(live) = reached_rows(alloc, table)? else {
        return Ok(None);
    };
    let Some(free) = free_rows(alloc, table)? else {
        return Ok(None);
    };
    if !are_opposite(live.as_slice(), free.as_slice()) {
        return Ok(None);
    }
    if !chains_stand(alloc, table, live.as_slice())? {
        return Ok(None);
    }
    Ok(Some(count_left(free.as_slice(), table.sizes.rows)))
}

/// Whether the claim may be stored, which ends a collection that has loaded these words: whether
/// the words are whole again, and keep exactly the rows that are reached. Linear in the words.
pub(crate) fn may_end(table: &Table, loads: &LinkedList<(Place, u64)>) -> Result<bool, Memory>
    ensures { IfOk result (λ b. (s : State) (i : ℕ)
        → IsEnding table.now.sizes (shown table.now.sizes table.now.words.items) loads.now s i
        → (IsTrue b ↔ MayEnd table.now.sizes s i)) }
{
    let Some(kept) = kept_rows(*loads.allocator(), table)? else {
        return Ok(false);
    };
    if !base_follows(table, loads) {
        return Ok(false);
    }
    Ok(use_follows(table, loads, kept))
}
