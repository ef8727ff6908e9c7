//! The last store of a collection.
ghost use Rattle.std.specs.Prelude.{◌≡◌, ◌++◌, ◌∷◌, [], if◌then◌else◌, IfOk, OnOk, pred};
ghost use Rattle.store_model.specs.Steps.{is_free, names_left};
ghost use Rattle.store_model.specs.Collection.{collected};
ghost use Rattle.store_model.specs.Shown.{shown};
ghost use Rattle.store_model.specs.declared.view.Place.TheVariants.{Base, InUse, FreePlace};
ghost use Rattle.store_core.specs.Planning.{PlansClaim, PlansEnd};

use crate::machine::change::{Change, Sight};
use crate::machine::ending::may_end;
use crate::machine::moves::{narrow, set_call};
use crate::machine::staying::keep;
use crate::machine::table::Table;
use faults::Memory;
use history_core::Entry;
use std::alloc::Global;
use std::collections::LinkedList;
use store_model::{Call, Place, Stay, View};

/// The store of the claim, which ends a collection.
pub(crate) fn plan_claim(
    sight: &Sight,
    view: &mut View,
    value: u64,
) -> Result<Option<Change>, Memory>
    requires { view.old ≡ sight.now.view.now }
    ensures { PlansClaim sight.now value view.new result }
{
    match &sight.view.call {
        Call::Storing(loads, _) => plan_end(sight, view, loads, value),
        _ => Ok(None),
    }
}

fn plan_end(
    sight: &Sight,
    view: &mut View,
    loads: &LinkedList<(Place, u64)>,
    value: u64,
) -> Result<Option<Change>, Memory>
    requires { view.old ≡ sight.now.view.now }
    ensures { PlansEnd sight.now loads.now value view.new result }
{
    if value != 0 || !may_end(sight.table, loads)? {
        return Ok(None);
    }
    let kept = names_left(*sight.view.got.allocator(), sight.table)?;
    collect(view, sight.table, kept)?;
    Ok(Some(Change::of_word(Place::Claim, 0)))
}

#[tactic(auto, using(crate::proofs::Deciding::free_here, crate::proofs::Deciding::free_past))]
// Whether a row is among the first free places.
fn is_free(table: &Table, count: u32, row: u32) -> bool
    ensures { result ≡ is_free
        (λ i. shown table.now.sizes table.now.words.items (FreePlace i)) count row }
{
    for i in 0..count {
        if table.load(&Place::FreePlace(i)) == u64::from(row) {
            return true;
        }
    }
    false
}

// The names that stay, ascending.
#[tactic(auto, using(crate::proofs::Deciding::left_more))]
fn names_left(alloc: Global, table: &Table) -> Result<LinkedList<u32>, Memory>
    ensures { IfOk result
        (λ kept. kept ≡ names_left table.now.sizes (shown table.now.sizes table.now.words.items)) }
{
    let count = narrow(table.load(&Place::FreeCount))?;
    let mut kept = LinkedList::new(alloc);
    for row in 0..table.sizes.rows {
        kept = with_row(kept, row, is_free(table, count, row))?;
    }
    Ok(kept)
}

// The list with a row that isn't free.
fn with_row(mut list: LinkedList<u32>, row: u32, free: bool) -> Result<LinkedList<u32>, Memory>
    ensures { IfOk result (λ l. l ≡ (if free then list else list ++ row ∷ [])) }
{
    if !free {
        list.push_back(row)?;
    }
    Ok(list)
}

// What a seat knows after its collection.
fn collect(view: &mut View, table: &Table, kept: LinkedList<u32>) -> Result<(), Memory>
    ensures { OnOk result (let w = shown table.now.sizes table.now.words.items in
        view.new ≡ collected view.old (w Base) (pred (w Base)) (w InUse) kept) }
{
    let base = table.load(&Place::Base);
    let in_use = narrow(table.load(&Place::InUse))?;
    begin_epoch(view, base, in_use, kept)
}

// What it knows in the epoch of this base, with so many buckets in use and these names.
fn begin_epoch(view: &mut View, base: u64, in_use: u32, kept: LinkedList<u32>) -> Result<(), Memory>
    ensures { OnOk result (view.new ≡ collected view.old base (pred base) in_use kept) }
{
    let number = base.saturating_sub(1);
    view.entries.push_back(Entry::Collect { number, kept })?;
    keep(view)?;
    set_call(view, Call::Idle);
    view.stay = Stay::Ready;
    view.base = base;
    view.in_use = in_use;
    view.seen = number;
    view.fresh = true;
    Ok(())
}
