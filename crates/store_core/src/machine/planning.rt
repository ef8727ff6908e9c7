//! The plan of any step of a seat, and its making.
ghost use Rattle.std.specs.Prelude.{◌≡◌, ◌<◌, length, get_or, IfOk, IsTrue};
ghost use Rattle.store_model.specs.Shown.{shown};
ghost use Rattle.store_model.specs.StoreHolds.{StoreHolds};
ghost use Rattle.store_core.specs.Planning.{Serves, PlansStep, Planned, HasPlace, IsInside, state_by, changed, words_with, lock_with};
ghost use Rattle.store_model.specs.declared.step.StoreStep.TheVariants.{StoreDrawn, Publish};

use crate::machine::acting::{NextAct, plan_act, row_place};
use crate::machine::beginning::plan_begin;
use crate::machine::change::{Change, Sight};
use crate::machine::claiming::plan_claim;
use crate::machine::collecting::{plan_load_any, plan_store_any};
use crate::machine::locking::{plan_load_base, plan_load_in_use, plan_lock};
use crate::machine::protecting::{
    plan_load_root, plan_load_row, plan_store_count, plan_store_root,
};
use crate::machine::table::Table;
use faults::Memory;
use lock_core::LockState;
use store_model::{Place, StoreStep, View};

// The plan of a step, by what the seat sees. Here and in each plan `view` begins as a copy of
// `sight.view`, and becomes what the seat knows after the step.
fn plan(sight: &Sight, view: &mut View, step: StoreStep) -> Result<Option<Change>, Memory>
    requires { view.old ≡ sight.now.view.now }
    ensures { Serves sight.now step view.new result }
{
    match step {
        StoreStep::Lock(step) => plan_lock(sight, view, step),
        StoreStep::LoadBase => plan_load_base(sight, view),
        StoreStep::LoadFreeCount => plan_act(sight, view, &NextAct::Loads(Place::FreeCount)),
        StoreStep::LoadClaim => plan_act(sight, view, &NextAct::Loads(Place::Claim)),
        StoreStep::LoadInUse => plan_load_in_use(sight, view),
        StoreStep::Draw => plan_act(sight, view, &NextAct::Draws),
        StoreStep::LoadFreePlace(i) => plan_act(sight, view, &NextAct::Loads(Place::FreePlace(i))),
        StoreStep::StoreDrawn { row, word, value } => plan_drawn(sight, view, row, word, value),
        StoreStep::LoadBucket { bucket, content } => plan_begin(sight, view, bucket, content),
        StoreStep::LoadRow { row, word } => plan_load_row(sight, view, row, word),
        StoreStep::Publish { bucket, old, new } => plan_publish(sight, view, bucket, old, new),
        StoreStep::StoreRoot { place, row } => plan_store_root(sight, view, place, row),
        StoreStep::StoreRootCount(count) => plan_store_count(sight, view, count),
        StoreStep::LoadRoot(place) => plan_load_root(sight, view, place),
        StoreStep::LoadAny(place) => plan_load_any(sight, view, place),
        StoreStep::StoreNext { row, value } => plan_store_any(sight, view, Place::Next(row), value),
        StoreStep::StoreBucket { bucket, value } => {
            plan_store_any(sight, view, Place::Bucket(bucket), value)
        }
        StoreStep::StoreFreePlace { index, value } => {
            plan_store_any(sight, view, Place::FreePlace(index), value)
        }
        StoreStep::StoreFreeCount(value) => plan_store_any(sight, view, Place::FreeCount, value),
        StoreStep::StoreBase(value) => plan_store_any(sight, view, Place::Base, value),
        StoreStep::StoreInUse(value) => plan_store_any(sight, view, Place::InUse, value),
        StoreStep::StoreClaim(value) => plan_claim(sight, view, value),
    }
}

// The store of a word of the drawn row.
fn plan_drawn(
    sight: &Sight,
    view: &mut View,
    row: u32,
    word: u32,
    value: u64,
) -> Result<Option<Change>, Memory>
    requires { view.old ≡ sight.now.view.now }
    ensures { PlansStep sight.now (StoreDrawn row word value) view.new result }
{
    let place = row_place(&sight.table.sizes, row, word);
    plan_act(sight, view, &NextAct::Stores(place, value))
}

// The exchange on a bucket.
fn plan_publish(
    sight: &Sight,
    view: &mut View,
    bucket: u32,
    old: u32,
    new: u32,
) -> Result<Option<Change>, Memory>
    requires { view.old ≡ sight.now.view.now }
    ensures { PlansStep sight.now (Publish bucket old new) view.new result }
{
    plan_act(
        sight,
        view,
        &NextAct::Exchanges(Place::Bucket(bucket), u64::from(old), u64::from(new)),
    )
}

/// The plan of a step of a seat. `view` is a copy of the seat's: it becomes what the seat knows
/// after the step where that is in place, and is of no use else.
pub(crate) fn planned(
    table: &Table,
    lock: &LockState,
    views: &Vec<View>,
    view: &mut View,
    seat: u32,
    step: StoreStep,
) -> Result<Option<Change>, Memory>
    requires seat { seat < table.now.sizes.seats }
    requires views { length views.now.items ≡ table.now.sizes.seats }
    requires own { view.old ≡ get_or views.now.items seat view.old }
    requires holds { StoreHolds table.now.sizes
        (state_by table.now.sizes lock.now table.now.words.items views.now.items) }
    ensures { Planned table.now.sizes
        (state_by table.now.sizes lock.now table.now.words.items views.now.items) seat step view.new
        result }
{
    let sight = Sight {
        table,
        lock,
        view: &views[seat as usize],
        seat,
    };
    let change = plan(&sight, view, step)?;
    with_place(table, change)
}

// The change, where the table has the place that it stores at.
fn with_place(table: &Table, change: Option<Change>) -> Result<Option<Change>, Memory>
    ensures { IfOk result (λ o. (o ≡ change) × HasPlace table.now.sizes o) }
{
    if stores_inside(table, &change) {
        Ok(change)
    } else {
        Err(Memory)
    }
}

fn stores_inside(table: &Table, change: &Option<Change>) -> bool
    ensures { IsTrue result → HasPlace table.now.sizes change.now }
{
    match change {
        Some(change) => has_place(table, &change.stored),
        None => true,
    }
}

fn has_place(table: &Table, stored: &Option<(Place, u64)>) -> bool
    ensures { IsTrue result → IsInside table.now.sizes stored.now }
{
    match stored {
        Some((place, _)) => table.has(place),
        None => true,
    }
}

/// Makes a change that was planned.
pub(crate) fn commit(
    table: &mut Table,
    lock: &mut LockState,
    views: &mut Vec<View>,
    seat: u32,
    change: Change,
    view: View,
)
    requires seat { seat < length views.old.items }
    requires place { IsInside table.old.sizes change.stored }
    ensures sizes { table.new.sizes ≡ table.old.sizes }
    ensures views { length views.new.items ≡ length views.old.items }
    ensures state { state_by table.old.sizes lock.new table.new.words.items views.new.items
        ≡ changed
        (state_by table.old.sizes lock.old table.old.words.items views.old.items) seat change
        view }
{
    let Change { lock: next, stored } = change;
    store(table, stored);
    set_lock(lock, next);
    views[seat as usize] = view;
}

// Stores a word, if there is one.
fn store(table: &mut Table, stored: Option<(Place, u64)>)
    requires { IsInside table.old.sizes stored }
    ensures sizes { table.new.sizes ≡ table.old.sizes }
    ensures words { shown table.new.sizes table.new.words.items
        ≡ words_with (shown table.old.sizes table.old.words.items) stored }
{
    if let Some((place, word)) = stored {
        table.store(&place, word);
    }
}

// Puts another lock in the place of a lock, if there is one.
fn set_lock(lock: &mut LockState, next: Option<LockState>)
    ensures { lock.new ≡ lock_with lock.old next }
{
    if let Some(next) = next {
        *lock = next;
    }
}
