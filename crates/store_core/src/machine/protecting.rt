//! The steps on the own protected rows, and the reads of a row.
ghost use Rattle.std.specs.Prelude.{◌≡◌, ◌⊎◌, ◌↔◌, ℕ, ◌-◌, ◌<◌, ◌≤◌, IfOk, IsTrue, MatchBool};
ghost use Rattle.store_model.specs.declared.view.Place.TheVariants.{RowWord, Root};
ghost use Rattle.store_model.specs.Machine.{MayName, ReadWord, ReadArgument};
ghost use Rattle.store_model.specs.Steps.{MayRead};
ghost use Rattle.store_model.specs.Shown.{shown};
ghost use Rattle.store_model.specs.StoreSteps.{read_meant};
ghost use Rattle.store_core.specs.Planning.{Plans, PlansStep};
ghost use Rattle.store_core.specs.Naming.{IsMarked};
ghost use Rattle.store_model.specs.declared.step.StoreStep.TheVariants.{StoreRoot, StoreRootCount, LoadRoot, LoadRow};

use crate::machine::acting::{NextAct, plan_act, row_place};
use crate::machine::change::{Change, Sight};
use crate::machine::locking::{is_at_rest, is_idle};
use crate::machine::moves::{add_got, know, narrow};
use crate::machine::naming::{is_named, named_rows};
use crate::machine::rooting::{count_roots, root};
use crate::machine::table::Table;
use faults::Memory;
use store_model::{Place, View};

/// The load of an own protected row.
pub(crate) fn plan_load_root(
    sight: &Sight,
    view: &mut View,
    k: u32,
) -> Result<Option<Change>, Memory>
    requires { view.old ≡ sight.now.view.now }
    ensures { PlansStep sight.now (LoadRoot k) view.new result }
{
    if !is_at_rest(sight.view) || k >= sight.view.root_count {
        return Ok(None);
    }
    let row = narrow(sight.table.load(&Place::Root(sight.seat, k)))?;
    add_got(view, row)?;
    Ok(Some(Change::of_nothing()))
}

/// The store of an own protected row.
pub(crate) fn plan_store_root(
    sight: &Sight,
    view: &mut View,
    k: u32,
    row: u32,
) -> Result<Option<Change>, Memory>
    requires { view.old ≡ sight.now.view.now }
    ensures { PlansStep sight.now (StoreRoot k row) view.new result }
{
    if !is_at_rest(sight.view) || k >= sight.table.sizes.depth || !may_name(sight, row)? {
        return Ok(None);
    }
    root(view, k, row)?;
    Ok(Some(Change::of_word(Place::Root(sight.seat, k), u64::from(row))))
}

// Whether a seat may name a row.
fn may_name(sight: &Sight, row: u32) -> Result<bool, Memory>
    ensures { IfOk result
        (λ b. IsTrue b ↔ MayName (shown sight.now.table.now.sizes sight.now.table.now.words.items)
        sight.now.seat sight.now.view.now row) }
{
    let marks = named_rows(sight.table, sight.seat, sight.view)?;
    Ok(is_named(marks.as_slice(), u64::from(row)))
}

/// The store of the count of own protected rows.
pub(crate) fn plan_store_count(
    sight: &Sight,
    view: &mut View,
    count: u32,
) -> Result<Option<Change>, Memory>
    requires { view.old ≡ sight.now.view.now }
    ensures { PlansStep sight.now (StoreRootCount count) view.new result }
{
    if !is_at_rest(sight.view) || count > sight.table.sizes.depth || !may_count(sight, count)? {
        return Ok(None);
    }
    count_roots(view, count)?;
    Ok(Some(Change::of_word(Place::RootCount(sight.seat), u64::from(count))))
}

// Whether each of the first own rows was protected, or may be named.
fn may_count(sight: &Sight, count: u32) -> Result<bool, Memory>
    ensures { IfOk result
        (λ b. IsTrue b
        ↔ ((k : ℕ) → k < count
        → (k < sight.now.view.now.root_count)
        ⊎ MayName (shown sight.now.table.now.sizes sight.now.table.now.words.items) sight.now.seat
        sight.now.view.now
        (shown sight.now.table.now.sizes sight.now.table.now.words.items
        (Root sight.now.seat k)))) }
{
    let marks = named_rows(sight.table, sight.seat, sight.view)?;
    Ok(all_countable(sight, marks.as_slice(), count))
}

fn all_countable(sight: &Sight, marks: &[bool], count: u32) -> bool
    ensures { MatchBool result ((k : ℕ) → k < count
        → (k < sight.now.view.now.root_count)
        ⊎ IsMarked marks.now
        (shown sight.now.table.now.sizes sight.now.table.now.words.items (Root sight.now.seat k)))
        ((k : ℕ) × (k < count)
        × ((k < sight.now.view.now.root_count)
        ⊎ IsMarked marks.now
        (shown sight.now.table.now.sizes sight.now.table.now.words.items (Root sight.now.seat k))
        → ⊥)) }
{
    for k in sight.view.root_count..count {
        if !is_named(marks, sight.table.load(&Place::Root(sight.seat, k))) {
            return false;
        }
    }
    true
}

/// The load of a word of a row: a read, where no call is under way, and else the next action of a
/// creation.
pub(crate) fn plan_load_row(
    sight: &Sight,
    view: &mut View,
    row: u32,
    word: u32,
) -> Result<Option<Change>, Memory>
    requires { view.old ≡ sight.now.view.now }
    ensures { PlansStep sight.now (LoadRow row word) view.new result }
{
    if is_idle(sight.view) {
        plan_read(sight, view, row, word)
    } else {
        let place = row_place(&sight.table.sizes, row, word);
        plan_act(sight, view, &NextAct::Loads(place))
    }
}

// A read of a row.
fn plan_read(sight: &Sight, view: &mut View, row: u32, word: u32) -> Result<Option<Change>, Memory>
    requires { view.old ≡ sight.now.view.now }
    ensures { Plans sight.now
        (read_meant (shown sight.now.table.now.sizes sight.now.table.now.words.items) row word)
        view.new result }
{
    if word >= 2 && u64::from(word - 2) < sight.table.load(&Place::RowWord(row, 1)) {
        plan_read_argument(sight, view, row, word)
    } else {
        plan_read_word(sight, view, row, word)
    }
}

// Whether a word of a row may be read: the symbol word, the count, and the value of an integer.
fn may_read(table: &Table, row: u32, word: u32) -> bool
    ensures { IsTrue result ↔ MayRead (shown table.now.sizes table.now.words.items) row word }
{
    word < 2 || (word == 2 && table.load(&Place::RowWord(row, 0)) == 4294967296)
}

fn plan_read_word(
    sight: &Sight,
    view: &mut View,
    row: u32,
    word: u32,
) -> Result<Option<Change>, Memory>
    requires { view.old ≡ sight.now.view.now }
    ensures { Plans sight.now (ReadWord row word) view.new result }
{
    if !is_at_rest(sight.view) || !may_read(sight.table, row, word) || !may_name(sight, row)? {
        return Ok(None);
    }
    let value = sight.table.load(&Place::RowWord(row, word));
    know(view, row, word, value)?;
    Ok(Some(Change::of_nothing()))
}

// The argument is the word less 2.
fn plan_read_argument(
    sight: &Sight,
    view: &mut View,
    row: u32,
    word: u32,
) -> Result<Option<Change>, Memory>
    requires own { view.old ≡ sight.now.view.now }
    requires word { 2 ≤ word }
    requires there { word - 2 < shown sight.now.table.now.sizes sight.now.table.now.words.items
        (RowWord row 1) }
    ensures { Plans sight.now (ReadArgument row (word - 2)) view.new result }
{
    if !is_at_rest(sight.view) || !may_name(sight, row)? {
        return Ok(None);
    }
    let value = sight.table.load(&Place::RowWord(row, word));
    let argument = narrow(value)?;
    know(view, row, word, value)?;
    add_got(view, argument)?;
    Ok(Some(Change::of_nothing()))
}
