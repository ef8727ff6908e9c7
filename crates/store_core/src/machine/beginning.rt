//! The step that begins a creation.
ghost use Rattle.std.specs.Prelude.{◌≡◌, ◌↔◌, ◌<◌, ◌≤◌, false, length, get_or, IfOk, IsTrue};
ghost use Rattle.std.specs.List.{list_all};
ghost use Rattle.term_model.specs.declared.Head.TheVariants.{Cons};
ghost use Rattle.store_model.specs.Calls.{IsOver, bucket};
ghost use Rattle.store_model.specs.Machine.{Begin, IsListRow, SecondIsList, MayBegin, widest};
ghost use Rattle.store_model.specs.Steps.{MayCreate, Permits};
ghost use Rattle.store_model.specs.Shown.{shown};
ghost use Rattle.store_core.specs.Planning.{PlansStep, sizes_seen, state_seen};
ghost use Rattle.store_model.specs.declared.step.StoreStep.TheVariants.{LoadBucket};

use crate::machine::change::{Change, Sight};
use crate::machine::contents::bucket_of;
use crate::machine::locking::{is_at_rest, phase_of};
use crate::machine::naming::{is_named, named_rows};
use crate::machine::rows::rows_of;
use crate::machine::stages::begin_walk;
use crate::machine::table::Table;
use faults::Memory;
use lock_core::Phase;
use store_model::{Content, Place, Sizes, View};
use term_model::Head;

/// The load that begins a creation.
pub(crate) fn plan_begin(
    sight: &Sight,
    view: &mut View,
    bucket: u32,
    content: Content,
) -> Result<Option<Change>, Memory>
    requires { view.old ≡ sight.now.view.now }
    ensures { PlansStep sight.now (LoadBucket bucket content) view.new result }
{
    if !may_load_bucket(sight, bucket, &content)? {
        return Ok(None);
    }
    begin_walk(view, content, sight.table.load(&Place::Bucket(bucket)))?;
    Ok(Some(Change::of_nothing()))
}

// Whether a creation of this content may begin, at the bucket of this number.
fn may_load_bucket(sight: &Sight, number: u32, content: &Content) -> Result<bool, Memory>
    ensures { IfOk result
        (λ b. IsTrue b
        ↔ Permits (sizes_seen sight.now) (state_seen sight.now) sight.now.seat (Begin content.now)
        × (number ≡ bucket content.now sight.now.view.now.in_use)) }
{
    if !is_at_rest(sight.view) || !may_create(sight) || !may_begin(sight, content)? {
        return Ok(false);
    }
    Ok(number == bucket_of(content, sight.view.in_use)?)
}

// In shared access, or in an exclusive one after a collection of it.
fn may_create(sight: &Sight) -> bool
    ensures { IsTrue result ↔ MayCreate (state_seen sight.now) sight.now.seat }
{
    phase_of(sight.lock, sight.seat) == Phase::Shared || sight.view.fresh
}

// Whether the content has room, is one, and is over rows that the seat may name.
fn may_begin(sight: &Sight, content: &Content) -> Result<bool, Memory>
    ensures { IfOk result
        (λ b. IsTrue b
        ↔ MayBegin sight.now.table.now.sizes
        (shown sight.now.table.now.sizes sight.now.table.now.words.items) sight.now.seat
        sight.now.view.now content.now) }
{
    let rows = rows_of(&content.arguments)?;
    if !is_formed(sight.table, content.head, rows.as_slice()) {
        return Ok(false);
    }
    let marks = named_rows(sight.table, sight.seat, sight.view)?;
    Ok(all_named(marks.as_slice(), rows.as_slice()))
}

// Whether the rows are all marked.
fn all_named(marks: &[bool], rows: &[u32]) -> bool
    ensures { result ≡ list_all (λ r. get_or marks.now r false) rows.now }
{
    rows.iter().all(|row| is_named(marks, u64::from(*row)))
}

// Whether a head may stand over these rows, for which there is room.
fn is_formed(table: &Table, head: Head, rows: &[u32]) -> bool
    ensures { IsTrue result ↔ (length rows.now ≤ widest table.now.sizes) × IsOver head rows.now
        × SecondIsList (shown table.now.sizes table.now.words.items) head rows.now }
{
    if rows.len() as u64 > widest_of(&table.sizes) {
        return false;
    }
    match head {
        Head::App(_) => true,
        Head::Int(_) | Head::Nil => rows.is_empty(),
        Head::Cons => is_cell(table, rows),
    }
}

/// How many arguments a row has room for.
pub(crate) fn widest_of(sizes: &Sizes) -> u64
    ensures count { result ≡ widest sizes.now }
    ensures small { result < 4294967296 }
{
    u64::from(sizes.arity.max(2))
}

// Two rows, the second that of a list.
fn is_cell(table: &Table, rows: &[u32]) -> bool
    ensures { IsTrue result ↔ IsOver Cons rows.now
        × SecondIsList (shown table.now.sizes table.now.words.items) Cons rows.now }
{
    rows.len() == 2 && is_list_row(table, rows[1])
}

// Whether a row is that of the empty list or of a cell.
fn is_list_row(table: &Table, row: u32) -> bool
    ensures { IsTrue result ↔ IsListRow (shown table.now.sizes table.now.words.items) row }
{
    let symbol = table.load(&Place::RowWord(row, 0));
    symbol == 4294967297 || symbol == 4294967298
}
