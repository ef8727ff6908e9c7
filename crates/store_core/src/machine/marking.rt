//! Marks of the rows in free places, and of those that are reached.
ghost use Rattle.std.specs.Prelude.{◌≡◌, ◌<◌, ◌↔◌, ℕ, false, IfOk, IsTrue, MatchOption, length, get_or, vec_len, replicate};
ghost use Rattle.store_model.specs.Shown.{shown};
ghost use Rattle.store_model.specs.Steps.{rows_left};
ghost use Rattle.store_model.specs.Marks.{Marks, AreNotApart, AreOpposite, IsMarked, MarksFree, MarksPlaces, Repeats};

use crate::machine::row_lists::{RowList, rows_of};
use crate::machine::table::Table;
use faults::Memory;
use std::alloc::Global;
use store_model::Place;

/// No mark at any of so many rows.
pub(crate) fn no_marks(alloc: Global, rows: u32) -> Result<Vec<bool>, Memory>
    ensures items { IfOk result (λ v. v.items ≡ replicate rows false) }
    ensures len { IfOk result (λ v. vec_len v ≡ rows) }
{
    Ok(vec![in alloc; false; rows as usize]?)
}

/// Marks the rows in the free places; None where they aren't different rows of the store.
pub(crate) fn free_rows(alloc: Global, table: &Table) -> Result<Option<Vec<bool>>, Memory>
    ensures { IfOk result
        (λ o. MatchOption o
        (AreNotApart table.now.sizes (shown table.now.sizes table.now.words.items))
        (λ v. MarksFree table.now.sizes (shown table.now.sizes table.now.words.items) v.items)) }
{
    if table.load(&Place::FreeCount) > u64::from(table.sizes.rows) {
        return Ok(None);
    }
    let Some(places) = rows_of(alloc, table, RowList::Free)? else {
        return Ok(None);
    };
    mark_places(alloc, places.as_slice(), table.sizes.rows)
}

// Marks the rows in these places; None where a row is in two of them.
fn mark_places(alloc: Global, places: &[u32], rows: u32) -> Result<Option<Vec<bool>>, Memory>
    requires { (k : ℕ) → k < length places.now → get_or places.now k 0 < rows }
    ensures { IfOk result
        (λ o. MatchOption o (Repeats (λ i. get_or places.now i 0) (length places.now))
        (λ v. MarksPlaces (λ i. get_or places.now i 0) (length places.now) rows v.items)) }
{
    let mut marks = no_marks(alloc, rows)?;
    for row in places {
        if marks[*row as usize] {
            return Ok(None);
        }
        marks[*row as usize] = true;
    }
    Ok(Some(marks))
}

/// How many of the rows are in no free place.
pub(crate) fn count_left(free: &[bool], rows: u32) -> u32
    requires { length free.now ≡ rows }
    ensures { (place : ℕ → ℕ) (n : ℕ) → MarksPlaces place n rows free.now
        → result ≡ length (rows_left place n rows) }
{
    let mut count = 0;
    for row in 0..rows {
        if !free[row as usize] {
            count += 1;
        }
    }
    count
}

/// Whether each row is marked on one side alone.
pub(crate) fn are_opposite(live: &[bool], free: &[bool]) -> bool
    requires { length live.now ≡ length free.now }
    ensures { IsTrue result ↔ AreOpposite live.now free.now }
{
    for row in 0..live.len() {
        if live[row] == free[row] {
            return false;
        }
    }
    true
}

/// Marks these rows.
pub(crate) fn mark_rows(marks: &mut [bool], rows: &[u32])
    requires { (k : ℕ) → k < length rows.now → get_or rows.now k 0 < length marks.old }
    ensures { Marks (λ k. get_or rows.now k 0) (length rows.now) marks.old marks.new }
{
    for row in rows {
        marks[*row as usize] = true;
    }
}

/// Whether these rows are all marked.
pub(crate) fn are_marked(marks: &[bool], rows: &[u32]) -> bool
    requires { (k : ℕ) → k < length rows.now → get_or rows.now k 0 < length marks.now }
    ensures { IsTrue result
        ↔ ((k : ℕ) → k < length rows.now → IsMarked marks.now (get_or rows.now k 0)) }
{
    for row in rows {
        if !marks[*row as usize] {
            return false;
        }
    }
    true
}
