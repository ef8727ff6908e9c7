//! The rows that are reached from every seat's protected rows.
ghost use Rattle.std.specs.Prelude.{◌≡◌, ◌<◌, ℕ, [], false, IfOk, OnOk, MatchBool, MatchOption, length, get_or, replicate};
ghost use Rattle.store_core.specs.RowLists.{count_place, item_place, IsPast};
ghost use Rattle.store_model.specs.Shown.{shown};
ghost use Rattle.store_model.specs.Marks.{Adds, Halfway, MarksReached, ReachesPast};

use crate::machine::marking::no_marks;
use crate::machine::row_lists::{RowList, rows_of};
use crate::machine::table::Table;
use faults::Memory;
use std::alloc::Global;

/// Rows that are marked, and those of them that wait until their arguments are.
#[derive(Drop)]
struct Marking {
    marked: Vec<bool>,
    waiting: Vec<u32>,
}

fn nothing_marked(alloc: Global, rows: u32) -> Result<Marking, Memory>
    ensures marked { IfOk result (λ m. m.marked.items ≡ replicate rows false) }
    ensures waiting { IfOk result (λ m. m.waiting.items ≡ []) }
{
    Ok(Marking {
        marked: no_marks(alloc, rows)?,
        waiting: Vec::new(alloc),
    })
}

// Marks a row, which then waits, unless it is marked.
fn mark(marking: &mut Marking, row: u32) -> Result<(), Memory>
    requires { row < length marking.old.marked.items }
    ensures { OnOk result
        (Adds (λ k. row) 1 marking.old.marked.items marking.old.waiting.items
        marking.new.marked.items marking.new.waiting.items) }
{
    if marking.marked[row as usize] {
        return Ok(());
    }
    marking.marked[row as usize] = true;
    marking.waiting.push(row)?;
    Ok(())
}

fn mark_all(marking: &mut Marking, rows: &[u32]) -> Result<(), Memory>
    requires { (k : ℕ) → k < length rows.now
        → get_or rows.now k 0 < length marking.old.marked.items }
    ensures { OnOk result
        (Adds (λ k. get_or rows.now k 0) (length rows.now) marking.old.marked.items
        marking.old.waiting.items marking.new.marked.items marking.new.waiting.items) }
{
    for row in rows {
        mark(marking, *row)?;
    }
    Ok(())
}

// Marks the rows of a list; false where one of them isn't a row of the store.
fn mark_list(
    alloc: Global,
    table: &Table,
    marking: &mut Marking,
    list: RowList,
) -> Result<bool, Memory>
    requires { length marking.old.marked.items ≡ table.now.sizes.rows }
    ensures { IfOk result (λ b. MatchBool b
        (Adds (λ k. shown table.now.sizes table.now.words.items (item_place list k))
        (shown table.now.sizes table.now.words.items (count_place list)) marking.old.marked.items
        marking.old.waiting.items marking.new.marked.items marking.new.waiting.items)
        (IsPast table.now.sizes (shown table.now.sizes table.now.words.items) list)) }
{
    let Some(rows) = rows_of(alloc, table, list)? else {
        return Ok(false);
    };
    mark_all(marking, rows.as_slice())?;
    Ok(true)
}

// The protected rows of every seat are marked.
fn with_protected(alloc: Global, table: &Table) -> Result<Option<Marking>, Memory>
    ensures { IfOk result (λ o. MatchOption o
        (ReachesPast (shown table.now.sizes table.now.words.items) table.now.sizes.rows)
        (λ m. Halfway table.now.sizes (shown table.now.sizes table.now.words.items)
        table.now.sizes.seats m.marked.items m.waiting.items)) }
{
    let mut marking = nothing_marked(alloc, table.sizes.rows)?;
    for seat in 0..table.sizes.seats {
        if !mark_list(alloc, table, &mut marking, RowList::Protected(seat))? {
            return Ok(None);
        }
    }
    Ok(Some(marking))
}

// The arguments of the rows that wait are marked, until none waits.
fn with_arguments(
    alloc: Global,
    table: &Table,
    marking: Marking,
) -> Result<Option<Vec<bool>>, Memory>
    requires { Halfway table.now.sizes (shown table.now.sizes table.now.words.items)
        table.now.sizes.seats marking.marked.items marking.waiting.items }
    ensures { IfOk result (λ o. MatchOption o
        (ReachesPast (shown table.now.sizes table.now.words.items) table.now.sizes.rows)
        (λ v. MarksReached (shown table.now.sizes table.now.words.items)
        table.now.sizes.rows v.items)) }
{
    let mut marking = marking;
    while let Some(row) = marking.waiting.pop() {
        if !mark_list(alloc, table, &mut marking, RowList::Arguments(row))? {
            return Ok(None);
        }
    }
    Ok(Some(marking.marked))
}

/// Marks the rows that are reached; None where one of them isn't a row of the store.
pub(crate) fn reached_rows(alloc: Global, table: &Table) -> Result<Option<Vec<bool>>, Memory>
    ensures { IfOk result (λ o. MatchOption o
        (ReachesPast (shown table.now.sizes table.now.words.items) table.now.sizes.rows)
        (λ v. MarksReached (shown table.now.sizes table.now.words.items)
        table.now.sizes.rows v.items)) }
{
    let Some(marking) = with_protected(alloc, table)? else {
        return Ok(None);
    };
    with_arguments(alloc, table, marking)
}
