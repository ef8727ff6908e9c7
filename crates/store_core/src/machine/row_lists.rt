//! Lists of rows in the words of a store, each with its count.
ghost use Rattle.std.specs.Prelude.{◌≡◌, MatchOption, IfOk};
ghost use Rattle.store_model.specs.Shown.{shown};
ghost use Rattle.store_core.specs.RowLists.{count_place, item_place, IsList, IsPast};

use crate::machine::moves::narrow;
use crate::machine::table::Table;
use faults::Memory;
use std::alloc::Global;
use store_model::Place;

/// A list of rows in the words.
#[derive(Clone, Copy, Drop)]
pub(crate) enum RowList {
    /// The free places.
    Free,
    /// A seat's protected rows.
    Protected(u32),
    /// A row's arguments.
    Arguments(u32),
}

// Where its count stands.
fn count_place(list: RowList) -> Place
    ensures { result ≡ count_place list }
{
    match list {
        RowList::Free => Place::FreeCount,
        RowList::Protected(seat) => Place::RootCount(seat),
        RowList::Arguments(row) => Place::RowWord(row, 1),
    }
}

// Where row k of it stands.
fn item_place(list: RowList, k: u32) -> Result<Place, Memory>
    ensures { IfOk result (λ p. p ≡ item_place list k) }
{
    match list {
        RowList::Free => Ok(Place::FreePlace(k)),
        RowList::Protected(seat) => Ok(Place::Root(seat, k)),
        RowList::Arguments(row) => match k.checked_add(2) {
            Some(word) => Ok(Place::RowWord(row, word)),
            None => Err(Memory),
        },
    }
}

fn item(table: &Table, list: RowList, k: u32) -> Result<u64, Memory>
    ensures { IfOk result
        (λ n. n ≡ shown table.now.sizes table.now.words.items (item_place list k)) }
{
    let place = item_place(list, k)?;
    Ok(table.load(&place))
}

fn count(table: &Table, list: RowList) -> Result<u32, Memory>
    ensures { IfOk result
        (λ n. n ≡ shown table.now.sizes table.now.words.items (count_place list)) }
{
    narrow(table.load(&count_place(list)))
}

/// The rows of a list; None where one of them isn't a row of the store.
pub(crate) fn rows_of(
    alloc: Global,
    table: &Table,
    list: RowList,
) -> Result<Option<Vec<u32>>, Memory>
    ensures { IfOk result
        (λ o. MatchOption o
        (IsPast table.now.sizes (shown table.now.sizes table.now.words.items) list)
        (λ v. IsList table.now.sizes (shown table.now.sizes table.now.words.items) list v.items)) }
{
    let mut rows = Vec::new(alloc);
    for k in 0..count(table, list)? {
        let row = item(table, list, k)?;
        if row >= u64::from(table.sizes.rows) {
            return Ok(None);
        }
        rows.push(row as u32)?;
    }
    Ok(Some(rows))
}
