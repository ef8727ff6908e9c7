// Rows that are put where they are looked for.
ghost use Rattle.std.specs.Prelude.{◌≡◌, ◌+◌, ◌<◌, length, take, []};
ghost use Rattle.plain_store.specs.Index.{HasRoom, IsFront, IsIndexed, IsIndexedTo};

use crate::hashing::hash_of;
use crate::index::Index;
use crate::table::Table;
use term_model::Row;

/// Puts a row where it is looked for, or on the stack of free rows.
pub(crate) fn add(table: &Table, index: &mut Index, row: Row)
    requires below { row.0 < length table.now.slots }
    requires room { HasRoom index.old (length table.now.slots) }
    requires places { row.0 < length index.old.words }
    requires before { IsIndexed (take row.0 table.now.slots) index.old }
    ensures indexed { IsIndexed (take (row.0 + 1) table.now.slots) index.new }
    ensures tags { index.new.tags ≡ index.old.tags }
    ensures places { length index.new.words ≡ length index.old.words }
{
    match table.head(row) {
        Some(head) => {
            index.link(hash_of(head, table.arguments(row)), row);
        }
        None => index.free(row),
    }
}

// Puts the rows that were ever in use where they are looked for.
fn add_all(table: &Table, index: &mut Index, fresh: u32)
    requires front { IsFront fresh table.now.slots }
    requires room { HasRoom index.old (length table.now.slots) }
    requires places { fresh < length index.old.words }
    requires none { IsIndexed [] index.old }
    ensures indexed { IsIndexedTo fresh table.now.slots index.new }
    ensures places { length index.new.words ≡ length index.old.words }
{
    for i in 0..fresh {
        add(table, index, Row(i));
    }
}

// Makes more places, and puts the rows anew.
#[inline(never)]
fn grow(table: &Table, index: &mut Index, fresh: u32)
    requires below { fresh < length table.now.slots }
    requires indexed { IsIndexedTo fresh table.now.slots index.old }
    ensures indexed { IsIndexedTo fresh table.now.slots index.new }
    ensures places { fresh + 1 < length index.new.words }
{
    index.grow(fresh + 1);
    add_all(table, index, fresh);
}

/// Makes places for one row more, where they lack.
#[inline(always)]
pub(crate) fn make_places(table: &Table, index: &mut Index, fresh: u32)
    requires below { fresh < length table.now.slots }
    requires indexed { IsIndexedTo fresh table.now.slots index.old }
    ensures indexed { IsIndexedTo fresh table.now.slots index.new }
    ensures places { fresh + 1 < length index.new.words }
{
    if !index.has_places(fresh + 1) {
        grow(table, index, fresh);
    }
}
