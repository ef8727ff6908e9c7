//! What a row's words are the words of.
ghost use Rattle.std.specs.Prelude.{◌≡◌, IfOk, MatchBool, MatchOption};
ghost use Rattle.term_model.specs.declared.Head.{Head};
ghost use Rattle.store_core.specs.RowLists.{IsList};
ghost use Rattle.store_core.specs.declared.machine.row_lists.RowList.TheVariants.{Arguments};
ghost use Rattle.store_model.specs.Shown.{shown};
ghost use Rattle.store_model.specs.MarkedChains.{HasWords, HasContent, HasNone, StandsIn, Strays};

use crate::machine::contents::bucket_of;
use crate::machine::row_lists::{RowList, rows_of};
use crate::machine::table::Table;
use faults::Memory;
use hash_buckets::symbol_word;
use std::alloc::Global;
use std::collections::LinkedList;
use store_model::{Content, Place};
use term_model::{Head, Symbol};

// The head with these words and so many arguments.
fn head_of(symbol: u64, count: usize, value: u64) -> Option<Head>
    ensures { MatchOption result ((f : Head) → HasWords symbol count value f → ⊥)
        (HasWords symbol count value) }
{
    if symbol < 1 << 32 {
        return Some(Head::App(Symbol(symbol as u32)));
    }
    if symbol == symbol_word(Head::Int(value)) && count == 0 {
        return Some(Head::Int(value));
    }
    if symbol == symbol_word(Head::Nil) && count == 0 {
        return Some(Head::Nil);
    }
    if symbol == symbol_word(Head::Cons) && count == 2 {
        return Some(Head::Cons);
    }
    None
}

fn listed(alloc: Global, rows: &[u32]) -> Result<LinkedList<u32>, Memory>
    ensures { IfOk result (λ l. l ≡ rows.now) }
{
    let mut list = LinkedList::new(alloc);
    for row in rows {
        list.push_back(*row)?;
    }
    Ok(list)
}

fn content_over(
    alloc: Global,
    table: &Table,
    row: u32,
    arguments: &[u32],
) -> Result<Option<Content>, Memory>
    requires { IsList table.now.sizes (shown table.now.sizes table.now.words.items)
        (Arguments row) arguments.now }
    ensures { IfOk result (λ o. MatchOption o
        (HasNone table.now.sizes (shown table.now.sizes table.now.words.items) row)
        (HasContent (shown table.now.sizes table.now.words.items) row)) }
{
    let symbol = table.load(&Place::RowWord(row, 0));
    let value = table.load(&Place::RowWord(row, 2));
    let Some(head) = head_of(symbol, arguments.len(), value) else {
        return Ok(None);
    };
    Ok(Some(Content {
        head,
        arguments: listed(alloc, arguments)?,
    }))
}

/// The content of a row; None where it has none over rows of the store.
fn content_of(alloc: Global, table: &Table, row: u32) -> Result<Option<Content>, Memory>
    ensures { IfOk result (λ o. MatchOption o
        (HasNone table.now.sizes (shown table.now.sizes table.now.words.items) row)
        (HasContent (shown table.now.sizes table.now.words.items) row)) }
{
    let Some(arguments) = rows_of(alloc, table, RowList::Arguments(row))? else {
        return Ok(None);
    };
    content_over(alloc, table, row, arguments.as_slice())
}

/// Whether a row's content is of this bucket, of so many in use.
pub(crate) fn stands_in(
    alloc: Global,
    table: &Table,
    row: u32,
    number: u32,
    in_use: u32,
) -> Result<bool, Memory>
    ensures { IfOk result (λ b. MatchBool b
        (StandsIn (shown table.now.sizes table.now.words.items) in_use number row)
        (Strays table.now.sizes (shown table.now.sizes table.now.words.items) in_use number row)) }
{
    let Some(content) = content_of(alloc, table, row)? else {
        return Ok(false);
    };
    let bucket = bucket_of(&content, in_use)?;
    Ok(bucket == number)
}
