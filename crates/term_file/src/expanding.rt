//! A term of a file as items.
ghost use Rattle.std.specs.Prelude.{◌≡◌, ◌<◌, ◌∷◌, ◌++◌, [], length, IfOk, OnOk, true};
ghost use Rattle.std.specs.List.{AllByRecursion, flat_map};
ghost use Rattle.term_model.specs.Tree.{IsWellFormed};
ghost use Rattle.term_model.specs.Postorder.{item_of};
ghost use Rattle.term_file.specs.Contents as contents;
ghost use Rattle.term_file.specs.Expanding.{items_at, items_left};
ghost use Rattle.term_file.specs.Outcome.{head_of};
ghost use Rattle.term_file.specs.Right as right;

use crate::record::Kind;
use crate::records::arity_of;
use crate::table::Table;
use std::alloc::{AllocError, Global};
use symbol_pool::Symbols;
use term_model::{Flat, Item, Symbol};

/// The item of a record's root.
fn root_item(symbols: &Symbols, kind: Kind) -> Item
    requires { right.is_right_head symbols.now (head_of kind) ≡ true }
    ensures { result ≡ item_of (head_of kind) (right.arity_in symbols.now (head_of kind)) }
{
    match kind {
        Kind::Call(symbol) => Item::App(Symbol(symbol), arity_of(symbols, kind)),
        Kind::Integer(value) => Item::Int(value),
        Kind::Empty => Item::Nil,
        Kind::Cell => Item::Cons,
    }
}

/// Writes the last item of the last tree that is left, and leaves its arguments.
fn write_last(
    symbols: &Symbols,
    table: &Table,
    number: u32,
    numbers: &mut Vec<u32>,
    items: &mut Vec<Item>,
) -> Result<(), AllocError>
    requires right { right.all_after (right.is_right_record symbols.now) [] table.now ≡ true }
    requires there { number < length table.now }
    requires below { AllByRecursion (λ k. k < length table.now) numbers.old.items }
    ensures left { OnOk result (items_left table.now numbers.new.items items.new.items
        ≡ items_left table.now (numbers.old.items ++ number ∷ []) items.old.items) }
    ensures below { OnOk result (AllByRecursion (λ k. k < length table.now) numbers.new.items) }
    ensures less { OnOk result (length (flat_map (items_at table.now) numbers.new.items)
        < length (flat_map (items_at table.now) (numbers.old.items ++ number ∷ []))) }
{
    let entry = table.at(number as usize);
    items.push(root_item(symbols, entry.kind))?;
    numbers.extend_from_slice(&entry.arguments)?;
    Ok(())
}

/// The items of the tree of a record. They are written from the last to the first, so that the
/// trees that are left are a stack of numbers.
fn items_of(
    alloc: Global,
    symbols: &Symbols,
    table: &Table,
    root: u32,
) -> Result<Vec<Item>, AllocError>
    requires right { right.all_after (right.is_right_record symbols.now) [] table.now ≡ true }
    requires there { root < length table.now }
    ensures { IfOk result (λ items. items.items ≡ items_at table.now root) }
{
    let mut items = Vec::new(alloc);
    let mut numbers = Vec::new(alloc);
    numbers.push(root)?;
    while let Some(number) = numbers.pop() {
        write_last(symbols, table, number, &mut numbers, &mut items)?;
    }
    items.reverse();
    Ok(items)
}

/// The tree of a record, written out.
pub(crate) fn flat_of(
    alloc: Global,
    symbols: &Symbols,
    table: &Table,
    root: u32,
) -> Result<Flat, AllocError>
    requires right { right.all_after (right.is_right_record symbols.now) [] table.now ≡ true }
    requires there { root < length table.now }
    requires well_formed { IsWellFormed (contents.tree_at (contents.trees table.now) root) }
    ensures { IfOk result (λ flat. flat ≡ contents.tree_at (contents.trees table.now) root) }
{
    let items = items_of(alloc, symbols, table, root)?;
    match Flat::of(items) {
        Some(flat) => Ok(flat),
        None => unreachable!(),
    }
}
