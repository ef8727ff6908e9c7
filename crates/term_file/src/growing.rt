//! Terms that are shared item by item.
ghost use Rattle.std.specs.Prelude.{◌≡◌, ◌<◌, ◌≤◌, length, All, IfOk, OnErr, OnOk, Err, true};
ghost use Rattle.symbol_pool.specs.Pool.{IsPool};
ghost use Rattle.tree_text.specs.Canonical.{IsWritable};
ghost use Rattle.term_file.specs.declared.fault.ShareFault.TheVariants.{StoreFull};
ghost use Rattle.term_file.specs.Outcome.{view};
ghost use Rattle.term_file.specs.Right as right;
ghost use Rattle.term_file.specs.Contents.{nothing};
ghost use Rattle.term_file.specs.Sharing.{IsPlaced, IsCutInto, HasTrees, ComesOn, Takes, TakesTooMany, TakesTree, TreeIsTooMany, is_writable_item};

use crate::fault::ShareFault;
use crate::numbering::Numbering;
use crate::record::Record;
use crate::table::Table;
use std::alloc::{AllocError, Global};
use symbol_pool::Symbols;
use term_model::{Flat, Item};

/// Terms as far as they are shared: symbols and records in order, and a stack with the records of
/// the trees that no later item has taken.
#[derive(Drop)]
pub(crate) struct Growing {
    pub(crate) symbols: Numbering,
    pub(crate) table: Table,
    pub(crate) stack: Vec<u32>,
}

/// The number of a record, which becomes the last of at most `rows` where it is none of them. After
/// an error the table is as before.
pub fn number_of(table: &mut Table, entry: Record, rows: u32) -> Result<u32, ShareFault>
    requires before { All (λ i. i < length table.old) entry.arguments.items }
    requires few { length table.old ≤ rows }
    ensures placed { IfOk result (IsPlaced table.old table.new (view entry)) }
    ensures few { OnOk result (length table.new ≤ rows) }
    ensures unchanged { OnErr result (table.new ≡ table.old) }
    ensures full_only_where { result ≡ Err StoreFull → length table.old ≡ rows }
    ensures full_for_new { result ≡ Err StoreFull
        → right.is_new_record table.old (view entry) ≡ true }
{
    if let Some(number) = table.find(&entry) {
        return Ok(number as u32);
    }
    let number = table.len();
    if number == rows as usize {
        return Err(ShareFault::StoreFull);
    }
    match table.push(entry) {
        Ok(()) => Ok(number as u32),
        Err(_) => Err(ShareFault::Memory),
    }
}

/// Takes the last `count` numbers from the stack.
fn take_last(alloc: Global, stack: &mut Vec<u32>, count: usize) -> Result<Vec<u32>, AllocError>
    requires { count ≤ length stack.old.items }
    ensures { IfOk result (λ taken. IsCutInto stack.old.items stack.new.items taken.items count) }
{
    let from = stack.len() - count;
    let taken = stack[from..].to_vec(alloc)?;
    stack.truncate(from);
    Ok(taken)
}

impl Growing {
    ghost use Rattle.term_file.specs.Growing.{contents_so_far};

    /// No terms. It takes no memory.
    pub(crate) fn new(alloc: Global) -> Self
        ensures { contents_so_far result ≡ nothing }
    {
        Growing {
            symbols: Numbering::new(alloc),
            table: Table::new(alloc),
            stack: Vec::new(alloc),
        }
    }

    /// Shares the tree of an item over the last trees.
    fn take(
        &mut self,
        alloc: Global,
        names: &Symbols,
        item: Item,
        rows: u32,
    ) -> Result<(), ShareFault>
        requires pool { IsPool names.now }
        requires few { length self.old.table ≤ rows }
        requires writable { is_writable_item names.now item ≡ true }
        requires next { ComesOn names.now item (contents_so_far self.old) }
        ensures taken { OnOk result
            (Takes names.now item (contents_so_far self.old) (contents_so_far self.new)) }
        ensures few { OnOk result (length self.new.table ≤ rows) }
        ensures full_only_where { result ≡ Err StoreFull
            → TakesTooMany names.now item (contents_so_far self.old) rows }
    {
        let kind = self.symbols.kind_of(names, item)?;
        let arguments = take_last(alloc, &mut self.stack, item.arity() as usize)?;
        let number = number_of(&mut self.table, Record { kind, arguments }, rows)?;
        self.stack.push(number)?;
        Ok(())
    }

    /// Shares a term behind the others.
    pub(crate) fn take_term(
        &mut self,
        alloc: Global,
        names: &Symbols,
        term: &Flat,
        rows: u32,
    ) -> Result<(), ShareFault>
        requires pool { IsPool names.now }
        requires few { length self.old.table ≤ rows }
        requires writable { IsWritable names.now term.now }
        requires trees { HasTrees names.now (contents_so_far self.old) }
        ensures taken { OnOk result
            (TakesTree names.now term.now (contents_so_far self.old) (contents_so_far self.new)) }
        ensures few { OnOk result (length self.new.table ≤ rows) }
        ensures full_only_where { result ≡ Err StoreFull
            → TreeIsTooMany names.now term.now (contents_so_far self.old) rows }
    {
        for item in term.items() {
            self.take(alloc, names, *item, rows)?;
        }
        Ok(())
    }
}
