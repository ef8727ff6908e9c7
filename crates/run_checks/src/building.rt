//! Putting the instance of a pattern into a table of terms.

ghost use Rattle.std.specs.Prelude.{◌<◌, ◌≤◌, length, map, All, IfOk, OnOk};
ghost use Rattle.rewrite_model.specs.Matching.{instance};
ghost use Rattle.run_checks.specs.Held.{IsPut, IsThere, term_at};
ghost use Rattle.run_checks.specs.Instances.{MayBePut, ComesOn, Comes, PutsOver};
ghost use Rattle.term_file.specs.Sharing.{IsCutInto};

use crate::table::TermTable;
use faults::Memory;
use std::alloc::{AllocError, Global};
use term_model::{Flat, Item, Symbol};

/// Puts a pattern with terms in place of its variables. It takes time linear in the pattern.
pub(crate) fn put_instance(
    alloc: Global,
    table: &mut TermTable,
    pattern: &Flat,
    bound: &[u32],
) -> Result<u32, Memory>
    requires may { MayBePut table.old.symbols (length bound.now) pattern.now }
    requires there { All (IsThere table.old) bound.now }
    ensures { IfOk result (λ n. IsPut table.old table.new n
        (instance pattern.now (map (term_at table.old) bound.now))) }
{
    let mut stack = Vec::new(alloc);
    for item in pattern.items() {
        put_item(alloc, table, bound, *item, &mut stack)?;
    }
    let Some(number) = stack.pop() else {
        unreachable!()
    };
    Ok(number)
}

/// Puts the tree of an item over the last terms of a stack in their place.
fn put_item(
    alloc: Global,
    table: &mut TermTable,
    bound: &[u32],
    item: Item,
    stack: &mut Vec<u32>,
) -> Result<(), Memory>
    requires comes { ComesOn table.old bound.now item stack.old.items }
    ensures { OnOk result
        (Comes table.old table.new bound.now item stack.old.items stack.new.items) }
{
    match item {
        Item::Var(variable) => {
            stack.push(bound[variable as usize])?;
            Ok(())
        }
        Item::App(symbol, count) => {
            put_symbol(alloc, table, symbol, count, stack)?;
            Ok(())
        }
        _ => unreachable!(),
    }
}

/// Puts a symbol over the last terms of a stack in their place.
fn put_symbol(
    alloc: Global,
    table: &mut TermTable,
    symbol: Symbol,
    count: u32,
    stack: &mut Vec<u32>,
) -> Result<(), Memory>
    requires symbol { symbol.0 < length table.old.symbols }
    requires enough { count ≤ length stack.old.items }
    requires there { All (IsThere table.old) stack.old.items }
    ensures { OnOk result
        (PutsOver table.old table.new symbol count stack.old.items stack.new.items) }
{
    let arguments = take_last(alloc, stack, count as usize)?;
    let number = table.put(symbol, arguments)?;
    stack.push(number)?;
    Ok(())
}

/// Takes the last `count` numbers from a stack.
fn take_last(alloc: Global, stack: &mut Vec<u32>, count: usize) -> Result<Vec<u32>, AllocError>
    requires { count ≤ length stack.old.items }
    ensures { IfOk result (λ taken. IsCutInto stack.old.items stack.new.items taken.items count) }
{
    let from = stack.len() - count;
    let taken = stack[from..].to_vec(alloc)?;
    stack.truncate(from);
    Ok(taken)
}
