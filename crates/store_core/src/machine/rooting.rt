//! What a seat knows after a store of its protected rows.
ghost use Rattle.std.specs.Prelude.{◌≡◌, ◌≤◌, ◌++◌, IfOk, OnOk, length, drop};
ghost use Rattle.store_model.specs.Machine as machine;
ghost use Rattle.store_model.specs.Machine.{protected_in};

use crate::machine::rows::{list_of, rows_of};
use faults::Memory;
use std::collections::LinkedList;
use store_model::View;

/// Another row is stored as a protected one: the row before it was protected in this epoch.
pub(crate) fn root(view: &mut View, k: u32, row: u32) -> Result<(), Memory>
    ensures { OnOk result (view.new ≡ machine.rooted view.old k row) }
{
    let mut rows = rows_of(&view.roots)?;
    root_among(view, rows.as_mut_slice(), k, row)
}

// The same, by the rows of the view.
fn root_among(view: &mut View, rows: &mut [u32], k: u32, row: u32) -> Result<(), Memory>
    requires { rows.old ≡ view.old.roots }
    ensures { OnOk result (view.new ≡ machine.rooted view.old k row) }
{
    if k as usize >= rows.len() {
        return Err(Memory);
    }
    if k < view.root_count {
        view.got.push_front(rows[k as usize])?;
    }
    rows[k as usize] = row;
    view.roots = list_of(*view.got.allocator(), rows)?;
    Ok(())
}

/// The protected rows of a seat.
pub(crate) fn protected_rows(view: &View) -> Result<Vec<u32>, Memory>
    ensures { IfOk result (λ rows. rows.items ≡ protected_in view.now) }
{
    let mut rows = rows_of(&view.roots)?;
    rows.truncate(view.root_count as usize);
    Ok(rows)
}

/// So many rows are protected, and those past them were.
pub(crate) fn count_roots(view: &mut View, count: u32) -> Result<(), Memory>
    ensures { OnOk result (view.new ≡ machine.root_counted view.old count) }
{
    let rows = protected_rows(view)?;
    put_dropped(&mut view.got, rows.as_slice(), count as usize)?;
    view.root_count = count;
    Ok(())
}

// Puts the rows from the n-th on before those of the list.
fn put_dropped(list: &mut LinkedList<u32>, rows: &[u32], n: usize) -> Result<(), Memory>
    ensures { OnOk result (list.new ≡ drop n rows.now ++ list.old) }
{
    if n > rows.len() {
        return Ok(());
    }
    put_rows(list, rows, n)
}

// The same, where there are so many.
fn put_rows(list: &mut LinkedList<u32>, rows: &[u32], n: usize) -> Result<(), Memory>
    requires { n ≤ length rows.now }
    ensures { OnOk result (list.new ≡ drop n rows.now ++ list.old) }
{
    let mut at = rows.len();
    while at > n {
        at -= 1;
        list.push_front(rows[at])?;
    }
    Ok(())
}
