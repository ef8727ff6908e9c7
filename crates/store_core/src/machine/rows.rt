//! Lists of rows as vectors, and back.
ghost use Rattle.std.specs.Prelude.{◌≡◌, IfOk};

use faults::Memory;
use std::alloc::Global;
use std::collections::LinkedList;
use store_model::Place;

/// The rows of a list.
pub(crate) fn rows_of(list: &LinkedList<u32>) -> Result<Vec<u32>, Memory>
    ensures { IfOk result (λ rows. rows.items ≡ list.now) }
{
    let mut rows = Vec::new(*list.allocator());
    for row in list {
        rows.push(*row)?;
    }
    Ok(rows)
}

/// A list of rows.
pub(crate) fn list_of(alloc: Global, rows: &[u32]) -> Result<LinkedList<u32>, Memory>
    ensures { IfOk result (λ list. list ≡ rows.now) }
{
    let mut list = LinkedList::new(alloc);
    for row in rows.iter() {
        list.push_back(*row)?;
    }
    Ok(list)
}

/// The loaded or stored words of a list.
pub(crate) fn words_in(list: &LinkedList<(Place, u64)>) -> Result<Vec<(Place, u64)>, Memory>
    ensures { IfOk result (λ words. words.items ≡ list.now) }
{
    let mut words = Vec::new(*list.allocator());
    for word in list {
        words.push(*word)?;
    }
    Ok(words)
}
