//! What the seats of a new store know.
ghost use Rattle.std.specs.Prelude.{◌≡◌, IfOk, replicate};
ghost use Rattle.store_model.specs.Steps.{newcomer};

use faults::Memory;
use std::alloc::Global;
use std::collections::LinkedList;
use store_model::{Call, Sizes, Stay, View};

/// A view for each seat, which has done nothing.
pub(crate) fn new_views(alloc: Global, sizes: &Sizes) -> Result<Vec<View>, Memory>
    ensures { IfOk result (λ views. views.items ≡ replicate sizes.now.seats (newcomer sizes.now)) }
{
    let mut views = Vec::new(alloc);
    for _seat in 0..sizes.seats {
        views.push(newcomer(alloc, sizes)?)?;
    }
    Ok(views)
}

// A seat that has done nothing.
fn newcomer(alloc: Global, sizes: &Sizes) -> Result<View, Memory>
    ensures { IfOk result (λ view. view ≡ newcomer sizes.now) }
{
    Ok(View {
        call: Call::Idle,
        stay: Stay::Away,
        base: 0,
        in_use: 0,
        roots: no_roots(alloc, sizes.depth)?,
        root_count: 0,
        got: LinkedList::new(alloc),
        knows: LinkedList::new(alloc),
        seen: 0,
        overdraw: None,
        entries: LinkedList::new(alloc),
        fresh: false,
        passed: 0,
        path: LinkedList::new(alloc),
        refused: LinkedList::new(alloc),
    })
}

fn no_roots(alloc: Global, depth: u32) -> Result<LinkedList<u32>, Memory>
    ensures { IfOk result (λ roots. roots ≡ replicate depth 0) }
{
    let mut roots = LinkedList::new(alloc);
    for _k in 0..depth {
        roots.push_front(0)?;
    }
    Ok(roots)
}
