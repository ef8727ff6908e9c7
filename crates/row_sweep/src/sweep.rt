//! What a collection is about, and what it answers.
ghost use Rattle.std.specs.Prelude.{◌+◌, ◌≤◌, ◌^◌};
ghost use Rattle.store_model.specs.Invariant.{span};
ghost use Rattle.store_model.specs.NewStore.{MaySize};
ghost use Rattle.node_rows.specs.Belonging.{IsOpen};
ghost use Rattle.row_sweep.specs.Loaded.{FitsRows};

use node_rows::Store;

/// How many rows a collection kept, and how many buckets are in use after it.
#[derive(Clone, Copy, Debug, PartialEq, Eq)]
pub struct Kept {
    pub live: u32,
    pub buckets: u32,
}

/// The store's numbers leave no room for another epoch.
#[derive(Clone, Copy, Debug, PartialEq, Eq)]
pub struct Worn;

/// A collection that has loaded the base, the claim and the free count of its store, and isn't
/// worn.
#[derive(Drop)]
pub(crate) struct Sweep<'a> {
    pub(crate) store: &'a Store,
    pub(crate) base: u64,
    pub(crate) claim: u64,
    pub(crate) count: u64,
    ghost at: { IsOpen store.now },
    ghost room: { base + claim + 1 + span store.now.sizes ≤ 2 ^ 62 },
    ghost few: { count ≤ store.now.sizes.rows },
    ghost may: { MaySize store.now.sizes },
    ghost fits: { FitsRows store.now.table.shared.key },
}
