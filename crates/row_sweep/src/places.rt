//! Where the words of a row stand, by where its first one does.
ghost use Rattle.std.specs.Prelude.{◌≡◌, ◌<◌, ◌+◌, ◌^◌, true};
ghost use Rattle.store_model.specs.declared.view.Place.TheVariants.{RowWord, Birth, Next};
ghost use Rattle.store_model.specs.Machine.{widest};
ghost use Rattle.store_model.specs.Shown.{index_of, in_table, total};

use node_rows::{Store, word_in};

/// Word k of a row, whose first word stands at `first`. The store and the row are there for the
/// contract alone.
#[inline(always)]
pub(crate) fn word_from(_store: &Store, _row: u32, first: usize, k: u32) -> usize
    requires store { total _store.now.sizes < 2 ^ 62 }
    requires row { _row < _store.now.sizes.rows }
    requires within { k < widest _store.now.sizes + 2 }
    requires first { first ≡ index_of _store.now.sizes (RowWord _row 0) }
    ensures word { result ≡ index_of _store.now.sizes (RowWord _row k) }
    ensures there { in_table _store.now.sizes (RowWord _row k) ≡ true }
{
    first + k as usize
}

/// The birth number of a row, whose first word stands at `first`.
#[inline(always)]
pub(crate) fn birth_from(store: &Store, _row: u32, first: usize) -> usize
    requires store { total store.now.sizes < 2 ^ 62 }
    requires row { _row < store.now.sizes.rows }
    requires first { first ≡ index_of store.now.sizes (RowWord _row 0) }
    ensures word { result ≡ index_of store.now.sizes (Birth _row) }
    ensures there { in_table store.now.sizes (Birth _row) ≡ true }
{
    first + store.row_size - 2
}

/// The word after a row in its chain, whose first word stands at `first`.
#[inline(always)]
pub(crate) fn next_from(store: &Store, _row: u32, first: usize) -> usize
    requires store { total store.now.sizes < 2 ^ 62 }
    requires row { _row < store.now.sizes.rows }
    requires first { first ≡ index_of store.now.sizes (RowWord _row 0) }
    ensures word { result ≡ index_of store.now.sizes (Next _row) }
    ensures there { in_table store.now.sizes (Next _row) ≡ true }
{
    first + store.row_size - 1
}

/// The word after a row in its chain.
#[inline]
pub(crate) fn next_place(store: &Store, row: u64) -> usize
    requires { (total store.now.sizes < 2 ^ 62) × (row < store.now.sizes.rows) }
    ensures word { result ≡ index_of store.now.sizes (Next row) }
    ensures there { in_table store.now.sizes (Next row) ≡ true }
{
    word_in(store, row, 0) + store.row_size - 1
}
