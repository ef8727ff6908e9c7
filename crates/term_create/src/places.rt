//! Where the words of a row stand that a walk reads, by what a creation has worked out once.
ghost use Rattle.std.specs.Prelude.{◌≡◌, ◌<◌, ◌+◌, ◌*◌, ◌^◌, true};
ghost use Rattle.store_model.specs.declared.view.Place.TheVariants.{RowWord, Birth, Next};
ghost use Rattle.store_model.specs.Machine.{widest};
ghost use Rattle.store_model.specs.Shown.{index_of, in_table};

use crate::asked::Asked;

// Where a row begins.
#[inline(always)]
fn row_start(asked: &Asked<'_>, row: u64) -> usize
    requires { row < asked.now.store.now.sizes.rows }
    ensures word { let z = asked.now.store.now.sizes in
        result ≡ 1 + 2 * z.seats + 4 + z.rows + z.buckets + row * (widest z + 4) }
    ensures room { result + widest asked.now.store.now.sizes + 4 < 2 ^ 62 }
{
    asked.first_row + row as usize * asked.row_size
}

/// The k-th word of a row: its symbol word, its count of arguments, and then the arguments.
#[inline(always)]
pub(crate) fn word_place(asked: &Asked<'_>, row: u64, k: usize) -> usize
    requires { (row < asked.now.store.now.sizes.rows) × (k < widest asked.now.store.now.sizes + 2) }
    ensures word { result ≡ index_of asked.now.store.now.sizes (RowWord row k) }
    ensures there { in_table asked.now.store.now.sizes (RowWord row k) ≡ true }
{
    row_start(asked, row) + k
}

/// The birth number of a row.
#[inline(always)]
pub(crate) fn birth_place(asked: &Asked<'_>, row: u64) -> usize
    requires { row < asked.now.store.now.sizes.rows }
    ensures word { result ≡ index_of asked.now.store.now.sizes (Birth row) }
    ensures there { in_table asked.now.store.now.sizes (Birth row) ≡ true }
{
    row_start(asked, row) + asked.row_size - 2
}

/// The word after a row in its chain.
#[inline(always)]
pub(crate) fn next_place(asked: &Asked<'_>, row: u64) -> usize
    requires { row < asked.now.store.now.sizes.rows }
    ensures word { result ≡ index_of asked.now.store.now.sizes (Next row) }
    ensures there { in_table asked.now.store.now.sizes (Next row) ≡ true }
{
    row_start(asked, row) + asked.row_size - 1
}
