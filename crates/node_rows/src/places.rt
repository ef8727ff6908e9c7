//! Where the words of a store stand in its table.
ghost use Rattle.std.specs.Prelude.{◌≡◌, ◌<◌, ◌^◌, ◌+◌, ◌*◌, true};
ghost use Rattle.store_model.specs.declared.view.Place.TheVariants.{Base, FreeCount, Claim, InUse, FreePlace, Bucket, RowWord, Birth, Next};
ghost use Rattle.store_model.specs.Machine.{widest};
ghost use Rattle.store_model.specs.Shown.{index_of, in_table, total};

use crate::store::Store;
use store_model::Sizes;

fn first_word(sizes: &Sizes) -> usize
    ensures word { result ≡ 1 + 2 * sizes.now.seats }
{
    1 + 2 * sizes.seats as usize
}

/// The word of the base.
pub fn base_word(sizes: &Sizes) -> usize
    requires { total sizes.now < 2 ^ 62 }
    ensures word { result ≡ index_of sizes.now Base }
{
    first_word(sizes)
}

/// The word of the free count.
pub fn free_count_word(sizes: &Sizes) -> usize
    requires { total sizes.now < 2 ^ 62 }
    ensures word { result ≡ index_of sizes.now FreeCount }
{
    first_word(sizes) + 1
}

/// The word of the claim.
pub fn claim_word(sizes: &Sizes) -> usize
    requires { total sizes.now < 2 ^ 62 }
    ensures word { result ≡ index_of sizes.now Claim }
{
    first_word(sizes) + 2
}

/// The word of the number of buckets in use.
pub fn in_use_word(sizes: &Sizes) -> usize
    requires { total sizes.now < 2 ^ 62 }
    ensures word { result ≡ index_of sizes.now InUse }
{
    first_word(sizes) + 3
}

/// The i-th free place.
pub fn free_place_word(sizes: &Sizes, i: u64) -> usize
    requires { (total sizes.now < 2 ^ 62) × (i < sizes.now.rows) }
    ensures word { result ≡ index_of sizes.now (FreePlace i) }
    ensures there { in_table sizes.now (FreePlace i) ≡ true }
{
    first_word(sizes) + 4 + i as usize
}

/// The head of a bucket's chain.
pub fn bucket_word(sizes: &Sizes, b: u64) -> usize
    requires { (total sizes.now < 2 ^ 62) × (b < sizes.now.buckets) }
    ensures word { result ≡ index_of sizes.now (Bucket b) }
    ensures there { in_table sizes.now (Bucket b) ≡ true }
{
    first_word(sizes) + 4 + sizes.rows as usize + b as usize
}

// How many arguments a row has room for.
pub(crate) fn row_width(sizes: &Sizes) -> usize
    ensures { result ≡ widest sizes.now }
{
    if sizes.arity < 2 {
        2
    } else {
        sizes.arity as usize
    }
}

// The word where the rows begin.
pub(crate) fn first_row(sizes: &Sizes) -> usize
    requires { total sizes.now < 2 ^ 62 }
    ensures { result ≡ 1 + 2 * sizes.now.seats + 4 + sizes.now.rows + sizes.now.buckets }
{
    first_word(sizes) + 4 + sizes.rows as usize + sizes.buckets as usize
}

// How many words a row has.
pub(crate) fn row_size(sizes: &Sizes) -> usize
    ensures { result ≡ widest sizes.now + 4 }
{
    if sizes.arity < 2 {
        6
    } else {
        sizes.arity as usize + 4
    }
}

// Where a row begins.
fn row_start(sizes: &Sizes, row: u64) -> usize
    requires { (total sizes.now < 2 ^ 62) × (row < sizes.now.rows) }
    ensures word { result ≡ 1 + 2 * sizes.now.seats + 4 + sizes.now.rows + sizes.now.buckets
        + row * (widest sizes.now + 4) }
    ensures room { result + widest sizes.now + 4 < 2 ^ 62 }
{
    first_word(sizes)
        + 4
        + sizes.rows as usize
        + sizes.buckets as usize
        + row as usize * (row_width(sizes) + 4)
}

/// The k-th word of a row: its symbol word, its count of arguments, and then the arguments.
pub fn row_word(sizes: &Sizes, row: u64, k: usize) -> usize
    requires { (total sizes.now < 2 ^ 62) × (row < sizes.now.rows) × (k < widest sizes.now + 2) }
    ensures word { result ≡ index_of sizes.now (RowWord row k) }
    ensures there { in_table sizes.now (RowWord row k) ≡ true }
{
    row_start(sizes, row) + k
}

/// The same word of a row, by what the store has worked out once.
#[inline]
pub fn word_in(store: &Store, row: u64, k: usize) -> usize
    requires { (total store.now.sizes < 2 ^ 62) × (row < store.now.sizes.rows)
        × (k < widest store.now.sizes + 2) }
    ensures word { result ≡ index_of store.now.sizes (RowWord row k) }
    ensures there { in_table store.now.sizes (RowWord row k) ≡ true }
{
    store.first_row + row as usize * store.row_size + k
}

/// The birth number of a row.
pub fn birth_word(sizes: &Sizes, row: u64) -> usize
    requires { (total sizes.now < 2 ^ 62) × (row < sizes.now.rows) }
    ensures word { result ≡ index_of sizes.now (Birth row) }
    ensures there { in_table sizes.now (Birth row) ≡ true }
{
    row_start(sizes, row) + row_width(sizes) + 2
}

/// The word after a row in its chain.
pub fn next_word(sizes: &Sizes, row: u64) -> usize
    requires { (total sizes.now < 2 ^ 62) × (row < sizes.now.rows) }
    ensures word { result ≡ index_of sizes.now (Next row) }
    ensures there { in_table sizes.now (Next row) ≡ true }
{
    row_start(sizes, row) + row_width(sizes) + 3
}
