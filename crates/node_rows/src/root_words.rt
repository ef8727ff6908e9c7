//! Where the words of a pass's protected rows stand.
ghost use Rattle.std.specs.Prelude.{◌≡◌, ◌<◌, ◌^◌, ◌+◌, ◌*◌, true};
ghost use Rattle.store_model.specs.declared.view.Place.TheVariants.{RootCount, Root};
ghost use Rattle.store_model.specs.Machine.{widest};
ghost use Rattle.store_model.specs.Shown.{index_of, in_table, total};

use crate::places::row_width;
use store_model::Sizes;

// Where the words of the first pass begin.
fn first_root_word(sizes: &Sizes) -> usize
    requires { total sizes.now < 2 ^ 62 }
    ensures { result ≡ 1 + 2 * sizes.now.seats + 4 + sizes.now.rows + sizes.now.buckets
        + sizes.now.rows * (widest sizes.now + 4) }
{
    1 + 2 * sizes.seats as usize
        + 4
        + sizes.rows as usize
        + sizes.buckets as usize
        + sizes.rows as usize * (row_width(sizes) + 4)
}

/// The number of protected rows of a pass.
pub fn root_count_word(sizes: &Sizes, seat: u32) -> usize
    requires { (total sizes.now < 2 ^ 62) × (seat < sizes.now.seats) }
    ensures word { result ≡ index_of sizes.now (RootCount seat) }
    ensures there { in_table sizes.now (RootCount seat) ≡ true }
    ensures room { result + sizes.now.depth < 2 ^ 62 }
{
    first_root_word(sizes) + seat as usize * (sizes.depth as usize + 1)
}

/// The k-th protected row of a pass.
pub fn root_word(sizes: &Sizes, seat: u32, k: u64) -> usize
    requires { (total sizes.now < 2 ^ 62) × (seat < sizes.now.seats) × (k < sizes.now.depth) }
    ensures word { result ≡ index_of sizes.now (Root seat k) }
    ensures there { in_table sizes.now (Root seat k) ≡ true }
{
    root_count_word(sizes, seat) + k as usize + 1
}
