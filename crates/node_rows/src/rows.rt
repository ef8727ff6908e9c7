//! Rows by their numbers in words.
ghost use Rattle.std.specs.Prelude.{◌≡◌, ◌<◌};

use store_model::Sizes;
use term_model::Row;

/// The row of this number, which is below the number of rows.
#[inline(always)]
pub fn row_of(sizes: &Sizes, number: u64) -> Row
    requires { number < sizes.now.rows }
    ensures { result.0 ≡ number }
{
    prove!(number < u64::from(sizes.rows));
    Row(number as u32)
}
