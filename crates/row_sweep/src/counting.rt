//! How many rows are kept, and how many buckets are in use then.
ghost use Rattle.std.specs.Prelude.{◌≡◌, ◌<◌, ◌≤◌, if◌then◌else◌, false, length, get_or};
ghost use Rattle.store_model.specs.Steps.{grown_use};
ghost use Rattle.row_sweep.specs.Marked.{marked_below};

use mark_phase::Marks;
use store_model::Sizes;
use term_model::Row;

// 1 where the row is marked.
fn one_if_marked(marks: &Marks, row: u32) -> u32
    requires { row < length marks.now }
    ensures one { result ≡ (if get_or marks.now row false then 1 else 0) }
    ensures small { result ≤ 1 }
{
    if marks.has(Row(row)) { 1 } else { 0 }
}

/// How many of the rows are marked.
pub(crate) fn count_marked(marks: &Marks, rows: u32) -> u32
    requires { length marks.now ≡ rows }
    ensures count { result ≡ marked_below marks.now rows }
    ensures few { result ≤ rows }
{
    let mut count = 0;
    for row in 0..rows {
        count += one_if_marked(marks, row);
    }
    count
}

/// The buckets in use after a collection that keeps so many rows: twice as many, up to all, where
/// twice the rows exceed them.
pub(crate) fn buckets_after(sizes: &Sizes, in_use: u32, live: u32) -> u32
    requires used { (0 < in_use) × (in_use ≤ sizes.now.buckets) }
    ensures grown { result ≡ grown_use sizes.now in_use live }
    ensures used { (in_use ≤ result) × (result ≤ sizes.now.buckets) }
{
    if u64::from(in_use) < 2 * u64::from(live) {
        u64::from(sizes.buckets).min(2 * u64::from(in_use)) as u32
    } else {
        in_use
    }
}
