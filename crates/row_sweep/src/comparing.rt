//! Which words the stores of a collection change: noted in plain memory before it stores any.
ghost use Rattle.std.specs.Prelude.{◌≡◌, ◌≢◌, ◌<◌, ◌≤◌, ◌+◌, ℕ, false, length, get_or, if◌then◌else◌};
ghost use Rattle.store_model.specs.declared.view.Place.TheVariants.{FreePlace, Bucket, Next};
ghost use Rattle.store_model.specs.Marks.{IsMarked};
ghost use Rattle.row_sweep.specs.Gathered.{sizes_of, words_of, HasGathered, LoadsAgain, StaysSeat};
ghost use Rattle.row_sweep.specs.Collected.{IsWorkedOut};
ghost use Rattle.row_sweep.specs.Compared.{told_by, Notes, IsCompared};

use crate::reading::{head_of, next_of, place_of};
use crate::sweep::{Kept, Sweep};
use crate::turns::{Order, order_for, row_in_turn};
use busy_forbidden::Seat;
use mark_phase::Marks;
use node_rows::NodeRows;
use term_model::Row;

/// It stands where a new word would, of a word that stays as it is. No new word is as large.
pub(crate) const UNCHANGED: u32 = u32::MAX;

// Notes in a cell with a new word whether the word stays as it is.
fn note(cells: &mut [u32], i: u32, old: u64)
    requires there { i < length cells.old }
    requires small { get_or cells.old i 0 < 4294967295 }
    ensures tells { told_by old (get_or cells.new i 0) ≡ get_or cells.old i 0 }
    ensures others { (j : ℕ) → j ≢ i → get_or cells.new j 0 ≡ get_or cells.old j 0 }
    ensures size { length cells.new ≡ length cells.old }
{
    if old == u64::from(cells[i as usize]) {
        cells[i as usize] = UNCHANGED;
    }
}

// Notes whether the next word of a row that is marked stays as it is.
fn compare_next(sweep: &Sweep<'_>, seat: &mut Seat<NodeRows>, cells: &mut [u32], row: u32)
    requires at { HasGathered sweep.now seat.old.seat seat.old.number seat.old.seats }
    requires row { row < (sizes_of sweep.now).rows }
    requires cells { length cells.old ≡ (sizes_of sweep.now).rows }
    requires small { get_or cells.old row 0 < 4294967295 }
    ensures at { HasGathered sweep.now seat.new.seat seat.new.number seat.new.seats }
    ensures again { LoadsAgain sweep.now seat.old.seat seat.old.number seat.old.seats seat.new.seat
        seat.new.number seat.new.seats }
    ensures tells { told_by (words_of seat.old.seat (Next row)) (get_or cells.new row 0)
        ≡ get_or cells.old row 0 }
    ensures others { (r : ℕ) → r ≢ row → get_or cells.new r 0 ≡ get_or cells.old r 0 }
    ensures size { length cells.new ≡ length cells.old }
{
    let old = next_of(sweep, seat, row);
    note(cells, row, old);
}

// The cell of a row that isn't marked, and comes to free place i: whether the place stays as it is.
fn place_cell(sweep: &Sweep<'_>, seat: &mut Seat<NodeRows>, row: u32, i: u32) -> u32
    requires at { HasGathered sweep.now seat.old.seat seat.old.number seat.old.seats }
    ensures at { HasGathered sweep.now seat.new.seat seat.new.number seat.new.seats }
    ensures again { LoadsAgain sweep.now seat.old.seat seat.old.number seat.old.seats seat.new.seat
        seat.new.number seat.new.seats }
    ensures holds { result ≡ 4294967295 → (i < sweep.now.count)
        × (words_of seat.old.seat (FreePlace i) ≡ row) }
{
    if u64::from(i) >= sweep.count {
        return 0;
    }
    if place_of(sweep, seat, i) == u64::from(row) {
        UNCHANGED
    } else {
        0
    }
}

// Notes whether free place i, which a row that isn't marked comes to, stays as it is.
fn compare_place(sweep: &Sweep<'_>, seat: &mut Seat<NodeRows>, cells: &mut [u32], row: u32, i: u32)
    requires at { HasGathered sweep.now seat.old.seat seat.old.number seat.old.seats }
    requires row { row < length cells.old }
    ensures at { HasGathered sweep.now seat.new.seat seat.new.number seat.new.seats }
    ensures again { LoadsAgain sweep.now seat.old.seat seat.old.number seat.old.seats seat.new.seat
        seat.new.number seat.new.seats }
    ensures holds { get_or cells.new row 0 ≡ 4294967295 → (i < sweep.now.count)
        × (words_of seat.old.seat (FreePlace i) ≡ row) }
    ensures others { (r : ℕ) → r ≢ row → get_or cells.new r 0 ≡ get_or cells.old r 0 }
    ensures size { length cells.new ≡ length cells.old }
{
    let cell = place_cell(sweep, seat, row, i);
    cells[row as usize] = cell;
}

// Notes of a row whether its next word, or the free place that it comes to, stays as it is: how
// many rows so far aren't marked.
fn compare_row(
    sweep: &Sweep<'_>,
    seat: &mut Seat<NodeRows>,
    marks: &Marks,
    cells: &mut [u32],
    row: u32,
    free: u32,
) -> u32
    requires at { HasGathered sweep.now seat.old.seat seat.old.number seat.old.seats }
    requires marks { length marks.now ≡ (sizes_of sweep.now).rows }
    requires cells { length cells.old ≡ (sizes_of sweep.now).rows }
    requires row { row < (sizes_of sweep.now).rows }
    requires small { IsMarked marks.now row → get_or cells.old row 0 < 4294967295 }
    requires few { free < (sizes_of sweep.now).rows }
    ensures at { HasGathered sweep.now seat.new.seat seat.new.number seat.new.seats }
    ensures again { LoadsAgain sweep.now seat.old.seat seat.old.number seat.old.seats seat.new.seat
        seat.new.number seat.new.seats }
    ensures next { IsMarked marks.now row → told_by (words_of seat.old.seat (Next row))
        (get_or cells.new row 0) ≡ get_or cells.old row 0 }
    ensures place { get_or marks.now row false ≡ false → get_or cells.new row 0 ≡ 4294967295
        → (free < sweep.now.count) × (words_of seat.old.seat (FreePlace free) ≡ row) }
    ensures free { result ≡ free + (if get_or marks.now row false then 0 else 1) }
    ensures few { result ≤ free + 1 }
    ensures others { (r : ℕ) → r ≢ row → get_or cells.new r 0 ≡ get_or cells.old r 0 }
    ensures size { length cells.new ≡ length cells.old }
{
    if marks.has(Row(row)) {
        compare_next(sweep, seat, cells, row);
        return free;
    }
    compare_place(sweep, seat, cells, row, free);
    free + 1
}

// Notes of all rows, in an order, which next words and free places stay as they are.
fn compare_rows(
    sweep: &Sweep<'_>,
    seat: &mut Seat<NodeRows>,
    marks: &Marks,
    cells: &mut [u32],
    order: Order,
)
    requires at { HasGathered sweep.now seat.old.seat seat.old.number seat.old.seats }
    requires marks { length marks.now ≡ (sizes_of sweep.now).rows }
    requires cells { length cells.old ≡ (sizes_of sweep.now).rows }
    requires small { (r : ℕ) → IsMarked marks.now r → get_or cells.old r 0 < 4294967295 }
    ensures at { HasGathered sweep.now seat.new.seat seat.new.number seat.new.seats }
    ensures again { LoadsAgain sweep.now seat.old.seat seat.old.number seat.old.seats seat.new.seat
        seat.new.number seat.new.seats }
    ensures notes { Notes (words_of seat.old.seat) sweep.now.count marks.now cells.old cells.new
        (sizes_of sweep.now) order (sizes_of sweep.now).rows }
    ensures size { length cells.new ≡ length cells.old }
{
    let mut free = 0;
    for turn in 0..sweep.store.sizes.rows {
        let row = row_in_turn(sweep, order, turn);
        free = compare_row(sweep, seat, marks, cells, row, free);
    }
}

// Notes whether the head of a bucket stays as it is.
fn compare_head(sweep: &Sweep<'_>, seat: &mut Seat<NodeRows>, heads: &mut [u32], b: u32)
    requires at { HasGathered sweep.now seat.old.seat seat.old.number seat.old.seats }
    requires bucket { b < (sizes_of sweep.now).buckets }
    requires heads { length heads.old ≡ (sizes_of sweep.now).buckets }
    requires small { get_or heads.old b 0 < 4294967295 }
    ensures at { HasGathered sweep.now seat.new.seat seat.new.number seat.new.seats }
    ensures again { LoadsAgain sweep.now seat.old.seat seat.old.number seat.old.seats seat.new.seat
        seat.new.number seat.new.seats }
    ensures tells { told_by (words_of seat.old.seat (Bucket b)) (get_or heads.new b 0)
        ≡ get_or heads.old b 0 }
    ensures others { (d : ℕ) → d ≢ b → get_or heads.new d 0 ≡ get_or heads.old d 0 }
    ensures size { length heads.new ≡ length heads.old }
{
    let old = head_of(sweep, seat, b);
    note(heads, b, old);
}

// Notes which heads of so many buckets stay as they are.
fn compare_heads(sweep: &Sweep<'_>, seat: &mut Seat<NodeRows>, heads: &mut [u32], in_use: u32)
    requires at { HasGathered sweep.now seat.old.seat seat.old.number seat.old.seats }
    requires within { in_use ≤ (sizes_of sweep.now).buckets }
    requires heads { length heads.old ≡ (sizes_of sweep.now).buckets }
    requires small { (b : ℕ) → b < in_use → get_or heads.old b 0 < 4294967295 }
    ensures at { HasGathered sweep.now seat.new.seat seat.new.number seat.new.seats }
    ensures again { LoadsAgain sweep.now seat.old.seat seat.old.number seat.old.seats seat.new.seat
        seat.new.number seat.new.seats }
    ensures tells { (b : ℕ) → b < in_use → told_by (words_of seat.old.seat (Bucket b))
        (get_or heads.new b 0) ≡ get_or heads.old b 0 }
    ensures size { length heads.new ≡ length heads.old }
{
    for b in 0..in_use {
        compare_head(sweep, seat, heads, b);
    }
}

/// Notes which of the words that were worked out stay as they are.
pub(crate) fn compare_all(
    sweep: &Sweep<'_>,
    seat: &mut Seat<NodeRows>,
    marks: &Marks,
    nexts: &mut [u32],
    heads: &mut [u32],
    kept: Kept,
)
    requires out { IsWorkedOut sweep.now seat.old.seat seat.old.number seat.old.seats marks.now
        nexts.old heads.old kept.live kept.buckets }
    requires nexts { length nexts.old ≡ (sizes_of sweep.now).rows }
    requires heads { length heads.old ≡ (sizes_of sweep.now).buckets }
    ensures stays { StaysSeat seat.old.seat seat.old.number seat.old.seats seat.new.seat
        seat.new.number seat.new.seats }
    ensures compared { IsCompared sweep.now seat.new.seat seat.new.number seat.new.seats marks.now
        nexts.new heads.new kept.live kept.buckets }
    ensures lengths { (length nexts.new ≡ length nexts.old)
        × (length heads.new ≡ length heads.old) }
{
    let order = order_for(&sweep.store.sizes, kept.live);
    compare_rows(sweep, seat, marks, nexts, order);
    compare_heads(sweep, seat, heads, kept.buckets);
}
