//! A collection's stores: of chains, buckets, free places and numbers, where they change.
ghost use Rattle.std.specs.Prelude.{◌≡◌, ◌<◌, ◌≤◌, ◌+◌, ℕ, true, false, length, get_or, if◌then◌else◌};
ghost use Rattle.store_model.specs.declared.view.Place.{Place};
ghost use Rattle.store_model.specs.declared.view.Place.TheVariants.{FreePlace, Bucket, Next};
ghost use Rattle.store_model.specs.Marks.{IsMarked};
ghost use Rattle.store_model.specs.Shown.{in_table, index_of};
ghost use Rattle.store_model.specs.Steps.{is_stored, is_storing};
ghost use Rattle.store_model.specs.Words.{same_place, write};
ghost use Rattle.node_rows.specs.Collecting.{HasSeen};
ghost use Rattle.row_sweep.specs.Gathered.{sizes_of};
ghost use Rattle.row_sweep.specs.Compared.{told_by, place_for};
ghost use Rattle.row_sweep.specs.Turns.{row_in_turn};
ghost use Rattle.row_sweep.specs.Stored.{Stores, StoresMore, ArePlaced, seen_of, is_next, is_head, is_place};

use crate::comparing::UNCHANGED;
use crate::places::next_place;
use crate::sweep::Sweep;
use crate::turns::{Order, row_in_turn};
use busy_forbidden::Seat;
use mark_phase::Marks;
use node_rows::{NodeRows, bucket_word, free_place_word, store_any};
use store_model::Place;
use term_model::Row;

// Stores a word.
pub(crate) fn put(
    sweep: &Sweep<'_>,
    seat: &mut Seat<NodeRows>,
    word: usize,
    place: Place,
    value: u64,
)
    requires at { Stores sweep.now seat.old.seat seat.old.number seat.old.seats }
    requires there { in_table (sizes_of sweep.now) place ≡ true }
    requires stored { is_stored place ≡ true }
    requires word { word ≡ index_of (sizes_of sweep.now) place }
    ensures at { Stores sweep.now seat.new.seat seat.new.number seat.new.seats }
    ensures more { StoresMore seat.old.seat seat.old.number seat.old.seats seat.new.seat
        seat.new.number seat.new.seats }
    ensures storing { is_storing seat.new.seat.me.0.store.call ≡ true }
    ensures has { HasSeen seat.new.seat.me.0.store place }
    ensures words { seen_of seat.new.seat ≡ write (seen_of seat.old.seat) place value }
{
    store_any(&sweep.store.table, seat, word, place, value);
}

/// Stores a word whose value was seen, unless it stays.
pub(crate) fn put_over(
    sweep: &Sweep<'_>,
    seat: &mut Seat<NodeRows>,
    word: usize,
    place: Place,
    old: u64,
    value: u64,
)
    requires at { Stores sweep.now seat.old.seat seat.old.number seat.old.seats }
    requires there { in_table (sizes_of sweep.now) place ≡ true }
    requires stored { is_stored place ≡ true }
    requires word { word ≡ index_of (sizes_of sweep.now) place }
    requires seen { (seen_of seat.old.seat place ≡ old) × HasSeen seat.old.seat.me.0.store place }
    ensures at { Stores sweep.now seat.new.seat seat.new.number seat.new.seats }
    ensures more { StoresMore seat.old.seat seat.old.number seat.old.seats seat.new.seat
        seat.new.number seat.new.seats }
    ensures has { HasSeen seat.new.seat.me.0.store place }
    ensures words { seen_of seat.new.seat ≡ write (seen_of seat.old.seat) place value }
{
    if old == value {
        return;
    }
    put(sweep, seat, word, place, value);
}

// Stores a word, unless its cell says that it stays.
fn put_cell(sweep: &Sweep<'_>, seat: &mut Seat<NodeRows>, word: usize, place: Place, cell: u32)
    requires at { Stores sweep.now seat.old.seat seat.old.number seat.old.seats }
    requires there { in_table (sizes_of sweep.now) place ≡ true }
    requires stored { is_stored place ≡ true }
    requires word { word ≡ index_of (sizes_of sweep.now) place }
    ensures at { Stores sweep.now seat.new.seat seat.new.number seat.new.seats }
    ensures more { StoresMore seat.old.seat seat.old.number seat.old.seats seat.new.seat
        seat.new.number seat.new.seats }
    ensures words { seen_of seat.new.seat ≡ write (seen_of seat.old.seat) place
        (told_by (seen_of seat.old.seat place) cell) }
{
    if cell == UNCHANGED {
        return;
    }
    put(sweep, seat, word, place, u64::from(cell));
}

// Stores the next word of a row, unless its cell says that it stays.
fn put_next(sweep: &Sweep<'_>, seat: &mut Seat<NodeRows>, row: u32, cell: u32)
    requires at { Stores sweep.now seat.old.seat seat.old.number seat.old.seats }
    requires below { row < (sizes_of sweep.now).rows }
    ensures at { Stores sweep.now seat.new.seat seat.new.number seat.new.seats }
    ensures more { StoresMore seat.old.seat seat.old.number seat.old.seats seat.new.seat
        seat.new.number seat.new.seats }
    ensures words { seen_of seat.new.seat ≡ write (seen_of seat.old.seat) (Next row)
        (told_by (seen_of seat.old.seat (Next row)) cell) }
{
    let word = next_place(sweep.store, u64::from(row));
    put_cell(sweep, seat, word, Place::Next(row), cell);
}

// Stores the next word of a row that is marked, where it changes.
fn store_next(sweep: &Sweep<'_>, seat: &mut Seat<NodeRows>, marks: &Marks, nexts: &[u32], row: u32)
    requires at { Stores sweep.now seat.old.seat seat.old.number seat.old.seats }
    requires marks { length marks.now ≡ (sizes_of sweep.now).rows }
    requires nexts { length nexts.now ≡ (sizes_of sweep.now).rows }
    requires below { row < (sizes_of sweep.now).rows }
    ensures at { Stores sweep.now seat.new.seat seat.new.number seat.new.seats }
    ensures more { StoresMore seat.old.seat seat.old.number seat.old.seats seat.new.seat
        seat.new.number seat.new.seats }
    ensures next { IsMarked marks.now row → seen_of seat.new.seat (Next row)
        ≡ told_by (seen_of seat.old.seat (Next row)) (get_or nexts.now row 0) }
    ensures others { (p : Place) → same_place p (Next row) ≡ false → seen_of seat.new.seat p
        ≡ seen_of seat.old.seat p }
{
    if !marks.has(Row(row)) {
        return;
    }
    put_next(sweep, seat, row, nexts[row as usize]);
}

/// Stores the next words of the marked rows that change.
pub(crate) fn store_nexts(
    sweep: &Sweep<'_>,
    seat: &mut Seat<NodeRows>,
    marks: &Marks,
    nexts: &[u32],
)
    requires at { Stores sweep.now seat.old.seat seat.old.number seat.old.seats }
    requires marks { length marks.now ≡ (sizes_of sweep.now).rows }
    requires nexts { length nexts.now ≡ (sizes_of sweep.now).rows }
    ensures at { Stores sweep.now seat.new.seat seat.new.number seat.new.seats }
    ensures more { StoresMore seat.old.seat seat.old.number seat.old.seats seat.new.seat
        seat.new.number seat.new.seats }
    ensures nexts { (r : ℕ) → r < (sizes_of sweep.now).rows → IsMarked marks.now r
        → seen_of seat.new.seat (Next r) ≡ told_by (seen_of seat.old.seat (Next r))
        (get_or nexts.now r 0) }
    ensures others { (p : Place) → is_next p ≡ false → seen_of seat.new.seat p
        ≡ seen_of seat.old.seat p }
{
    for row in 0..sweep.store.sizes.rows {
        store_next(sweep, seat, marks, nexts, row);
    }
}

// Stores the head of a bucket, unless its cell says that it stays.
fn store_head(sweep: &Sweep<'_>, seat: &mut Seat<NodeRows>, b: u32, cell: u32)
    requires at { Stores sweep.now seat.old.seat seat.old.number seat.old.seats }
    requires below { b < (sizes_of sweep.now).buckets }
    ensures at { Stores sweep.now seat.new.seat seat.new.number seat.new.seats }
    ensures more { StoresMore seat.old.seat seat.old.number seat.old.seats seat.new.seat
        seat.new.number seat.new.seats }
    ensures words { seen_of seat.new.seat ≡ write (seen_of seat.old.seat) (Bucket b)
        (told_by (seen_of seat.old.seat (Bucket b)) cell) }
{
    let word = bucket_word(&sweep.store.sizes, u64::from(b));
    put_cell(sweep, seat, word, Place::Bucket(b), cell);
}

/// Stores the heads of so many buckets, where they change.
pub(crate) fn store_heads(sweep: &Sweep<'_>, seat: &mut Seat<NodeRows>, heads: &[u32], in_use: u32)
    requires at { Stores sweep.now seat.old.seat seat.old.number seat.old.seats }
    requires heads { length heads.now ≡ (sizes_of sweep.now).buckets }
    requires within { in_use ≤ (sizes_of sweep.now).buckets }
    ensures at { Stores sweep.now seat.new.seat seat.new.number seat.new.seats }
    ensures more { StoresMore seat.old.seat seat.old.number seat.old.seats seat.new.seat
        seat.new.number seat.new.seats }
    ensures heads { (b : ℕ) → b < in_use → seen_of seat.new.seat (Bucket b)
        ≡ told_by (seen_of seat.old.seat (Bucket b)) (get_or heads.now b 0) }
    ensures others { (p : Place) → is_head in_use p ≡ false → seen_of seat.new.seat p
        ≡ seen_of seat.old.seat p }
{
    for b in 0..in_use {
        store_head(sweep, seat, b, heads[b as usize]);
    }
}

// Stores a row in a free place, unless its cell says that it is there.
fn put_place(sweep: &Sweep<'_>, seat: &mut Seat<NodeRows>, i: u32, row: u32, cell: u32)
    requires at { Stores sweep.now seat.old.seat seat.old.number seat.old.seats }
    requires below { i < (sizes_of sweep.now).rows }
    requires held { cell ≡ 4294967295 → (seen_of seat.old.seat (FreePlace i) ≡ row)
        × HasSeen seat.old.seat.me.0.store (FreePlace i) }
    ensures at { Stores sweep.now seat.new.seat seat.new.number seat.new.seats }
    ensures more { StoresMore seat.old.seat seat.old.number seat.old.seats seat.new.seat
        seat.new.number seat.new.seats }
    ensures has { HasSeen seat.new.seat.me.0.store (FreePlace i) }
    ensures words { seen_of seat.new.seat ≡ write (seen_of seat.old.seat) (FreePlace i) row }
{
    if cell == UNCHANGED {
        return;
    }
    let word = free_place_word(&sweep.store.sizes, u64::from(i));
    put(sweep, seat, word, Place::FreePlace(i), u64::from(row));
}

// Stores the row of a turn in the next free place, where it isn't marked and the place changes: how
// many are filled.
fn store_place(
    sweep: &Sweep<'_>,
    seat: &mut Seat<NodeRows>,
    marks: &Marks,
    cells: &[u32],
    order: Order,
    turn: u32,
    count: u32,
) -> u32
    requires at { Stores sweep.now seat.old.seat seat.old.number seat.old.seats }
    requires marks { length marks.now ≡ (sizes_of sweep.now).rows }
    requires cells { length cells.now ≡ (sizes_of sweep.now).rows }
    requires held { let row = row_in_turn (sizes_of sweep.now) order turn in
        get_or marks.now row false ≡ false → get_or cells.now row 0 ≡ 4294967295
        → (seen_of seat.old.seat (FreePlace count) ≡ row)
        × HasSeen seat.old.seat.me.0.store (FreePlace count) }
    requires below { turn < (sizes_of sweep.now).rows }
    requires few { count ≤ turn }
    requires placed { ArePlaced (λ i. seen_of seat.old.seat (FreePlace i)) marks.now
        (sizes_of sweep.now) order turn count }
    requires has { (i : ℕ) → i < count → HasSeen seat.old.seat.me.0.store (FreePlace i) }
    ensures at { Stores sweep.now seat.new.seat seat.new.number seat.new.seats }
    ensures more { StoresMore seat.old.seat seat.old.number seat.old.seats seat.new.seat
        seat.new.number seat.new.seats }
    ensures placed { ArePlaced (λ i. seen_of seat.new.seat (FreePlace i)) marks.now
        (sizes_of sweep.now) order (turn + 1) result }
    ensures has { (i : ℕ) → i < result → HasSeen seat.new.seat.me.0.store (FreePlace i) }
    ensures few { (count ≤ result) × (result ≤ turn + 1) }
    ensures count { result ≡ count
        + (if get_or marks.now (row_in_turn (sizes_of sweep.now) order turn) false then 0 else 1) }
    ensures later { (i : ℕ) → result ≤ i → seen_of seat.new.seat (FreePlace i)
        ≡ seen_of seat.old.seat (FreePlace i) }
    ensures others { (p : Place) → is_place p ≡ false → seen_of seat.new.seat p
        ≡ seen_of seat.old.seat p }
{
    let row = row_in_turn(sweep, order, turn);
    if marks.has(Row(row)) {
        return count;
    }
    put_place(sweep, seat, count, row, cells[row as usize]);
    count + 1
}

/// Stores the rows that aren't marked in the free places, turn by turn, where these change: how
/// many they are.
pub(crate) fn store_places(
    sweep: &Sweep<'_>,
    seat: &mut Seat<NodeRows>,
    marks: &Marks,
    cells: &[u32],
    order: Order,
) -> u32
    requires at { Stores sweep.now seat.old.seat seat.old.number seat.old.seats }
    requires marks { length marks.now ≡ (sizes_of sweep.now).rows }
    requires cells { length cells.now ≡ (sizes_of sweep.now).rows }
    requires held { (r : ℕ) → r < (sizes_of sweep.now).rows → get_or marks.now r false ≡ false
        → get_or cells.now r 0 ≡ 4294967295
        → (seen_of seat.old.seat (FreePlace (place_for marks.now (sizes_of sweep.now) order r)) ≡ r)
        × HasSeen seat.old.seat.me.0.store
        (FreePlace (place_for marks.now (sizes_of sweep.now) order r)) }
    ensures at { Stores sweep.now seat.new.seat seat.new.number seat.new.seats }
    ensures more { StoresMore seat.old.seat seat.old.number seat.old.seats seat.new.seat
        seat.new.number seat.new.seats }
    ensures placed { ArePlaced (λ i. seen_of seat.new.seat (FreePlace i)) marks.now
        (sizes_of sweep.now) order (sizes_of sweep.now).rows result }
    ensures has { (i : ℕ) → i < result → HasSeen seat.new.seat.me.0.store (FreePlace i) }
    ensures few { result ≤ (sizes_of sweep.now).rows }
    ensures others { (p : Place) → is_place p ≡ false → seen_of seat.new.seat p
        ≡ seen_of seat.old.seat p }
{
    let mut count = 0;
    for turn in 0..sweep.store.sizes.rows {
        count = store_place(sweep, seat, marks, cells, order, turn, count);
    }
    count
}
