//! A collection's first loads of each word.
ghost use Rattle.std.specs.Prelude.{◌≡◌, ◌<◌, ◌≤◌, ◌+◌, ◌++◌, ◌∷◌, [], ℕ, Some, true};
ghost use Rattle.store_model.specs.declared.view.Place.TheVariants.{InUse, FreePlace, Bucket, RowWord, Birth, Next, RootCount, Root};
ghost use Rattle.store_model.specs.Machine.{widest};
ghost use Rattle.store_model.specs.Shown.{in_table, index_of};
ghost use Rattle.store_model.specs.Steps.{value_at};
ghost use Rattle.store_model.specs.ByView.{IsLoaded};
ghost use Rattle.row_sweep.specs.Loaded.{HasRow, HasRoots, HasLists};
ghost use Rattle.row_sweep.specs.Gathered.{sizes_of, loads_of, Gathers, LoadsMore, HasGathered};

use crate::places::{birth_from, next_from, word_from};
use crate::sweep::Sweep;
use busy_forbidden::Seat;
use node_rows::{
    NodeRows, bucket_word, free_place_word, in_use_word, load_any, root_count_word, root_word,
    word_in,
};
use store_model::{Place, Sizes};

// Loads a word.
pub(crate) fn load(sweep: &Sweep<'_>, seat: &mut Seat<NodeRows>, word: usize, place: Place) -> u64
    requires at { Gathers sweep.now seat.old.seat seat.old.number seat.old.seats }
    requires there { in_table (sizes_of sweep.now) place ≡ true }
    requires word { word ≡ index_of (sizes_of sweep.now) place }
    ensures at { Gathers sweep.now seat.new.seat seat.new.number seat.new.seats }
    ensures more { LoadsMore seat.old.seat seat.old.number seat.old.seats seat.new.seat
        seat.new.number seat.new.seats }
    ensures pushed { loads_of seat.new.seat ≡ loads_of seat.old.seat ++ (place, result) ∷ [] }
    ensures loaded { value_at place (loads_of seat.new.seat) ≡ Some result }
{
    load_any(&sweep.store.table, seat, word, place)
}

// Loads the number of buckets in use, which the pass has.
fn load_in_use(sweep: &Sweep<'_>, seat: &mut Seat<NodeRows>)
    requires at { Gathers sweep.now seat.old.seat seat.old.number seat.old.seats }
    ensures at { Gathers sweep.now seat.new.seat seat.new.number seat.new.seats }
    ensures more { LoadsMore seat.old.seat seat.old.number seat.old.seats seat.new.seat
        seat.new.number seat.new.seats }
    ensures loaded { IsLoaded InUse (loads_of seat.new.seat) }
{
    let word = in_use_word(&sweep.store.sizes);
    load(sweep, seat, word, Place::InUse);
}

// Loads a free place.
fn load_place(sweep: &Sweep<'_>, seat: &mut Seat<NodeRows>, i: u32)
    requires at { Gathers sweep.now seat.old.seat seat.old.number seat.old.seats }
    requires below { i < (sizes_of sweep.now).rows }
    ensures at { Gathers sweep.now seat.new.seat seat.new.number seat.new.seats }
    ensures more { LoadsMore seat.old.seat seat.old.number seat.old.seats seat.new.seat
        seat.new.number seat.new.seats }
    ensures loaded { IsLoaded (FreePlace i) (loads_of seat.new.seat) }
{
    let word = free_place_word(&sweep.store.sizes, u64::from(i));
    load(sweep, seat, word, Place::FreePlace(i));
}

// Loads the free places that count.
fn load_places(sweep: &Sweep<'_>, seat: &mut Seat<NodeRows>)
    requires at { Gathers sweep.now seat.old.seat seat.old.number seat.old.seats }
    ensures at { Gathers sweep.now seat.new.seat seat.new.number seat.new.seats }
    ensures more { LoadsMore seat.old.seat seat.old.number seat.old.seats seat.new.seat
        seat.new.number seat.new.seats }
    ensures loaded { (i : ℕ) → i < sweep.now.count
        → IsLoaded (FreePlace i) (loads_of seat.new.seat) }
{
    for i in 0..sweep.count as u32 {
        load_place(sweep, seat, i);
    }
}

// Loads the head of a bucket.
fn load_bucket(sweep: &Sweep<'_>, seat: &mut Seat<NodeRows>, b: u32)
    requires at { Gathers sweep.now seat.old.seat seat.old.number seat.old.seats }
    requires below { b < (sizes_of sweep.now).buckets }
    ensures at { Gathers sweep.now seat.new.seat seat.new.number seat.new.seats }
    ensures more { LoadsMore seat.old.seat seat.old.number seat.old.seats seat.new.seat
        seat.new.number seat.new.seats }
    ensures loaded { IsLoaded (Bucket b) (loads_of seat.new.seat) }
{
    let word = bucket_word(&sweep.store.sizes, u64::from(b));
    load(sweep, seat, word, Place::Bucket(b));
}

// Loads the heads of all buckets.
fn load_buckets(sweep: &Sweep<'_>, seat: &mut Seat<NodeRows>)
    requires at { Gathers sweep.now seat.old.seat seat.old.number seat.old.seats }
    ensures at { Gathers sweep.now seat.new.seat seat.new.number seat.new.seats }
    ensures more { LoadsMore seat.old.seat seat.old.number seat.old.seats seat.new.seat
        seat.new.number seat.new.seats }
    ensures loaded { (b : ℕ) → b < (sizes_of sweep.now).buckets
        → IsLoaded (Bucket b) (loads_of seat.new.seat) }
{
    for b in 0..sweep.store.sizes.buckets {
        load_bucket(sweep, seat, b);
    }
}

// How many words a row has before its birth number: its symbol word, its count, and its arguments.
fn word_count(sizes: &Sizes) -> u32
    requires { sizes.now.arity ≤ 16 }
    ensures { result ≡ widest sizes.now + 2 }
{
    sizes.arity.max(2) + 2
}

// Loads word k of a row, whose first word stands at `first`.
#[inline(always)]
fn load_word(sweep: &Sweep<'_>, seat: &mut Seat<NodeRows>, row: u32, first: usize, k: u32)
    requires at { Gathers sweep.now seat.old.seat seat.old.number seat.old.seats }
    requires below { row < (sizes_of sweep.now).rows }
    requires first { first ≡ index_of (sizes_of sweep.now) (RowWord row 0) }
    requires within { k < widest (sizes_of sweep.now) + 2 }
    ensures at { Gathers sweep.now seat.new.seat seat.new.number seat.new.seats }
    ensures more { LoadsMore seat.old.seat seat.old.number seat.old.seats seat.new.seat
        seat.new.number seat.new.seats }
    ensures loaded { IsLoaded (RowWord row k) (loads_of seat.new.seat) }
{
    let word = word_from(sweep.store, row, first, k);
    load(sweep, seat, word, Place::RowWord(row, k));
}

// Loads the words of a row before its birth number, so many, from `first` on.
#[inline(always)]
fn load_words(sweep: &Sweep<'_>, seat: &mut Seat<NodeRows>, row: u32, first: usize, count: u32)
    requires at { Gathers sweep.now seat.old.seat seat.old.number seat.old.seats }
    requires below { row < (sizes_of sweep.now).rows }
    requires first { first ≡ index_of (sizes_of sweep.now) (RowWord row 0) }
    requires count { count ≡ widest (sizes_of sweep.now) + 2 }
    ensures at { Gathers sweep.now seat.new.seat seat.new.number seat.new.seats }
    ensures more { LoadsMore seat.old.seat seat.old.number seat.old.seats seat.new.seat
        seat.new.number seat.new.seats }
    ensures loaded { (k : ℕ) → k < widest (sizes_of sweep.now) + 2
        → IsLoaded (RowWord row k) (loads_of seat.new.seat) }
{
    for k in 0..count {
        load_word(sweep, seat, row, first, k);
    }
}

// Loads the birth number of a row, whose first word stands at `first`, and its next.
#[inline(always)]
fn load_links(sweep: &Sweep<'_>, seat: &mut Seat<NodeRows>, row: u32, first: usize)
    requires at { Gathers sweep.now seat.old.seat seat.old.number seat.old.seats }
    requires below { row < (sizes_of sweep.now).rows }
    requires first { first ≡ index_of (sizes_of sweep.now) (RowWord row 0) }
    ensures at { Gathers sweep.now seat.new.seat seat.new.number seat.new.seats }
    ensures more { LoadsMore seat.old.seat seat.old.number seat.old.seats seat.new.seat
        seat.new.number seat.new.seats }
    ensures birth { IsLoaded (Birth row) (loads_of seat.new.seat) }
    ensures next { IsLoaded (Next row) (loads_of seat.new.seat) }
{
    let birth = birth_from(sweep.store, row, first);
    load(sweep, seat, birth, Place::Birth(row));
    let next = next_from(sweep.store, row, first);
    load(sweep, seat, next, Place::Next(row));
}

// Loads all words of a row, of which so many stand before its birth number.
#[inline(always)]
fn load_row(sweep: &Sweep<'_>, seat: &mut Seat<NodeRows>, row: u32, count: u32)
    requires at { Gathers sweep.now seat.old.seat seat.old.number seat.old.seats }
    requires below { row < (sizes_of sweep.now).rows }
    requires count { count ≡ widest (sizes_of sweep.now) + 2 }
    ensures at { Gathers sweep.now seat.new.seat seat.new.number seat.new.seats }
    ensures more { LoadsMore seat.old.seat seat.old.number seat.old.seats seat.new.seat
        seat.new.number seat.new.seats }
    ensures loaded { HasRow (sizes_of sweep.now) (loads_of seat.new.seat) row }
{
    let first = word_in(sweep.store, u64::from(row), 0);
    load_words(sweep, seat, row, first, count);
    load_links(sweep, seat, row, first);
}

// Loads all words of all rows.
fn load_rows(sweep: &Sweep<'_>, seat: &mut Seat<NodeRows>)
    requires at { Gathers sweep.now seat.old.seat seat.old.number seat.old.seats }
    ensures at { Gathers sweep.now seat.new.seat seat.new.number seat.new.seats }
    ensures more { LoadsMore seat.old.seat seat.old.number seat.old.seats seat.new.seat
        seat.new.number seat.new.seats }
    ensures loaded { (r : ℕ) → r < (sizes_of sweep.now).rows
        → HasRow (sizes_of sweep.now) (loads_of seat.new.seat) r }
{
    let count = word_count(&sweep.store.sizes);
    for row in 0..sweep.store.sizes.rows {
        load_row(sweep, seat, row, count);
    }
}

// Loads how many rows a pass protects.
fn load_count(sweep: &Sweep<'_>, seat: &mut Seat<NodeRows>, j: u32) -> u64
    requires at { Gathers sweep.now seat.old.seat seat.old.number seat.old.seats }
    requires below { j < (sizes_of sweep.now).seats }
    ensures at { Gathers sweep.now seat.new.seat seat.new.number seat.new.seats }
    ensures more { LoadsMore seat.old.seat seat.old.number seat.old.seats seat.new.seat
        seat.new.number seat.new.seats }
    ensures loaded { value_at (RootCount j) (loads_of seat.new.seat) ≡ Some result }
    ensures few { result ≤ (sizes_of sweep.now).depth }
{
    let word = root_count_word(&sweep.store.sizes, j);
    load(sweep, seat, word, Place::RootCount(j))
}

// Loads protected row k of a pass.
fn load_root(sweep: &Sweep<'_>, seat: &mut Seat<NodeRows>, j: u32, k: u32)
    requires at { Gathers sweep.now seat.old.seat seat.old.number seat.old.seats }
    requires below { j < (sizes_of sweep.now).seats }
    requires within { k < (sizes_of sweep.now).depth }
    ensures at { Gathers sweep.now seat.new.seat seat.new.number seat.new.seats }
    ensures more { LoadsMore seat.old.seat seat.old.number seat.old.seats seat.new.seat
        seat.new.number seat.new.seats }
    ensures loaded { IsLoaded (Root j k) (loads_of seat.new.seat) }
{
    let word = root_word(&sweep.store.sizes, j, u64::from(k));
    load(sweep, seat, word, Place::Root(j, k));
}

// Loads the protected rows of a pass.
fn load_seat(sweep: &Sweep<'_>, seat: &mut Seat<NodeRows>, j: u32)
    requires at { Gathers sweep.now seat.old.seat seat.old.number seat.old.seats }
    requires below { j < (sizes_of sweep.now).seats }
    ensures at { Gathers sweep.now seat.new.seat seat.new.number seat.new.seats }
    ensures more { LoadsMore seat.old.seat seat.old.number seat.old.seats seat.new.seat
        seat.new.number seat.new.seats }
    ensures loaded { HasRoots (loads_of seat.new.seat) j }
{
    let count = load_count(sweep, seat, j);
    for k in 0..count as u32 {
        load_root(sweep, seat, j, k);
    }
}

// Loads the protected rows of all passes.
fn load_seats(sweep: &Sweep<'_>, seat: &mut Seat<NodeRows>)
    requires at { Gathers sweep.now seat.old.seat seat.old.number seat.old.seats }
    ensures at { Gathers sweep.now seat.new.seat seat.new.number seat.new.seats }
    ensures more { LoadsMore seat.old.seat seat.old.number seat.old.seats seat.new.seat
        seat.new.number seat.new.seats }
    ensures loaded { (j : ℕ) → j < (sizes_of sweep.now).seats
        → HasRoots (loads_of seat.new.seat) j }
{
    for j in 0..sweep.store.sizes.seats {
        load_seat(sweep, seat, j);
    }
}

// Loads the number of buckets in use, the free places and the buckets.
fn load_lists(sweep: &Sweep<'_>, seat: &mut Seat<NodeRows>)
    requires at { Gathers sweep.now seat.old.seat seat.old.number seat.old.seats }
    ensures at { Gathers sweep.now seat.new.seat seat.new.number seat.new.seats }
    ensures more { LoadsMore seat.old.seat seat.old.number seat.old.seats seat.new.seat
        seat.new.number seat.new.seats }
    ensures loaded { HasLists (sizes_of sweep.now) sweep.now.count (loads_of seat.new.seat) }
{
    load_in_use(sweep, seat);
    load_places(sweep, seat);
    load_buckets(sweep, seat);
}

/// Loads all words of the store that a collection looks at, each of them once.
pub(crate) fn load_all(sweep: &Sweep<'_>, seat: &mut Seat<NodeRows>)
    requires at { Gathers sweep.now seat.old.seat seat.old.number seat.old.seats }
    ensures at { HasGathered sweep.now seat.new.seat seat.new.number seat.new.seats }
    ensures more { LoadsMore seat.old.seat seat.old.number seat.old.seats seat.new.seat
        seat.new.number seat.new.seats }
{
    load_lists(sweep, seat);
    load_rows(sweep, seat);
    load_seats(sweep, seat);
}
