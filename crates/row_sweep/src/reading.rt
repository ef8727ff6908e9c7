//! A collection's loads of words that it has loaded before.
ghost use Rattle.std.specs.Prelude.{◌≡◌, ◌<◌, ◌≤◌, ◌+◌, true};
ghost use Rattle.store_model.specs.declared.view.Place.TheVariants.{FreePlace, Bucket, RowWord, Next, RootCount, Root};
ghost use Rattle.store_model.specs.Machine.{widest};
ghost use Rattle.store_model.specs.Shown.{in_table, index_of};
ghost use Rattle.store_model.specs.ByView.{IsLoaded};
ghost use Rattle.store_model.specs.Steps.{ReachesByWords};
ghost use Rattle.row_sweep.specs.Gathered.{sizes_of, loads_of, words_of, HasGathered, LoadsAgain};

use crate::loading::load;
use crate::places::next_place;
use crate::sweep::Sweep;
use busy_forbidden::Seat;
use node_rows::{NodeRows, bucket_word, free_place_word, root_count_word, root_word, word_in};
use store_model::Place;

// Loads a word again.
fn reload(sweep: &Sweep<'_>, seat: &mut Seat<NodeRows>, word: usize, place: Place) -> u64
    requires at { HasGathered sweep.now seat.old.seat seat.old.number seat.old.seats }
    requires loaded { IsLoaded place (loads_of seat.old.seat) }
    requires there { in_table (sizes_of sweep.now) place ≡ true }
    requires word { word ≡ index_of (sizes_of sweep.now) place }
    ensures at { HasGathered sweep.now seat.new.seat seat.new.number seat.new.seats }
    ensures again { LoadsAgain sweep.now seat.old.seat seat.old.number seat.old.seats seat.new.seat
        seat.new.number seat.new.seats }
    ensures value { result ≡ words_of seat.old.seat place }
{
    load(sweep, seat, word, place)
}

/// Word k of a row.
pub(crate) fn row_word_of(sweep: &Sweep<'_>, seat: &mut Seat<NodeRows>, row: u32, k: u32) -> u64
    requires at { HasGathered sweep.now seat.old.seat seat.old.number seat.old.seats }
    requires below { row < (sizes_of sweep.now).rows }
    requires within { k < widest (sizes_of sweep.now) + 2 }
    ensures at { HasGathered sweep.now seat.new.seat seat.new.number seat.new.seats }
    ensures again { LoadsAgain sweep.now seat.old.seat seat.old.number seat.old.seats seat.new.seat
        seat.new.number seat.new.seats }
    ensures value { result ≡ words_of seat.old.seat (RowWord row k) }
{
    let word = word_in(sweep.store, u64::from(row), k as usize);
    reload(sweep, seat, word, Place::RowWord(row, k))
}

/// How many rows a pass protects.
pub(crate) fn root_count_of(sweep: &Sweep<'_>, seat: &mut Seat<NodeRows>, j: u32) -> u32
    requires at { HasGathered sweep.now seat.old.seat seat.old.number seat.old.seats }
    requires below { j < (sizes_of sweep.now).seats }
    ensures at { HasGathered sweep.now seat.new.seat seat.new.number seat.new.seats }
    ensures again { LoadsAgain sweep.now seat.old.seat seat.old.number seat.old.seats seat.new.seat
        seat.new.number seat.new.seats }
    ensures value { result ≡ words_of seat.old.seat (RootCount j) }
    ensures few { result ≤ (sizes_of sweep.now).depth }
{
    let word = root_count_word(&sweep.store.sizes, j);
    reload(sweep, seat, word, Place::RootCount(j)) as u32
}

/// Protected row k of a pass.
pub(crate) fn root_of(sweep: &Sweep<'_>, seat: &mut Seat<NodeRows>, j: u32, k: u32) -> u32
    requires at { HasGathered sweep.now seat.old.seat seat.old.number seat.old.seats }
    requires below { j < (sizes_of sweep.now).seats }
    requires within { k < words_of seat.old.seat (RootCount j) }
    ensures at { HasGathered sweep.now seat.new.seat seat.new.number seat.new.seats }
    ensures again { LoadsAgain sweep.now seat.old.seat seat.old.number seat.old.seats seat.new.seat
        seat.new.number seat.new.seats }
    ensures value { result ≡ words_of seat.old.seat (Root j k) }
{
    let word = root_word(&sweep.store.sizes, j, u64::from(k));
    reload(sweep, seat, word, Place::Root(j, k)) as u32
}

/// How many arguments a row has that is reached.
pub(crate) fn count_of(sweep: &Sweep<'_>, seat: &mut Seat<NodeRows>, row: u32) -> u32
    requires at { HasGathered sweep.now seat.old.seat seat.old.number seat.old.seats }
    requires reached { ReachesByWords (words_of seat.old.seat) row }
    ensures at { HasGathered sweep.now seat.new.seat seat.new.number seat.new.seats }
    ensures again { LoadsAgain sweep.now seat.old.seat seat.old.number seat.old.seats seat.new.seat
        seat.new.number seat.new.seats }
    ensures value { result ≡ words_of seat.old.seat (RowWord row 1) }
    ensures few { result ≤ widest (sizes_of sweep.now) }
{
    row_word_of(sweep, seat, row, 1) as u32
}

/// Argument j of a row that is reached.
pub(crate) fn child_of(sweep: &Sweep<'_>, seat: &mut Seat<NodeRows>, row: u32, j: u32) -> u32
    requires at { HasGathered sweep.now seat.old.seat seat.old.number seat.old.seats }
    requires reached { ReachesByWords (words_of seat.old.seat) row }
    requires below { j < words_of seat.old.seat (RowWord row 1) }
    ensures at { HasGathered sweep.now seat.new.seat seat.new.number seat.new.seats }
    ensures again { LoadsAgain sweep.now seat.old.seat seat.old.number seat.old.seats seat.new.seat
        seat.new.number seat.new.seats }
    ensures value { result ≡ words_of seat.old.seat (RowWord row (j + 2)) }
{
    row_word_of(sweep, seat, row, j + 2) as u32
}

/// The next word of a row.
pub(crate) fn next_of(sweep: &Sweep<'_>, seat: &mut Seat<NodeRows>, row: u32) -> u64
    requires at { HasGathered sweep.now seat.old.seat seat.old.number seat.old.seats }
    requires below { row < (sizes_of sweep.now).rows }
    ensures at { HasGathered sweep.now seat.new.seat seat.new.number seat.new.seats }
    ensures again { LoadsAgain sweep.now seat.old.seat seat.old.number seat.old.seats seat.new.seat
        seat.new.number seat.new.seats }
    ensures value { result ≡ words_of seat.old.seat (Next row) }
{
    let word = next_place(sweep.store, u64::from(row));
    reload(sweep, seat, word, Place::Next(row))
}

/// The head of a bucket.
pub(crate) fn head_of(sweep: &Sweep<'_>, seat: &mut Seat<NodeRows>, b: u32) -> u64
    requires at { HasGathered sweep.now seat.old.seat seat.old.number seat.old.seats }
    requires below { b < (sizes_of sweep.now).buckets }
    ensures at { HasGathered sweep.now seat.new.seat seat.new.number seat.new.seats }
    ensures again { LoadsAgain sweep.now seat.old.seat seat.old.number seat.old.seats seat.new.seat
        seat.new.number seat.new.seats }
    ensures value { result ≡ words_of seat.old.seat (Bucket b) }
{
    let word = bucket_word(&sweep.store.sizes, u64::from(b));
    reload(sweep, seat, word, Place::Bucket(b))
}

/// The row in a free place that counts.
pub(crate) fn place_of(sweep: &Sweep<'_>, seat: &mut Seat<NodeRows>, i: u32) -> u64
    requires at { HasGathered sweep.now seat.old.seat seat.old.number seat.old.seats }
    requires below { i < sweep.now.count }
    ensures at { HasGathered sweep.now seat.new.seat seat.new.number seat.new.seats }
    ensures again { LoadsAgain sweep.now seat.old.seat seat.old.number seat.old.seats seat.new.seat
        seat.new.number seat.new.seats }
    ensures value { result ≡ words_of seat.old.seat (FreePlace i) }
{
    let word = free_place_word(&sweep.store.sizes, u64::from(i));
    reload(sweep, seat, word, Place::FreePlace(i))
}
