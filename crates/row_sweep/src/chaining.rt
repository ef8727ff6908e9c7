//! The new chains of the marked rows, worked out in plain memory: each row before those of its
//! bucket that are less.
ghost use Rattle.std.specs.Prelude.{◌≡◌, ◌<◌, ◌≤◌, ◌+◌, ◌^◌, length, get_or, set, replicate};
ghost use Rattle.hash_buckets.specs.Hash.{mixed, mixed_all};
ghost use Rattle.store_model.specs.declared.view.Place.TheVariants.{RowWord};
ghost use Rattle.store_model.specs.MarkedChains.{StandsIn};
ghost use Rattle.store_model.specs.Marks.{MarksReached, IsMarked};
ghost use Rattle.store_model.specs.Steps.{ReachesByWords};
ghost use Rattle.row_sweep.specs.Gathered.{sizes_of, words_of, HasGathered, LoadsAgain};
ghost use Rattle.row_sweep.specs.Chained.{ChainsTo, numbers_of, IsHashed};

use crate::reading::{child_of, count_of, row_word_of};
use crate::sweep::Sweep;
use busy_forbidden::Seat;
use hash_buckets::{INTEGER, OFFSET_BASIS, bucket, with_word};
use mark_phase::Marks;
use node_rows::NodeRows;
use term_model::Row;

// A hash with argument j of a row.
fn with_argument(sweep: &Sweep<'_>, seat: &mut Seat<NodeRows>, row: u32, j: u32, hash: u64) -> u64
    requires at { HasGathered sweep.now seat.old.seat seat.old.number seat.old.seats }
    requires reached { ReachesByWords (words_of seat.old.seat) row }
    requires below { j < words_of seat.old.seat (RowWord row 1) }
    ensures at { HasGathered sweep.now seat.new.seat seat.new.number seat.new.seats }
    ensures again { LoadsAgain sweep.now seat.old.seat seat.old.number seat.old.seats seat.new.seat
        seat.new.number seat.new.seats }
    ensures hash { result ≡ mixed hash (words_of seat.old.seat (RowWord row (j + 2))) }
{
    let argument = child_of(sweep, seat, row, j);
    with_word(hash, u64::from(argument))
}

// A hash with the arguments of a row.
fn with_arguments(sweep: &Sweep<'_>, seat: &mut Seat<NodeRows>, row: u32, first: u64) -> u64
    requires at { HasGathered sweep.now seat.old.seat seat.old.number seat.old.seats }
    requires reached { ReachesByWords (words_of seat.old.seat) row }
    ensures at { HasGathered sweep.now seat.new.seat seat.new.number seat.new.seats }
    ensures again { LoadsAgain sweep.now seat.old.seat seat.old.number seat.old.seats seat.new.seat
        seat.new.number seat.new.seats }
    ensures hash { result ≡ mixed_all first
        (numbers_of (words_of seat.old.seat) row (words_of seat.old.seat (RowWord row 1))) }
{
    let count = count_of(sweep, seat, row);
    let mut hash = first;
    for j in 0..count {
        hash = with_argument(sweep, seat, row, j, hash);
    }
    hash
}

// A hash of an integer's symbol word, with its value.
fn with_value(sweep: &Sweep<'_>, seat: &mut Seat<NodeRows>, row: u32, first: u64) -> u64
    requires at { HasGathered sweep.now seat.old.seat seat.old.number seat.old.seats }
    requires reached { ReachesByWords (words_of seat.old.seat) row }
    ensures at { HasGathered sweep.now seat.new.seat seat.new.number seat.new.seats }
    ensures again { LoadsAgain sweep.now seat.old.seat seat.old.number seat.old.seats seat.new.seat
        seat.new.number seat.new.seats }
    ensures hash { result ≡ mixed first (words_of seat.old.seat (RowWord row 2)) }
{
    let value = row_word_of(sweep, seat, row, 2);
    with_word(first, value)
}

// The hash of a row's words after its symbol word.
fn hash_from(sweep: &Sweep<'_>, seat: &mut Seat<NodeRows>, row: u32, symbol: u64) -> u64
    requires at { HasGathered sweep.now seat.old.seat seat.old.number seat.old.seats }
    requires reached { ReachesByWords (words_of seat.old.seat) row }
    requires symbol { symbol ≡ words_of seat.old.seat (RowWord row 0) }
    ensures at { HasGathered sweep.now seat.new.seat seat.new.number seat.new.seats }
    ensures again { LoadsAgain sweep.now seat.old.seat seat.old.number seat.old.seats seat.new.seat
        seat.new.number seat.new.seats }
    ensures hash { IsHashed (words_of seat.old.seat) row result }
{
    let first = with_word(OFFSET_BASIS, symbol);
    if symbol == INTEGER {
        return with_value(sweep, seat, row, first);
    }
    with_arguments(sweep, seat, row, first)
}

// The hash of a row's content.
fn hash_of_row(sweep: &Sweep<'_>, seat: &mut Seat<NodeRows>, row: u32) -> u64
    requires at { HasGathered sweep.now seat.old.seat seat.old.number seat.old.seats }
    requires reached { ReachesByWords (words_of seat.old.seat) row }
    ensures at { HasGathered sweep.now seat.new.seat seat.new.number seat.new.seats }
    ensures again { LoadsAgain sweep.now seat.old.seat seat.old.number seat.old.seats seat.new.seat
        seat.new.number seat.new.seats }
    ensures hash { IsHashed (words_of seat.old.seat) row result }
{
    let symbol = row_word_of(sweep, seat, row, 0);
    hash_from(sweep, seat, row, symbol)
}

// The bucket of a row that is reached, of so many in use.
fn bucket_of_row(sweep: &Sweep<'_>, seat: &mut Seat<NodeRows>, row: u32, in_use: u32) -> u32
    requires at { HasGathered sweep.now seat.old.seat seat.old.number seat.old.seats }
    requires reached { ReachesByWords (words_of seat.old.seat) row }
    requires used { 0 < in_use }
    ensures at { HasGathered sweep.now seat.new.seat seat.new.number seat.new.seats }
    ensures again { LoadsAgain sweep.now seat.old.seat seat.old.number seat.old.seats seat.new.seat
        seat.new.number seat.new.seats }
    ensures stands { StandsIn (words_of seat.old.seat) in_use result row }
    ensures below { result < in_use }
{
    let hash = hash_of_row(sweep, seat, row);
    bucket(hash, in_use)
}

// Puts a row before its chain.
fn chain_row(nexts: &mut [u32], heads: &mut [u32], row: u32, bucket: u32)
    requires row { row < length nexts.old }
    requires bucket { bucket < length heads.old }
    requires small { length nexts.old < 2 ^ 32 }
    ensures nexts { nexts.new ≡ set nexts.old row (get_or heads.old bucket 0) }
    ensures heads { heads.new ≡ set heads.old bucket (row + 1) }
{
    nexts[row as usize] = heads[bucket as usize];
    heads[bucket as usize] = row + 1;
}

// Goes on with a row that is marked. The marks are there for the contract alone.
fn chain_marked(
    sweep: &Sweep<'_>,
    seat: &mut Seat<NodeRows>,
    _marks: &Marks,
    nexts: &mut [u32],
    heads: &mut [u32],
    row: u32,
    in_use: u32,
)
    requires at { HasGathered sweep.now seat.old.seat seat.old.number seat.old.seats }
    requires marks { MarksReached (words_of seat.old.seat) (sizes_of sweep.now).rows _marks.now }
    requires marked { IsMarked _marks.now row }
    requires row { row < length _marks.now }
    requires used { (0 < in_use) × (in_use ≤ length heads.old) }
    requires nexts { length nexts.old ≡ (sizes_of sweep.now).rows }
    requires chains { ChainsTo (words_of seat.old.seat) _marks.now in_use row heads.old nexts.old }
    ensures at { HasGathered sweep.now seat.new.seat seat.new.number seat.new.seats }
    ensures again { LoadsAgain sweep.now seat.old.seat seat.old.number seat.old.seats seat.new.seat
        seat.new.number seat.new.seats }
    ensures chains { ChainsTo (words_of seat.old.seat) _marks.now in_use (row + 1) heads.new
        nexts.new }
    ensures lengths { (length nexts.new ≡ length nexts.old)
        × (length heads.new ≡ length heads.old) }
{
    let bucket = bucket_of_row(sweep, seat, row, in_use);
    chain_row(nexts, heads, row, bucket);
}

// Goes on with the next row.
fn chain_next(
    sweep: &Sweep<'_>,
    seat: &mut Seat<NodeRows>,
    marks: &Marks,
    nexts: &mut [u32],
    heads: &mut [u32],
    row: u32,
    in_use: u32,
)
    requires at { HasGathered sweep.now seat.old.seat seat.old.number seat.old.seats }
    requires marks { MarksReached (words_of seat.old.seat) (sizes_of sweep.now).rows marks.now }
    requires row { row < length marks.now }
    requires used { (0 < in_use) × (in_use ≤ length heads.old) }
    requires nexts { length nexts.old ≡ (sizes_of sweep.now).rows }
    requires chains { ChainsTo (words_of seat.old.seat) marks.now in_use row heads.old nexts.old }
    ensures at { HasGathered sweep.now seat.new.seat seat.new.number seat.new.seats }
    ensures again { LoadsAgain sweep.now seat.old.seat seat.old.number seat.old.seats seat.new.seat
        seat.new.number seat.new.seats }
    ensures chains { ChainsTo (words_of seat.old.seat) marks.now in_use (row + 1) heads.new
        nexts.new }
    ensures lengths { (length nexts.new ≡ length nexts.old)
        × (length heads.new ≡ length heads.old) }
{
    if !marks.has(Row(row)) {
        return;
    }
    chain_marked(sweep, seat, marks, nexts, heads, row, in_use);
}

// No bucket has a row.
fn clear(heads: &mut [u32])
    ensures { heads.new ≡ replicate (length heads.old) 0 }
{
    heads.fill(0);
}

/// The chains of the marked rows, of so many buckets: the next word of each, and the heads.
pub(crate) fn chain_all(
    sweep: &Sweep<'_>,
    seat: &mut Seat<NodeRows>,
    marks: &Marks,
    nexts: &mut [u32],
    heads: &mut [u32],
    in_use: u32,
)
    requires at { HasGathered sweep.now seat.old.seat seat.old.number seat.old.seats }
    requires marks { MarksReached (words_of seat.old.seat) (sizes_of sweep.now).rows marks.now }
    requires used { (0 < in_use) × (in_use ≤ length heads.old) }
    requires nexts { length nexts.old ≡ (sizes_of sweep.now).rows }
    ensures at { HasGathered sweep.now seat.new.seat seat.new.number seat.new.seats }
    ensures again { LoadsAgain sweep.now seat.old.seat seat.old.number seat.old.seats seat.new.seat
        seat.new.number seat.new.seats }
    ensures chains { ChainsTo (words_of seat.old.seat) marks.now in_use (sizes_of sweep.now).rows
        heads.new nexts.new }
    ensures lengths { (length nexts.new ≡ length nexts.old)
        × (length heads.new ≡ length heads.old) }
{
    clear(heads);
    for row in 0..sweep.store.sizes.rows {
        chain_next(sweep, seat, marks, nexts, heads, row, in_use);
    }
}
