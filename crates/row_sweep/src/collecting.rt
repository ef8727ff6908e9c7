//! A whole collection.
ghost use Rattle.std.specs.Prelude.{◌≡◌, ◌<◌, ◌≤◌, ◌+◌, true, false, IfOk, IfErr, length, vec_capacity};
ghost use Rattle.store_model.specs.declared.view.Place.{Place};
ghost use Rattle.store_model.specs.declared.view.Place.TheVariants.{Base, FreeCount, InUse};
ghost use Rattle.store_model.specs.Marks.{MarksReached};
ghost use Rattle.store_model.specs.Steps.{AreLastRoots, is_storing};
ghost use Rattle.node_rows.specs.Belonging.{IsExclusive, IsSamePass};
ghost use Rattle.node_rows.specs.Collecting.{HasSeen};
ghost use Rattle.node_rows.specs.Inside.{IsInside};
ghost use Rattle.node_rows.specs.Told.{Tells, view_of};
ghost use Rattle.node_rows.specs.Crowding.{swept};
ghost use Rattle.row_sweep.specs.Gathered.{sizes_of, words_of, Gathers, HasGathered, StaysSeat, IsWorn};
ghost use Rattle.row_sweep.specs.Stored.{Stores, StoresMore, seen_of, is_number};
ghost use Rattle.row_sweep.specs.Collected.{Collects, HasKept, IsWorkedOut, HasStored, HasSwept, Ends, EndsSo};
ghost use Rattle.row_sweep.specs.Compared.{IsCompared};

use crate::beginning::begin;
use crate::chaining::chain_all;
use crate::comparing::compare_all;
use crate::counting::{buckets_after, count_marked};
use crate::loading::load_all;
use crate::marking::mark_all;
use crate::storing::{put, put_over, store_heads, store_nexts, store_places};
use crate::sweep::{Kept, Sweep, Worn};
use crate::turns::order_for;
use busy_forbidden::Seat;
use mark_phase::Marks;
use node_rows::{
    NodeRows, Pass, Store, base_word, claim_word, free_count_word, in_use_word, store_claim,
    tell_collect,
};
use store_model::Place;

// Loads all words, and marks the rows that are reached.
fn load_and_mark(sweep: &Sweep<'_>, seat: &mut Seat<NodeRows>, marks: &mut Marks)
    requires at { Gathers sweep.now seat.old.seat seat.old.number seat.old.seats }
    requires size { length marks.old ≡ (sizes_of sweep.now).rows }
    ensures at { HasGathered sweep.now seat.new.seat seat.new.number seat.new.seats }
    ensures stays { StaysSeat seat.old.seat seat.old.number seat.old.seats seat.new.seat
        seat.new.number seat.new.seats }
    ensures marks { MarksReached (words_of seat.new.seat) (sizes_of sweep.now).rows marks.new }
{
    load_all(sweep, seat);
    mark_all(sweep, seat, marks);
}

// Works out the new chains, how many rows are kept, and the buckets then in use.
fn work_out(
    sweep: &Sweep<'_>,
    seat: &mut Seat<NodeRows>,
    marks: &Marks,
    nexts: &mut [u32],
    heads: &mut [u32],
    in_use: u32,
) -> Kept
    requires at { HasGathered sweep.now seat.old.seat seat.old.number seat.old.seats }
    requires in_use { in_use ≡ seat.old.seat.me.0.store.in_use }
    requires marks { MarksReached (words_of seat.old.seat) (sizes_of sweep.now).rows marks.now }
    requires nexts { length nexts.old ≡ (sizes_of sweep.now).rows }
    requires heads { length heads.old ≡ (sizes_of sweep.now).buckets }
    ensures stays { StaysSeat seat.old.seat seat.old.number seat.old.seats seat.new.seat
        seat.new.number seat.new.seats }
    ensures out { IsWorkedOut sweep.now seat.new.seat seat.new.number seat.new.seats marks.now
        nexts.new heads.new result.live result.buckets }
    ensures lengths { (length nexts.new ≡ length nexts.old)
        × (length heads.new ≡ length heads.old) }
{
    let live = count_marked(marks, sweep.store.sizes.rows);
    let buckets = buckets_after(&sweep.store.sizes, in_use, live);
    chain_all(sweep, seat, marks, nexts, heads, buckets);
    Kept { live, buckets }
}

// Stores the next words, the heads and the free places that change: how many free places there are.
fn store_lists(
    sweep: &Sweep<'_>,
    seat: &mut Seat<NodeRows>,
    marks: &Marks,
    nexts: &[u32],
    heads: &[u32],
    kept: Kept,
) -> u32
    requires compared { IsCompared sweep.now seat.old.seat seat.old.number seat.old.seats marks.now
        nexts.now heads.now kept.live kept.buckets }
    requires nexts { length nexts.now ≡ (sizes_of sweep.now).rows }
    requires heads { length heads.now ≡ (sizes_of sweep.now).buckets }
    ensures stays { StaysSeat seat.old.seat seat.old.number seat.old.seats seat.new.seat
        seat.new.number seat.new.seats }
    ensures stored { HasStored sweep.now seat.new.seat seat.new.number seat.new.seats marks.now
        kept.live kept.buckets result }
    ensures count { (seen_of seat.new.seat FreeCount ≡ sweep.now.count)
        × HasSeen seat.new.seat.me.0.store FreeCount }
    ensures in_use { (seen_of seat.new.seat InUse ≡ seat.old.seat.me.0.store.in_use)
        × HasSeen seat.new.seat.me.0.store InUse }
{
    store_nexts(sweep, seat, marks, nexts);
    store_heads(sweep, seat, heads, kept.buckets);
    let order = order_for(&sweep.store.sizes, kept.live);
    store_places(sweep, seat, marks, nexts, order)
}

// Stores the free count and the buckets in use, where they change, and the base.
fn store_numbers(
    sweep: &Sweep<'_>,
    seat: &mut Seat<NodeRows>,
    count: u32,
    in_use: u32,
    buckets: u32,
)
    requires at { Stores sweep.now seat.old.seat seat.old.number seat.old.seats }
    requires count { (seen_of seat.old.seat FreeCount ≡ sweep.now.count)
        × HasSeen seat.old.seat.me.0.store FreeCount }
    requires in_use { (seen_of seat.old.seat InUse ≡ in_use)
        × HasSeen seat.old.seat.me.0.store InUse }
    ensures at { Stores sweep.now seat.new.seat seat.new.number seat.new.seats }
    ensures more { StoresMore seat.old.seat seat.old.number seat.old.seats seat.new.seat
        seat.new.number seat.new.seats }
    ensures storing { is_storing seat.new.seat.me.0.store.call ≡ true }
    ensures count { (seen_of seat.new.seat FreeCount ≡ count)
        × HasSeen seat.new.seat.me.0.store FreeCount }
    ensures buckets { (seen_of seat.new.seat InUse ≡ buckets)
        × HasSeen seat.new.seat.me.0.store InUse }
    ensures base { (seen_of seat.new.seat Base ≡ sweep.now.base + sweep.now.claim + 1)
        × HasSeen seat.new.seat.me.0.store Base }
    ensures others { (p : Place) → is_number p ≡ false → seen_of seat.new.seat p
        ≡ seen_of seat.old.seat p }
{
    let sizes = &sweep.store.sizes;
    let base = sweep.base + sweep.claim + 1;
    let count = u64::from(count);
    let buckets = u64::from(buckets);
    let in_use = u64::from(in_use);
    let word = free_count_word(sizes);
    put_over(sweep, seat, word, Place::FreeCount, sweep.count, count);
    let word = in_use_word(sizes);
    put_over(sweep, seat, word, Place::InUse, in_use, buckets);
    put(sweep, seat, base_word(sizes), Place::Base, base);
}

// Stores what changes of what was worked out, but for the claim.
fn store_all(
    sweep: &Sweep<'_>,
    seat: &mut Seat<NodeRows>,
    marks: &Marks,
    nexts: &[u32],
    heads: &[u32],
    in_use: u32,
    kept: Kept,
)
    requires in_use { in_use ≡ seat.old.seat.me.0.store.in_use }
    requires compared { IsCompared sweep.now seat.old.seat seat.old.number seat.old.seats marks.now
        nexts.now heads.now kept.live kept.buckets }
    requires nexts { length nexts.now ≡ (sizes_of sweep.now).rows }
    requires heads { length heads.now ≡ (sizes_of sweep.now).buckets }
    ensures stays { StaysSeat seat.old.seat seat.old.number seat.old.seats seat.new.seat
        seat.new.number seat.new.seats }
    ensures swept { HasSwept sweep.now seat.new.seat seat.new.number seat.new.seats marks.now
        kept.live kept.buckets }
{
    let count = store_lists(sweep, seat, marks, nexts, heads, kept);
    store_numbers(sweep, seat, count, in_use, kept.buckets);
}

// Ends the collection.
fn end(sweep: &Sweep<'_>, seat: &mut Seat<NodeRows>, marks: &Marks, kept: Kept)
    requires swept { HasSwept sweep.now seat.old.seat seat.old.number seat.old.seats marks.now
        kept.live kept.buckets }
    ensures ends { Ends sweep.now seat.old.seat seat.old.number seat.old.seats seat.new.seat
        seat.new.number seat.new.seats marks.now kept.live kept.buckets }
{
    store_claim(&sweep.store.table, seat, claim_word(&sweep.store.sizes));
}

// Goes on with a collection that isn't worn.
fn sweep_all(
    sweep: &Sweep<'_>,
    seat: &mut Seat<NodeRows>,
    marks: &mut Marks,
    nexts: &mut [u32],
    heads: &mut [u32],
    in_use: u32,
) -> Kept
    requires at { Gathers sweep.now seat.old.seat seat.old.number seat.old.seats }
    requires in_use { in_use ≡ seat.old.seat.me.0.store.in_use }
    requires size { length marks.old ≡ (sizes_of sweep.now).rows }
    requires nexts { length nexts.old ≡ (sizes_of sweep.now).rows }
    requires heads { length heads.old ≡ (sizes_of sweep.now).buckets }
    ensures ends { Ends sweep.now seat.old.seat seat.old.number seat.old.seats seat.new.seat
        seat.new.number seat.new.seats marks.new result.live result.buckets }
    ensures lengths { (length nexts.new ≡ length nexts.old)
        × (length heads.new ≡ length heads.old) }
{
    load_and_mark(sweep, seat, marks);
    let kept = work_out(sweep, seat, marks, nexts, heads, in_use);
    compare_all(sweep, seat, marks, nexts, heads, kept);
    store_all(sweep, seat, marks, nexts, heads, in_use, kept);
    end(sweep, seat, marks, kept);
    kept
}

// Makes a list so many words long, with zeros at its end. It has the room, so `resize` takes no
// memory, and its answer is Ok.
fn fill_up(words: &mut Vec<u32>, count: u32)
    requires room { count ≤ vec_capacity words.old }
    ensures length { length words.new.items ≡ count }
    ensures capacity { vec_capacity words.old ≤ vec_capacity words.new }
{
    let _filled = words.resize(count as usize, 0);
}

// Goes on with the collection of a pass that isn't worn, and tells it. The pass's first collection
// fills the room of its new chains.
fn collect_on(sweep: &Sweep<'_>, pass: &mut Pass, in_use: u32) -> Kept
    requires at { Gathers sweep.now pass.old.seat.seat pass.old.seat.number pass.old.seat.seats }
    requires in_use { in_use ≡ (view_of pass.old).store.in_use }
    requires size { length pass.old.marks ≡ pass.old.rows }
    ensures ends { EndsSo sweep.now pass.old.seat.seat pass.old.seat.number pass.old.seat.seats
        pass.new.seat.seat pass.new.seat.number pass.new.seat.seats result.live result.buckets }
    ensures base { pass.new.base ≡ sweep.now.base + sweep.now.claim + 1 }
    ensures in_use { pass.new.in_use ≡ result.buckets }
    ensures told { Tells pass.new }
{
    fill_up(&mut pass.nexts, sweep.store.sizes.rows);
    fill_up(&mut pass.heads, sweep.store.sizes.buckets);
    let kept = sweep_all(
        sweep,
        &mut pass.seat,
        &mut pass.marks,
        &mut pass.nexts,
        &mut pass.heads,
        in_use,
    );
    tell_collect(pass, sweep.base + sweep.claim + 1, u64::from(kept.buckets));
    kept
}

/// Frees all rows that no pass's protected rows reach, and notes a Collect with the rows that are
/// kept, under their names. The buckets in use are doubled, up to all, where twice the rows kept
/// exceed them. It needs exclusive access, in which the pass has protected no other rows than
/// before. The trees of the rows kept are the pass's crowd then. `Worn` comes exactly where the
/// base, the claim and a whole epoch more would pass 2^62; nothing has changed then.
pub fn collect(store: &Store, pass: &mut Pass) -> Result<Kept, Worn>
    requires inside { IsInside store.now pass.old }
    requires granted { IsExclusive pass.old }
    requires last_roots { AreLastRoots (view_of pass.old).store }
    ensures inside { IsInside store.now pass.new }
    ensures same { IsSamePass pass.old pass.new }
    ensures seats { pass.new.seat.seats ≡ pass.old.seat.seats }
    ensures only { view_of pass.new ≡ swept (view_of pass.old) (view_of pass.new).store
        (view_of pass.new).crowd }
    ensures collects { IfOk result (λ kept. Collects store.now.sizes pass.old.seat.number
        (view_of pass.old).store (view_of pass.new).store kept.live kept.buckets) }
    ensures crowd { IfOk result (λ kept. HasKept (view_of pass.new) kept.live) }
    ensures worn { IfErr result
        (λ _. IsWorn store.now.sizes pass.old.seat.number (view_of pass.old).store) }
    ensures unchanged { IfErr result (λ _. view_of pass.new ≡ view_of pass.old) }
{
    let in_use = pass.in_use as u32;
    match begin(store, &mut pass.seat) {
        Ok(sweep) => Ok(collect_on(&sweep, pass, in_use)),
        Err(worn) => Err(worn),
    }
}
