//! A new store, and its passes.
ghost use Rattle.std.specs.Prelude.{◌≡◌, ◌+◌, ◌<◌, ◌≤◌, ◌^◌, ℕ, IfOk, All, false, replicate, vec_capacity};
ghost use Rattle.store_model.specs.Shown.{total};
ghost use Rattle.busy_forbidden.specs.Dealt.{EachPlace};
ghost use Rattle.store_model.specs.Steps.{newcomer};
ghost use Rattle.store_model.specs.NewStore.{MaySize};
ghost use Rattle.node_rows.specs.Belonging.{IsSeated, IsOpen};
ghost use Rattle.node_rows.specs.Passes.{IsOut};
ghost use Rattle.node_rows.specs.Told.{Tells, view_of};
ghost use Rattle.node_rows.specs.Opening.{UpTo, IsNew, IsFirst};

use crate::places::{
    base_word, first_row, free_count_word, free_place_word, in_use_word, row_size, row_width,
};
use crate::rule::{Deal, NodeRows};
use crate::store::{Last, Pass, Store};
use busy_forbidden::{Seat, Table};
use faults::Memory;
use mark_phase::Marks;
use std::alloc::Global;
use store_model::Sizes;

// How many words a store has.
fn count_words(sizes: &Sizes) -> usize
    requires { total sizes.now < 2 ^ 62 }
    ensures { result ≡ total sizes.now }
{
    1 + 2 * sizes.seats as usize
        + 4
        + sizes.rows as usize
        + sizes.buckets as usize
        + sizes.rows as usize * (row_width(sizes) + 4)
        + sizes.seats as usize * (sizes.depth as usize + 1)
}

// The single words of a new store.
fn put_single(words: &mut [u64], sizes: &Sizes)
    requires small { total sizes.now < 2 ^ 62 }
    requires zeros { words.old ≡ replicate (total sizes.now) 0 }
    ensures { UpTo sizes.now words.new 0 }
{
    words[base_word(sizes)] = sizes.first;
    words[free_count_word(sizes)] = sizes.rows as u64;
    words[in_use_word(sizes)] = sizes.start as u64;
}

// Each row is free.
fn put_places(words: &mut [u64], sizes: &Sizes)
    requires small { total sizes.now < 2 ^ 62 }
    requires single { UpTo sizes.now words.old 0 }
    ensures { UpTo sizes.now words.new sizes.now.rows }
{
    for i in 0..sizes.rows {
        words[free_place_word(sizes, i as u64)] = i as u64;
    }
}

// The words of a new store: each row is free.
fn first_words(alloc: Global, sizes: &Sizes) -> Result<Vec<u64>, Memory>
    requires small { total sizes.now < 2 ^ 62 }
    ensures { IfOk result (λ words. UpTo sizes.now words.items sizes.now.rows) }
{
    let mut words = Vec::from_elem(alloc, 0u64, count_words(sizes))?;
    put_single(&mut words, sizes);
    put_places(&mut words, sizes);
    Ok(words)
}

// What a collection needs: a mark for each row, and room for the next word of each row and for the
// head of each bucket.
#[derive(Drop)]
struct Room {
    marks: Marks,
    nexts: Vec<u32>,
    heads: Vec<u32>,
}

fn take_room(alloc: Global, sizes: &Sizes) -> Result<Room, Memory>
    ensures marks { IfOk result (λ r. r.marks ≡ replicate sizes.now.rows false) }
    ensures nexts { IfOk result (λ r. sizes.now.rows ≤ vec_capacity r.nexts) }
    ensures heads { IfOk result (λ r. sizes.now.buckets ≤ vec_capacity r.heads) }
{
    Ok(Room {
        marks: Marks::new(alloc, sizes.rows)?,
        nexts: Vec::with_capacity(alloc, sizes.rows as usize)?,
        heads: Vec::with_capacity(alloc, sizes.buckets as usize)?,
    })
}

// A pass that has done nothing yet, with no mark.
fn new_pass(seat: Seat<NodeRows>, rows: u32, room: Room) -> Pass
    requires count { seat.seat.me.0.store.root_count ≡ 0 }
    requires rows { seat.seat.me.0.sizes.rows ≡ rows }
    requires nexts { rows ≤ vec_capacity room.nexts }
    requires heads { seat.seat.me.0.sizes.buckets ≤ vec_capacity room.heads }
    ensures seat { (result.seat.seat ≡ seat.seat) × (result.seat.number ≡ seat.number)
        × (result.seat.seats ≡ seat.seats) }
    ensures told { seat.seat.me.0.store ≡ newcomer seat.seat.me.0.sizes
        → room.marks ≡ replicate rows false → Tells result }
{
    let Room {
        marks,
        nexts,
        heads,
    } = room;
    Pass {
        seat,
        base: 0,
        in_use: 0,
        root_count: 0,
        rows,
        seen: 0,
        last: Last::Nothing,
        marks,
        nexts,
        heads,
    }
}

fn first_pass(alloc: Global, sizes: &Sizes) -> Result<(Store, Pass), Memory>
    requires small { total sizes.now < 2 ^ 62 }
    requires sizes { MaySize sizes.now }
    ensures store { IfOk result (λ t. IsOpen t.0 × (t.0.sizes ≡ sizes.now)) }
    ensures pass { IfOk result
        (λ t. IsNew t.0.table.shared.table_id sizes.now 0 t.1.seat.seat t.1.seat.number t.1.seat.seats
        × IsFirst 1 t.1.seat.seat) }
    ensures told { IfOk result (λ t. Tells t.1) }
{
    let words = first_words(alloc, sizes)?;
    let room = take_room(alloc, sizes)?;
    let (table, seat) = Table::<NodeRows>::of_words(alloc, &words, sizes)?;
    let store = Store {
        table,
        sizes: *sizes,
        first_row: first_row(sizes),
        row_size: row_size(sizes),
    };
    let seat = Seat {
        seat,
        number: 0,
        seats: sizes.seats,
    };
    Ok((store, new_pass(seat, sizes.rows, room)))
}

// Pass k, split off the first.
fn next_pass(store: &Store, first: &mut Pass, k: u32, room: Room) -> Pass
    requires store { IsOpen store.now }
    requires below { k < store.now.sizes.seats }
    requires first { IsNew store.now.table.shared.table_id store.now.sizes 0 first.old.seat.seat
        first.old.seat.number first.old.seat.seats
        × IsFirst k first.old.seat.seat }
    requires marks { room.marks ≡ replicate store.now.sizes.rows false }
    requires nexts { store.now.sizes.rows ≤ vec_capacity room.nexts }
    requires heads { store.now.sizes.buckets ≤ vec_capacity room.heads }
    ensures first { IsNew store.now.table.shared.table_id store.now.sizes 0 first.new.seat.seat
        first.new.seat.number first.new.seat.seats
        × IsFirst (k + 1) first.new.seat.seat }
    ensures told { Tells first.old → Tells first.new }
    ensures new { IsNew store.now.table.shared.table_id store.now.sizes k result.seat.seat
        result.seat.number result.seat.seats }
    ensures new_told { Tells result }
{
    let seat = store.table.shared.split_seat::<Deal>(&mut first.seat.seat);
    let seat = Seat {
        seat,
        number: k,
        seats: first.seat.seats,
    };
    new_pass(seat, store.sizes.rows, room)
}

// The passes after the first, in order, split off it.
fn rest_of(alloc: Global, store: &Store, first: &mut Pass) -> Result<Vec<Pass>, Memory>
    requires store { IsOpen store.now }
    requires first { IsNew store.now.table.shared.table_id store.now.sizes 0 first.old.seat.seat
        first.old.seat.number first.old.seat.seats
        × IsFirst 1 first.old.seat.seat }
    requires told { Tells first.old }
    ensures first { IfOk result
        (λ _. IsNew store.now.table.shared.table_id store.now.sizes 0 first.new.seat.seat
        first.new.seat.number first.new.seat.seats) }
    ensures told { IfOk result (λ _. Tells first.new) }
    ensures rest { IfOk result
        (λ ps. (n : ℕ) × (n + 1 ≡ store.now.sizes.seats) × EachPlace
        (λ j p. IsNew store.now.table.shared.table_id store.now.sizes (j + 1) p.seat.seat
        p.seat.number p.seat.seats) n ps.items) }
    ensures rest_told { IfOk result (λ ps. All Tells ps.items) }
{
    let mut rest = Vec::new(alloc);
    for k in 1..store.sizes.seats {
        let room = take_room(alloc, &store.sizes)?;
        rest.push(next_pass(store, first, k, room))?;
    }
    Ok(rest)
}

impl Store {
    /// A new store of these sizes, without terms, and its passes in order, each of them out. There
    /// are at most 262,144 rows and as many buckets, 16 passes, 65,536 protected rows of each pass,
    /// and 16 arguments of a term.
    pub fn make(alloc: Global, sizes: Sizes) -> Result<(Store, Vec<Pass>), Memory>
        requires { MaySize sizes }
        ensures store { IfOk result (λ t. IsOpen t.0 × (t.0.sizes ≡ sizes)) }
        ensures passes { IfOk result
            (λ t. EachPlace
            (λ j p. IsNew t.0.table.shared.table_id sizes j p.seat.seat p.seat.number p.seat.seats)
            sizes.seats t.1.items) }
        ensures ready { IfOk result (λ t. All (λ p. IsSeated t.0 p × IsOut (view_of p)) t.1.items) }
        ensures told { IfOk result (λ t. All Tells t.1.items) }
    {
        let (store, mut first) = first_pass(alloc, &sizes)?;
        let mut passes = rest_of(alloc, &store, &mut first)?;
        passes.insert(0, first)?;
        Ok((store, passes))
    }
}
