// What the rows have, in flat arrays.
ghost use Rattle.std.specs.Prelude.{◌≡◌, ◌+◌, ◌-◌, ◌++◌, ◌<◌, ◌≤◌, ◌*◌, ◌^◌, ◌↔◌, Option, Some, None, IfOk, IsSome, IsTrue, true, false, length, take, drop, replicate, slice_set, vec_capacity};
ghost use Rattle.std.specs.Option.{option_map};
ghost use Rattle.plain_store.specs.Pairs.{filled, no_row};
ghost use Rattle.plain_store.specs.Flat.{written, reached};
ghost use Rattle.plain_store.specs.Slots.{free_slots, slot_at, children, with_slot, kept_if};

use crate::hashing::same_head;
use crate::pairs::{EMPTY, Pair, pair_of, same_pair};
use faults::Memory;
use std::alloc::Global;
use std::marker::Model;
use term_model::{Head, Row};

/// Whether a row is in use, its head then, and how many arguments it has. These stand here, if they
/// are at most two, so that one place of the memory tells all of most rows.
#[derive(Clone, Copy)]
pub(crate) struct Entry {
    head: Head,
    pair: Pair,
    count: u32,
    used: bool,
}

// The pair of a free row. No row in use without arguments has it.
const OTHER: Pair = [Row(0), Row(u32::MAX)];

const FREE: Entry = Entry {
    head: Head::Nil,
    pair: OTHER,
    count: 0,
    used: false,
};

/// Rows with room for so many arguments each. Contracts see what each row has. Entries and places
/// are there up to the last row that ever needed them, so one that was never in use isn't written.
#[derive(Drop)]
pub(crate) struct Table {
    entries: Vec<Entry>,
    places: Vec<Row>,
    rows: u32,
    widest: u32,
}

impl Model for Table {
    ghost use Rattle.plain_store.specs.Slots.{Slots};
    ghost use Rattle.plain_store.specs.Rooms.{slots_in, IsTable};

    ghost Value = { Slots };

    ghost view = { slots_in };

    ghost invariant = { IsTable };
}

fn same_rows(rows: &[Row], others: &[Row]) -> bool
    ensures { IsTrue result ↔ (rows.now ≡ others.now) }
{
    if rows.len() != others.len() {
        return false;
    }
    for i in 0..rows.len() {
        if rows[i].0 != others[i].0 {
            return false;
        }
    }
    true
}

// So many rows from a place on.
fn part(places: &[Row], from: usize, count: usize) -> &[Row]
    requires { from + count ≤ length places.now }
    ensures { result.now ≡ take count (drop from places.now) }
{
    &places[from..from + count]
}

// Writes rows from a place on.
fn write(places: &mut [Row], from: usize, rows: &[Row])
    requires { from + length rows.now ≤ length places.old }
    ensures written { places.new ≡ written places.old from rows.now }
    ensures size { length places.new ≡ length places.old }
{
    let part = &mut places[from..from + rows.len()];
    part.copy_from_slice(rows);
}

// Writes the entry of a row. That of a new row mostly comes right behind the last.
#[inline(always)]
fn put(entries: &mut Vec<Entry>, row: Row, entry: Entry)
    requires { row.0 < vec_capacity entries.old }
    ensures items { entries.new.items ≡ slice_set (reached row.0 entries.old.items) row.0 entry }
    ensures room { vec_capacity entries.old ≤ vec_capacity entries.new }
{
    if entries.len() == row.0 as usize {
        entries.push_reserved(entry);
    } else {
        put_apart(entries, row, entry);
    }
}

// The same wherever the row is.
#[inline(never)]
fn put_apart(entries: &mut Vec<Entry>, row: Row, entry: Entry)
    requires { row.0 < vec_capacity entries.old }
    ensures items { entries.new.items ≡ slice_set (reached row.0 entries.old.items) row.0 entry }
    ensures room { vec_capacity entries.old ≤ vec_capacity entries.new }
{
    reach(entries, row);
    entries[row.0 as usize] = entry;
}

// Makes entries of free rows up to this row's, where they lack.
fn reach(entries: &mut Vec<Entry>, row: Row)
    requires { row.0 < vec_capacity entries.old }
    ensures items { entries.new.items ≡ reached row.0 entries.old.items }
    ensures room { vec_capacity entries.old ≤ vec_capacity entries.new }
{
    if entries.len() <= row.0 as usize {
        let _ = entries.resize(row.0 as usize + 1, FREE);
    }
}

// Makes so many places, where they lack.
fn reach_places(places: &mut Vec<Row>, end: usize)
    requires { end ≤ vec_capacity places.old }
    ensures items { places.new.items
        ≡ places.old.items ++ replicate (end - length places.old.items) no_row }
    ensures room { vec_capacity places.old ≤ vec_capacity places.new }
{
    if places.len() < end {
        let _ = places.resize(end, Row(0));
    }
}

impl Table {
    /// So many free rows. All their memory is taken here.
    pub(crate) fn new(alloc: Global, rows: u32, widest: u32) -> Result<Table, Memory>
        ensures { IfOk result (λ table. table ≡ free_slots rows widest) }
    {
        let entries = Vec::with_capacity(alloc, rows as usize)?;
        let places = Vec::with_capacity(alloc, rows as usize * widest as usize)?;
        Ok(Table {
            entries,
            places,
            rows,
            widest,
        })
    }

    /// Whether the row has this head over these rows.
    #[inline(always)]
    pub(crate) fn is(&self, row: Row, head: Head, arguments: &[Row]) -> bool
        ensures { IsTrue result ↔ (slot_at self.now row ≡ Some (head, arguments.now)) }
    {
        match pair_of(arguments) {
            Some(pair) => self.is_pair(row, head, pair, arguments.len() as u32),
            None => self.is_rows(row, head, arguments),
        }
    }

    /// Whether the row has this head over so many rows, which stand in the pair. The entry of a
    /// free row has another pair, so it isn't asked whether the row is in use.
    #[inline(always)]
    pub(crate) fn is_pair(&self, row: Row, head: Head, pair: Pair, count: u32) -> bool
        requires few { count ≤ 2 }
        requires filled { pair ≡ filled (take count pair) }
        ensures { IsTrue result ↔ (slot_at self.now row ≡ Some (head, take count pair)) }
    {
        if row.0 as usize >= self.entries.len() {
            return false;
        }
        let entry = &self.entries[row.0 as usize];
        if entry.count != count {
            return false;
        }
        same_pair(entry.pair, pair) && same_head(entry.head, head)
    }

    // Whether the row has this head over these rows, however many.
    #[inline(never)]
    fn is_rows(&self, row: Row, head: Head, arguments: &[Row]) -> bool
        ensures { IsTrue result ↔ (slot_at self.now row ≡ Some (head, arguments.now)) }
    {
        if row.0 >= self.len() {
            return false;
        }
        match self.head(row) {
            Some(own) => same_head(own, head) && same_rows(self.arguments(row), arguments),
            None => false,
        }
    }

    /// Gives the row a head and arguments, for which it has the room.
    #[inline(always)]
    pub(crate) fn set(&mut self, row: Row, head: Head, arguments: &[Row])
        requires below { row.0 < length self.old.slots }
        requires room { length arguments.now ≤ self.old.widest }
        ensures { self.new ≡ with_slot self.old row (Some (head, arguments.now)) }
    {
        match pair_of(arguments) {
            Some(pair) => self.set_pair(row, head, pair, arguments.len() as u32),
            None => self.set_rows(row, head, arguments),
        }
    }

    // Gives the row a head and at most two arguments.
    #[inline(always)]
    fn set_pair(&mut self, row: Row, head: Head, pair: Pair, count: u32)
        requires below { row.0 < length self.old.slots }
        requires room { count ≤ self.old.widest }
        requires few { count ≤ 2 }
        requires filled { pair ≡ filled (take count pair) }
        ensures { self.new ≡ with_slot self.old row (Some (head, take count pair)) }
    {
        let entry = Entry {
            head,
            pair,
            count,
            used: true,
        };
        put(&mut self.entries, row, entry);
    }

    // Gives the row a head and more than two arguments.
    #[inline(never)]
    fn set_rows(&mut self, row: Row, head: Head, arguments: &[Row])
        requires below { row.0 < length self.old.slots }
        requires room { length arguments.now ≤ self.old.widest }
        requires many { 2 < length arguments.now }
        ensures { self.new ≡ with_slot self.old row (Some (head, arguments.now)) }
    {
        let from = row.0 as usize * self.widest as usize;
        reach_places(&mut self.places, from + self.widest as usize);
        write(&mut self.places, from, arguments);
        let entry = Entry {
            head,
            pair: EMPTY,
            count: arguments.len() as u32,
            used: true,
        };
        put(&mut self.entries, row, entry);
    }

    /// Frees the row unless it is to be kept, and says whether it wasn't free.
    pub(crate) fn keep_if(&mut self, row: Row, kept: bool) -> bool
        requires { row.0 < length self.old.slots }
        ensures kept { self.new ≡ with_slot self.old row (kept_if kept (slot_at self.old row)) }
        ensures none { result ≡ false → self.new ≡ self.old }
        ensures some { result ≡ true → IsSome (slot_at self.old row) × (kept ≡ false) }
    {
        if kept || self.head(row).is_none() {
            return false;
        }
        self.entries[row.0 as usize] = FREE;
        true
    }

    /// How many rows there are.
    pub(crate) fn len(&self) -> u32
        ensures { result ≡ length self.now.slots }
    {
        self.rows
    }

    /// The head of a row, which a free row doesn't have.
    #[inline(always)]
    pub(crate) fn head(&self, row: Row) -> Option<Head>
        requires { row.0 < length self.now.slots }
        ensures { result ≡ option_map (λ n. n.0) (slot_at self.now row) }
    {
        if row.0 as usize >= self.entries.len() {
            return None;
        }
        let entry = self.entries[row.0 as usize];
        if entry.used { Some(entry.head) } else { None }
    }

    /// The rows of a row's arguments, none of a free row.
    #[inline(always)]
    pub(crate) fn arguments(&self, row: Row) -> &[Row]
        requires { row.0 < length self.now.slots }
        ensures arguments { result.now ≡ children self.now row }
        ensures fits { length result.now < 2 ^ 32 }
    {
        if row.0 as usize >= self.entries.len() {
            return &[];
        }
        let entry = &self.entries[row.0 as usize];
        let count = entry.count as usize;
        if count <= 2 {
            return part(&entry.pair, 0, count);
        }
        part(&self.places, row.0 as usize * self.widest as usize, count)
    }
}
