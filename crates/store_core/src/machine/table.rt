//! The words of a store, in their places.
ghost use Rattle.std.specs.Prelude.{◌≡◌, ◌+◌, ◌*◌, ◌<◌, ◌≤◌, ◌^◌, true, false, vec_len, replicate, MatchOption, IfOk};
ghost use Rattle.store_model.specs.Shown.{in_table, shown, total};
ghost use Rattle.store_model.specs.Machine.{widest};
ghost use Rattle.store_core.specs.Table.{IsPlaceOf};
ghost use Rattle.store_core.specs.Running.{IsBegun};
ghost use Rattle.store_model.specs.Words.{write};
ghost use Rattle.store_model.specs.declared.view.Place.{Place};
ghost use Rattle.store_model.specs.declared.view.Place.TheVariants.{FreePlace, Bucket, RowWord, Birth, Next, RootCount, Root};

use faults::Memory;
use std::alloc::Global;
use store_model::{Place, Sizes};

/// The words of a store. Those of the lock, before them, stay 0: the machine has the lock beside
/// them.
#[derive(Drop)]
pub(crate) struct Table {
    pub(crate) sizes: Sizes,
    pub(crate) words: Vec<u64>,
    ghost small: { total sizes < 2 ^ 62 },
    ghost whole: { vec_len words ≡ total sizes },
}

// How many words there are.
fn count_words(sizes: &Sizes) -> usize
    requires { total sizes.now < 2 ^ 62 }
    ensures { result ≡ total sizes.now }
{
    first_word(sizes)
        + 4
        + sizes.rows as usize
        + sizes.buckets as usize
        + rows_before(sizes, sizes.rows)
        + sizes.seats as usize * (sizes.depth as usize + 1)
}

// The first word past the lock's.
fn first_word(sizes: &Sizes) -> usize
    ensures { result ≡ 1 + 2 * sizes.now.seats }
{
    1 + 2 * sizes.seats as usize
}

// How many arguments a row has room for.
fn widest(sizes: &Sizes) -> usize
    ensures { result ≡ widest sizes.now }
{
    if sizes.arity < 2 {
        2
    } else {
        sizes.arity as usize
    }
}

// How many words the first rows have.
fn rows_before(sizes: &Sizes, row: u32) -> usize
    requires { (total sizes.now < 2 ^ 62) × (row ≤ sizes.now.rows) }
    ensures words { result ≡ row * (widest sizes.now + 4) }
    ensures within { result < 2 ^ 62 }
{
    if sizes.arity < 2 {
        row as usize * 6
    } else {
        row as usize * (sizes.arity as usize + 4)
    }
}

// Where a row begins.
fn row_start(sizes: &Sizes, row: u32) -> usize
    requires { (total sizes.now < 2 ^ 62) × (row < sizes.now.rows) }
    ensures word { result ≡ 1 + 2 * sizes.now.seats + 4 + sizes.now.rows + sizes.now.buckets
        + row * (widest sizes.now + 4) }
    ensures room { result < 2 ^ 63 }
{
    first_word(sizes) + 4 + sizes.rows as usize + sizes.buckets as usize + rows_before(sizes, row)
}

// Where a seat's protected rows begin: with their count.
fn roots_start(sizes: &Sizes, seat: u32) -> usize
    requires { (total sizes.now < 2 ^ 62) × (seat < sizes.now.seats) }
    ensures word { result ≡ 1 + 2 * sizes.now.seats + 4 + sizes.now.rows + sizes.now.buckets
        + sizes.now.rows * (widest sizes.now + 4) + seat * (sizes.now.depth + 1) }
    ensures room { result < 2 ^ 63 }
{
    first_word(sizes)
        + 4
        + sizes.rows as usize
        + sizes.buckets as usize
        + rows_before(sizes, sizes.rows)
        + seat as usize * (sizes.depth as usize + 1)
}

// The word of a place, where the table has it.
fn index(sizes: &Sizes, place: &Place) -> Option<usize>
    requires { total sizes.now < 2 ^ 62 }
    ensures { MatchOption result (in_table sizes.now place.now ≡ false)
        (λ k. IsPlaceOf sizes.now place.now k) }
{
    match place {
        Place::Base => Some(first_word(sizes)),
        Place::FreeCount => Some(first_word(sizes) + 1),
        Place::Claim => Some(first_word(sizes) + 2),
        Place::InUse => Some(first_word(sizes) + 3),
        Place::FreePlace(i) => free_place(sizes, *i),
        Place::Bucket(b) => bucket(sizes, *b),
        Place::RowWord(r, k) => row_word(sizes, *r, *k),
        Place::Birth(r) => birth(sizes, *r),
        Place::Next(r) => next(sizes, *r),
        Place::RootCount(j) => root_count(sizes, *j),
        Place::Root(j, k) => root(sizes, *j, *k),
    }
}

fn free_place(sizes: &Sizes, i: u32) -> Option<usize>
    requires { total sizes.now < 2 ^ 62 }
    ensures { MatchOption result (in_table sizes.now (FreePlace i) ≡ false)
        (λ w. IsPlaceOf sizes.now (FreePlace i) w) }
{
    if i >= sizes.rows {
        return None;
    }
    Some(first_word(sizes) + 4 + i as usize)
}

fn bucket(sizes: &Sizes, b: u32) -> Option<usize>
    requires { total sizes.now < 2 ^ 62 }
    ensures { MatchOption result (in_table sizes.now (Bucket b) ≡ false)
        (λ w. IsPlaceOf sizes.now (Bucket b) w) }
{
    if b >= sizes.buckets {
        return None;
    }
    Some(first_word(sizes) + 4 + sizes.rows as usize + b as usize)
}

fn row_word(sizes: &Sizes, r: u32, k: u32) -> Option<usize>
    requires { total sizes.now < 2 ^ 62 }
    ensures { MatchOption result (in_table sizes.now (RowWord r k) ≡ false)
        (λ w. IsPlaceOf sizes.now (RowWord r k) w) }
{
    if r >= sizes.rows || k as usize >= widest(sizes) + 2 {
        return None;
    }
    Some(row_start(sizes, r) + k as usize)
}

fn birth(sizes: &Sizes, r: u32) -> Option<usize>
    requires { total sizes.now < 2 ^ 62 }
    ensures { MatchOption result (in_table sizes.now (Birth r) ≡ false)
        (λ w. IsPlaceOf sizes.now (Birth r) w) }
{
    if r >= sizes.rows {
        return None;
    }
    Some(row_start(sizes, r) + widest(sizes) + 2)
}

fn next(sizes: &Sizes, r: u32) -> Option<usize>
    requires { total sizes.now < 2 ^ 62 }
    ensures { MatchOption result (in_table sizes.now (Next r) ≡ false)
        (λ w. IsPlaceOf sizes.now (Next r) w) }
{
    if r >= sizes.rows {
        return None;
    }
    Some(row_start(sizes, r) + widest(sizes) + 3)
}

fn root_count(sizes: &Sizes, j: u32) -> Option<usize>
    requires { total sizes.now < 2 ^ 62 }
    ensures { MatchOption result (in_table sizes.now (RootCount j) ≡ false)
        (λ w. IsPlaceOf sizes.now (RootCount j) w) }
{
    if j >= sizes.seats {
        return None;
    }
    Some(roots_start(sizes, j))
}

fn root(sizes: &Sizes, j: u32, k: u32) -> Option<usize>
    requires { total sizes.now < 2 ^ 62 }
    ensures { MatchOption result (in_table sizes.now (Root j k) ≡ false)
        (λ w. IsPlaceOf sizes.now (Root j k) w) }
{
    if j >= sizes.seats || k >= sizes.depth {
        return None;
    }
    Some(roots_start(sizes, j) + 1 + k as usize)
}

fn zero_words(alloc: Global, count: usize) -> Result<Vec<u64>, Memory>
    ensures items { IfOk result (λ v. v.items ≡ replicate count 0) }
    ensures len { IfOk result (λ v. vec_len v ≡ count) }
{
    Ok(vec![in alloc; 0; count]?)
}

impl Table {
    /// The words of a new store: each row is free.
    pub(crate) fn new(alloc: Global, sizes: &Sizes) -> Result<Table, Memory>
        requires { total sizes.now < 2 ^ 62 }
        ensures sizes { IfOk result (λ t. t.sizes ≡ sizes.now) }
        ensures words { IfOk result
            (λ t. IsBegun t.sizes t.sizes.rows (shown t.sizes t.words.items)) }
    {
        let zeros = Table::zeros(alloc, sizes)?;
        Ok(zeros.begun().with_free_places())
    }

    // All words are 0.
    fn zeros(alloc: Global, sizes: &Sizes) -> Result<Table, Memory>
        requires { total sizes.now < 2 ^ 62 }
        ensures sizes { IfOk result (λ t. t.sizes ≡ sizes.now) }
        ensures words { IfOk result (λ t. (p : Place) → shown t.sizes t.words.items p ≡ 0) }
    {
        let words = zero_words(alloc, count_words(sizes))?;
        Ok(Table {
            sizes: *sizes,
            words,
        })
    }

    // The single words are stored.
    fn begun(mut self) -> Table
        requires { (p : Place) → shown self.sizes self.words.items p ≡ 0 }
        ensures sizes { result.sizes ≡ self.sizes }
        ensures words { IsBegun self.sizes 0 (shown result.sizes result.words.items) }
    {
        let sizes = self.sizes;
        self.store(&Place::Base, sizes.first);
        self.store(&Place::FreeCount, u64::from(sizes.rows));
        self.store(&Place::InUse, u64::from(sizes.start));
        self
    }

    // The free places are stored.
    fn with_free_places(mut self) -> Table
        requires { IsBegun self.sizes 0 (shown self.sizes self.words.items) }
        ensures sizes { result.sizes ≡ self.sizes }
        ensures words { IsBegun self.sizes self.sizes.rows (shown self.sizes result.words.items) }
    {
        let rows = self.sizes.rows;
        for i in 0..rows {
            self.store(&Place::FreePlace(i), u64::from(i));
        }
        self
    }

    /// The word at a place; 0 where the table hasn't got it.
    pub(crate) fn load(&self, place: &Place) -> u64
        ensures { result ≡ shown self.now.sizes self.now.words.items place.now }
    {
        match index(&self.sizes, place) {
            Some(word) => self.words[word],
            None => 0,
        }
    }

    /// Whether the table has a place.
    pub(crate) fn has(&self, place: &Place) -> bool
        ensures { result ≡ in_table self.now.sizes place.now }
    {
        index(&self.sizes, place).is_some()
    }

    /// Stores a word at a place.
    pub(crate) fn store(&mut self, place: &Place, word: u64)
        requires { in_table self.old.sizes place.now ≡ true }
        ensures sizes { self.new.sizes ≡ self.old.sizes }
        ensures words { shown self.new.sizes self.new.words.items
            ≡ write (shown self.old.sizes self.old.words.items) place.now word }
    {
        if let Some(at) = index(&self.sizes, place) {
            self.words[at] = word;
        }
    }
}
