// Where the rows are: those in use by their hashes, and the free ones.
ghost use Rattle.std.specs.Prelude.{◌≡◌, ◌+◌, ◌/◌, ◌^◌, ◌<◌, ◌≤◌, ◌↔◌, ◌++◌, [], ◌∷◌, IfOk, IfSome, IfNone, true, false, length, replicate, vec_capacity};
ghost use Rattle.plain_store.specs.Index.{home_of, tag_of, place_behind, word_at, filled_count, freed, taken, HasRoom, IsIndexed, IsLinked};

use faults::Memory;
use std::alloc::Global;
use std::marker::Model;
use term_model::Row;

/// The word of a place where no row stands.
pub(crate) const VACANT: u32 = u32::MAX;

/// How many places there are at first, if there may be as many.
const FIRST_PLACES: usize = 4096;

/// How many times as many there are when more are needed.
const GROWTH: usize = 4;

/// A table of hashed rows, each in the first place from that of its hash on which was vacant, and a
/// stack of free rows. The word of a place tells of most other rows that they aren't the one.
#[derive(Drop)]
pub(crate) struct Index {
    words: Vec<u32>,
    free: Vec<Row>,
    // of a hash's high half, the bits that are the place looked at first
    homes: u32,
    // of a hash's high half, the bits that a word may have beside the row
    tags: u32,
    // how many places there may be
    most: usize,
}

impl Model for Index {
    ghost use Rattle.plain_store.specs.Index.{Index};
    ghost use Rattle.plain_store.specs.Rooms.{index_of, IsIndex};

    ghost Value = { Index };

    ghost view = { index_of };

    ghost invariant = { IsIndex };
}

// Makes so many places, all vacant.
fn make_vacant(words: &mut Vec<u32>, places: usize)
    requires { places ≤ vec_capacity words.old }
    ensures items { words.new.items ≡ replicate places VACANT }
    ensures room { vec_capacity words.old ≤ vec_capacity words.new }
{
    words.clear();
    let _ = words.resize(places, VACANT);
}

// The high bits of a hash, which are mixed best.
#[inline(always)]
fn high(hash: u64) -> u32
    ensures { result ≡ hash / 2 ^ 32 }
{
    (hash >> 32) as u32
}

impl Index {
    /// Room for so many rows, and none of them. All the memory is taken here, and little of it
    /// written.
    pub(crate) fn new(alloc: Global, rows: u32) -> Result<Index, Memory>
        ensures none { IfOk result (λ x. IsIndexed [] x) }
        ensures room { IfOk result (λ x. HasRoom x rows) }
        ensures places { IfOk result (λ x. 0 < length x.words) }
    {
        let last = u32::MAX >> rows.saturating_sub(1).leading_zeros().saturating_sub(1);
        // `last` is at least `rows`; `max` spares the proof of it.
        let most = last.max(rows) as usize + 1;
        let first = most.min(FIRST_PLACES);
        let mut words = Vec::with_capacity(alloc, most)?;
        make_vacant(&mut words, first);
        Ok(Index {
            words,
            free: Vec::with_capacity(alloc, rows as usize)?,
            homes: (first - 1) as u32,
            tags: u32::MAX - rows,
            most,
        })
    }

    /// Whether so many rows fill at most half of the places, or there may be no more places.
    #[inline(always)]
    pub(crate) fn has_places(&self, rows: u32) -> bool
        requires { HasRoom self.now rows }
        ensures { result ≡ true → rows < length self.now.words }
    {
        rows as usize * 2 <= self.words.len() || self.words.len() >= self.most
    }

    /// Takes all rows away, and makes more places, enough for so many rows.
    pub(crate) fn grow(&mut self, rows: u32)
        requires room { HasRoom self.old rows }
        requires places { rows ≤ length self.old.words }
        ensures none { IsIndexed [] self.new }
        ensures tags { self.new.tags ≡ self.old.tags }
        ensures places { rows < length self.new.words }
    {
        let places = (self.words.len() * GROWTH).min(self.most);
        make_vacant(&mut self.words, places);
        self.free.clear();
        self.homes = (places - 1) as u32;
    }

    /// The place from which rows of this hash are looked for.
    #[inline(always)]
    pub(crate) fn home(&self, hash: u64) -> usize
        ensures home { result ≡ home_of self.now hash }
        ensures below { result < length self.now.words }
    {
        (high(hash) & self.homes) as usize
    }

    /// What the word of a row of this hash has beside the row.
    #[inline(always)]
    pub(crate) fn tag(&self, hash: u64) -> u32
        ensures tag { result ≡ tag_of self.now hash }
        ensures below { result ≤ self.now.tags }
    {
        high(hash) & self.tags
    }

    /// How many places there are.
    #[inline(always)]
    pub(crate) fn len(&self) -> usize
        ensures { result ≡ length self.now.words }
    {
        self.words.len()
    }

    /// The place behind this one. Behind the last comes the first.
    #[inline(always)]
    pub(crate) fn after(&self, place: usize) -> usize
        requires { place < length self.now.words }
        ensures after { result ≡ place_behind self.now place 1 }
        ensures below { result < length self.now.words }
    {
        let last = self.words.len() - 1;
        if place == last { 0 } else { place + 1 }
    }

    /// The word of a place.
    #[inline(always)]
    pub(crate) fn word(&self, place: usize) -> u32
        requires { place < length self.now.words }
        ensures { result ≡ word_at self.now place }
    {
        self.words[place]
    }

    /// Puts a row of this hash into the first vacant place.
    #[inline(always)]
    pub(crate) fn link(&mut self, hash: u64, row: Row)
        requires places { filled_count self.old.words < length self.old.words }
        requires row { HasRoom self.old (row.0 + 1) }
        ensures { IsLinked self.old self.new hash row }
    {
        let word = row.0 + self.tag(hash);
        let mut place = self.home(hash);
        for passed in 0..self.words.len() {
            let _ = passed;
            if self.words[place] == VACANT {
                self.words[place] = word;
                return;
            }
            place = self.after(place);
        }
    }

    /// Puts a row on the stack of free ones.
    #[inline(always)]
    pub(crate) fn free(&mut self, row: Row)
        requires { HasRoom self.old (length self.old.free + 1) }
        ensures { self.new ≡ freed self.old row }
    {
        let _ = self.free.push(row);
    }

    /// Whether there is a free row that was in use before.
    pub(crate) fn has_free(&self) -> bool
        ensures { (result ≡ false) ↔ (self.now.free ≡ []) }
    {
        !self.free.is_empty()
    }

    /// Takes the last free row.
    pub(crate) fn take_free(&mut self) -> Option<Row>
        ensures last { IfSome result (λ row. self.old.free ≡ self.new.free ++ row ∷ []) }
        ensures taken { self.new ≡ taken self.old }
        ensures none { IfNone result (self.old.free ≡ []) }
    {
        self.free.pop()
    }

    /// Takes all rows away.
    pub(crate) fn clear(&mut self)
        ensures none { IsIndexed [] self.new }
        ensures tags { self.new.tags ≡ self.old.tags }
        ensures places { length self.new.words ≡ length self.old.words }
    {
        self.words.fill(VACANT);
        self.free.clear();
    }
}
