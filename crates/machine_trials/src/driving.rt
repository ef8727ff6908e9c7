//! A store with the steps that it was driven by.
ghost use Rattle.store_model.specs.NewStore.{MaySize};

use crate::next_steps::{constant, integer, next_step, over};
use faults::Memory;
use history_core::Entry;
use lock_core::{LockStep, Phase};
use std::alloc::Global;
use std::collections::LinkedList;
use store_core::StoreState;
use store_model::{Content, Place, Sizes, StoreStep};

/// Two rows, one bucket, two seats.
pub(crate) const SMALL: Sizes = Sizes {
    rows: 2,
    buckets: 1,
    start: 1,
    seats: 2,
    depth: 4,
    arity: 1,
    first: 1,
};

/// What a seat does, in one step or more.
#[derive(Clone, Copy)]
pub(crate) enum Act {
    Lock(LockStep),
    /// Shared access, up to its first creation.
    Enter,
    /// The loads that begin a granted access.
    LoadEntry,
    /// The first step of a creation of a constant.
    Begin(u32),
    /// So many more steps of a creation, up to its end.
    Go(u32),
    /// A creation of a constant.
    Make(u32),
    /// A creation of a symbol over a row.
    MakeOver(u32, u32),
    /// A creation of an integer.
    MakeInteger(u64),
    /// At this place, this row is protected as the last one.
    Protect(u32, u32),
    /// The loads that begin a collection.
    LoadFirst,
    /// All loads of a collection.
    LoadAll,
    /// A store of a collection.
    Store(Place, u64),
}

/// A store, the steps of it that are listed, and how many steps were out of place or left an
/// unsound history.
#[derive(Drop)]
pub(crate) struct Driven {
    pub(crate) store: StoreState,
    pub(crate) sizes: Sizes,
    pub(crate) steps: Vec<(u32, StoreStep)>,
    pub(crate) alloc: Global,
    pub(crate) refused: u32,
}

/// The phase of a seat; one that isn't there is out.
pub(crate) fn phase_of(store: &StoreState, seat: u32) -> Phase {
    if seat < store.lock().count() {
        store.lock().seat(seat).phase
    } else {
        Phase::Out
    }
}

// The step by which a collection stores a word; None for a word that it doesn't store.
fn store_of(place: Place, value: u64) -> Option<StoreStep> {
    match place {
        Place::Next(row) => Some(StoreStep::StoreNext { row, value }),
        Place::Bucket(bucket) => Some(StoreStep::StoreBucket { bucket, value }),
        Place::FreePlace(index) => Some(StoreStep::StoreFreePlace { index, value }),
        Place::FreeCount => Some(StoreStep::StoreFreeCount(value)),
        Place::Base => Some(StoreStep::StoreBase(value)),
        Place::InUse => Some(StoreStep::StoreInUse(value)),
        Place::Claim => Some(StoreStep::StoreClaim(value)),
        _ => None,
    }
}

impl Driven {
    fn new(alloc: Global, sizes: Sizes) -> Result<Driven, Memory>
        requires { MaySize sizes }
    {
        Ok(Driven {
            store: StoreState::new(alloc, sizes)?,
            sizes,
            steps: Vec::new(alloc),
            alloc,
            refused: 0,
        })
    }

    /// A new store after these acts.
    pub(crate) fn after(alloc: Global, sizes: Sizes, acts: &[(u32, Act)]) -> Result<Driven, Memory>
        requires { MaySize sizes }
    {
        let mut driven = Driven::new(alloc, sizes)?;
        driven.acts(acts)?;
        Ok(driven)
    }

    /// Acts, each of a seat.
    pub(crate) fn acts(&mut self, acts: &[(u32, Act)]) -> Result<(), Memory> {
        for (seat, act) in acts {
            self.act(*seat, *act)?;
        }
        Ok(())
    }

    fn act(&mut self, seat: u32, act: Act) -> Result<(), Memory> {
        match act {
            Act::Lock(step) => self.step(seat, StoreStep::Lock(step)),
            Act::Enter => self.enter(seat),
            Act::LoadEntry => self.load_entry(seat),
            Act::Begin(symbol) => self.begin(seat, constant(self.alloc, symbol)),
            Act::Go(times) => self.go(seat, times),
            Act::Make(symbol) => self.create(seat, constant(self.alloc, symbol)),
            Act::MakeOver(symbol, row) => self.create(seat, over(self.alloc, symbol, row)?),
            Act::MakeInteger(value) => self.create(seat, integer(self.alloc, value)),
            Act::Protect(place, row) => self.protect(seat, place, row),
            Act::LoadFirst => self.load_first(seat),
            Act::LoadAll => self.load_all(seat),
            Act::Store(place, value) => self.store_word(seat, place, value),
        }
    }

    fn step(&mut self, seat: u32, step: StoreStep) -> Result<(), Memory> {
        self.steps.push((seat, step.clone()?))?;
        self.unlisted(seat, step)
    }

    /// A step that isn't listed.
    pub(crate) fn unlisted(&mut self, seat: u32, step: StoreStep) -> Result<(), Memory> {
        if !self.store.apply(seat, step)? {
            self.refuse();
        }
        Ok(())
    }

    /// One more fault.
    pub(crate) fn refuse(&mut self) {
        self.refused = self.refused.wrapping_add(1);
    }

    fn enter(&mut self, seat: u32) -> Result<(), Memory> {
        self.step(seat, StoreStep::Lock(LockStep::Raise))?;
        self.step(seat, StoreStep::Lock(LockStep::Look))?;
        self.load_entry(seat)
    }

    fn load_entry(&mut self, seat: u32) -> Result<(), Memory> {
        self.step(seat, StoreStep::LoadBase)?;
        self.step(seat, StoreStep::LoadInUse)
    }

    // A creation's first step, in bucket 0.
    fn begin(&mut self, seat: u32, content: Content) -> Result<(), Memory> {
        self.step(seat, StoreStep::LoadBucket { bucket: 0, content })
    }

    fn go(&mut self, seat: u32, times: u32) -> Result<(), Memory> {
        for _time in 0..times {
            if let Some(step) = self.next(seat) {
                self.step(seat, step)?;
            }
        }
        Ok(())
    }

    // The next step of a seat's creation in bucket 0.
    fn next(&self, seat: u32) -> Option<StoreStep> {
        match self.store.view(seat) {
            Some(view) => next_step(view, 0),
            None => None,
        }
    }

    // A creation in bucket 0, to its end.
    fn create(&mut self, seat: u32, content: Content) -> Result<(), Memory> {
        self.begin(seat, content)?;
        self.go(seat, 30)
    }

    fn protect(&mut self, seat: u32, place: u32, row: u32) -> Result<(), Memory> {
        self.step(seat, StoreStep::StoreRoot { place, row })?;
        self.step(seat, StoreStep::StoreRootCount(place.wrapping_add(1)))
    }

    // A store of a collection; a fault for a word that none stores.
    fn store_word(&mut self, seat: u32, place: Place, value: u64) -> Result<(), Memory> {
        if let Some(step) = store_of(place, value) {
            return self.step(seat, step);
        }
        self.refuse();
        Ok(())
    }

    /// Stores of a collection by seat 0.
    pub(crate) fn stores(&mut self, words: &[(Place, u64)]) -> Result<(), Memory> {
        for (place, value) in words {
            self.store_word(0, *place, *value)?;
        }
        Ok(())
    }

    /// Whether this store of the claim by seat 0 is in place, and so ends the collection.
    pub(crate) fn ends(&mut self, claim: u64) -> Result<bool, Memory> {
        self.store.apply(0, StoreStep::StoreClaim(claim))
    }

    fn load(&mut self, seat: u32, place: Place) -> Result<(), Memory> {
        self.step(seat, StoreStep::LoadAny(place))
    }

    fn load_first(&mut self, seat: u32) -> Result<(), Memory> {
        self.load(seat, Place::Base)?;
        self.load(seat, Place::Claim)?;
        self.load(seat, Place::FreeCount)
    }

    // In a table of rows for two arguments.
    fn load_all(&mut self, seat: u32) -> Result<(), Memory> {
        self.load_first(seat)?;
        self.load_buckets(seat)?;
        for row in 0..self.sizes.rows {
            self.load_row(seat, row)?;
        }
        for j in 0..self.sizes.seats {
            self.load_roots(seat, j)?;
        }
        Ok(())
    }

    fn load_buckets(&mut self, seat: u32) -> Result<(), Memory> {
        self.load(seat, Place::InUse)?;
        for b in 0..self.sizes.buckets {
            self.load(seat, Place::Bucket(b))?;
        }
        Ok(())
    }

    fn load_row(&mut self, seat: u32, row: u32) -> Result<(), Memory> {
        self.load(seat, Place::FreePlace(row))?;
        for k in 0..4 {
            self.load(seat, Place::RowWord(row, k))?;
        }
        self.load(seat, Place::Birth(row))?;
        self.load(seat, Place::Next(row))
    }

    fn load_roots(&mut self, seat: u32, of: u32) -> Result<(), Memory> {
        self.load(seat, Place::RootCount(of))?;
        for k in 0..self.sizes.depth {
            self.load(seat, Place::Root(of, k))?;
        }
        Ok(())
    }
}

/// Whether a seat is there and has noted exactly this.
pub(crate) fn has_noted(store: &StoreState, seat: u32, entries: &LinkedList<Entry>) -> bool {
    match store.view(seat) {
        Some(view) => view.entries == *entries,
        None => false,
    }
}
