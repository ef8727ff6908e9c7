//! A store of one thread that tells what is done with it: its builds, its sweeps, its load, and how
//! often others are let in.

ghost use Rattle.std.specs.Prelude.{◌≡◌, max, true, IfOk};
ghost use Rattle.terms_api.specs.Terms.{IsHeld};
ghost use Rattle.plain_store.specs.Contents.{empty, store_of, IsSame};

use faults::Memory;
use plain_store::PlainStore;
use std::alloc::Global;
use term_model::{Head, Row};
use terms_api::{BuildFault, Deep, Terms};

/// What was done with a store.
#[derive(Clone, Copy, Debug, PartialEq, Eq)]
pub(crate) struct Counts {
    /// How many trees were built, and how many builds were refused.
    pub(crate) builds: u32,
    pub(crate) refusals: u32,
    /// How many builds lost a row.
    pub(crate) sweeps: u32,
    /// The most different trees that were protected at once.
    pub(crate) load: usize,
    /// How often others were let in, and the most builds in a row without that.
    pub(crate) breaths: u32,
    pub(crate) longest: u32,
}

impl Counts {
    fn new() -> Self {
        Counts {
            builds: 0,
            refusals: 0,
            sweeps: 0,
            load: 0,
            breaths: 0,
            longest: 0,
        }
    }
}

/// A store with the counts of what was done with it, a mark for each row, the epoch that was seen
/// last, and how many trees were built since others were let in.
#[derive(Drop)]
pub(crate) struct Counting {
    store: PlainStore,
    counts: Counts,
    marks: Vec<bool>,
    epoch: Option<u64>,
    in_a_row: u32,
}

/// Marks the rows that can be reached from one, going down so many levels.
fn mark<T: Terms>(row: Row, levels: usize, marks: &mut [bool], terms: &mut T)
    requires inside { (T.store terms.old).inside ≡ true }
    requires held { IsHeld (T.store terms.old) row }
    ensures unchanged { T.store terms.new ≡ T.store terms.old }
    ensures same { T.same terms.old terms.new }
{
    let count = terms.count(row);
    let at = row.0 as usize;
    if levels == 0 || at >= marks.len() || marks[at] {
        return;
    }
    marks[at] = true;
    for place in 0..count {
        let argument = terms.child(row, place);
        mark(argument, levels - 1, marks, terms);
    }
}

/// How many rows can be reached from the stack: as many different trees are protected.
fn protected<T: Terms>(marks: &mut [bool], terms: &mut T) -> usize
    requires inside { (T.store terms.old).inside ≡ true }
    ensures unchanged { T.store terms.new ≡ T.store terms.old }
    ensures same { T.same terms.old terms.new }
{
    let places = terms.depth();
    for mark in marks.iter_mut() {
        *mark = false;
    }
    let levels = marks.len();
    'places: for place in 0..places {
        let row = terms.at(place);
        mark(row, levels, marks, terms);
    }
    marks.iter().filter(|mark| **mark).count()
}

impl Counting {
    /// An empty store, for one that is outside, of so many rows and places of the stack.
    pub(crate) fn new(alloc: Global, rows: u32, places: u32, widest: u32) -> Result<Self, Memory>
        ensures { IfOk result (λ counting. counting.store ≡ empty rows places (max widest 2)) }
    {
        let marks = vec![in alloc; false; rows as usize]?;
        Ok(Counting {
            store: PlainStore::new(alloc, rows, places, widest)?,
            counts: Counts::new(),
            marks,
            epoch: Some(0),
            in_a_row: 0,
        })
    }

    pub(crate) fn counts(&self) -> Counts {
        self.counts
    }

    /// Looks at what is protected, and whether a row was lost since the last look.
    pub(crate) fn look(&mut self)
        requires inside { (store_of self.old.store).inside ≡ true }
        ensures unchanged { store_of self.new.store ≡ store_of self.old.store }
        ensures same { IsSame self.old.store self.new.store }
    {
        let epoch = self.store.epoch();
        if epoch != self.epoch {
            self.epoch = epoch;
            self.counts.sweeps = self.counts.sweeps.saturating_add(1);
        }
        let load = protected(&mut self.marks, &mut self.store);
        self.counts.load = self.counts.load.max(load);
    }

    fn count_build(&mut self, is_built: bool)
        ensures { self.new.store ≡ self.old.store }
    {
        if is_built {
            self.counts.builds = self.counts.builds.saturating_add(1);
            self.in_a_row = self.in_a_row.saturating_add(1);
            self.counts.longest = self.counts.longest.max(self.in_a_row);
        } else {
            self.counts.refusals = self.counts.refusals.saturating_add(1);
        }
    }
}

impl Terms for Counting {
    ghost use Rattle.plain_store.specs.Contents.{store_of, IsSame, same_itself, same_turn};

    ghost store = { λ c. store_of c.store };

    ghost same = { λ c d. IsSame c.store d.store };

    ghost same_as_itself = { λ c. same_itself c.store };

    ghost same_in_turn = { λ b c d. same_turn b.store c.store d.store };

    fn enter(&mut self) {
        self.store.enter();
    }

    fn leave(&mut self) {
        self.look();
        self.store.leave();
    }

    fn breathe(&mut self) {
        self.look();
        self.counts.breaths = self.counts.breaths.saturating_add(1);
        self.in_a_row = 0;
        self.store.breathe();
    }

    fn depth(&self) -> u32 {
        self.store.depth()
    }

    fn room(&self) -> u32 {
        self.store.room()
    }

    fn at(&mut self, i: u32) -> Row {
        self.store.at(i)
    }

    fn head(&mut self, row: Row) -> Head {
        self.store.head(row)
    }

    fn count(&mut self, row: Row) -> u32 {
        self.store.count(row)
    }

    fn child(&mut self, row: Row, j: u32) -> Row {
        self.store.child(row, j)
    }

    fn push(&mut self, row: Row) -> Result<(), Deep> {
        self.store.push(row)
    }

    fn build(&mut self, head: Head, n: u32) -> Result<(), BuildFault> {
        let _ = self.store.depth();
        self.look();
        let answer = self.store.build(head, n);
        self.count_build(answer.is_ok());
        answer
    }

    /// Looks at what was protected, and counts the tree where it is built. What isn't built is no
    /// refusal.
    fn try_build(&mut self, head: Head, n: u32) -> bool {
        let _ = self.store.depth();
        self.look();
        let is_built = self.store.try_build(head, n);
        if is_built {
            self.count_build(true);
        }
        is_built
    }

    /// Looks at what was protected, and lets places go.
    fn keep(&mut self, from: u32, top: u32) {
        self.look();
        self.store.keep(from, top);
    }

    fn epoch(&self) -> Option<u64> {
        self.store.epoch()
    }
}
