//! A store of one thread whose builds are compared with a list of terms.

ghost use Rattle.std.specs.Prelude.{◌≡◌, ◌≤◌, length, max, true, IfOk};
ghost use Rattle.plain_store.specs.Contents.{empty, store_of, IsSame};

use crate::reading::is_asked;
use faults::Memory;
use plain_rewriting::Term;
use plain_store::PlainStore;
use std::alloc::Global;
use term_model::{Head, Row};
use terms_api::{BuildFault, Deep, Terms};

/// A store, the trees that it is to build in their order, how many it has built, and whether each
/// tree that it was asked for was the next of them.
#[derive(Drop)]
pub(crate) struct Watched {
    store: PlainStore,
    wanted: Vec<Term>,
    built: usize,
    in_order: bool,
}

impl Watched {
    /// An empty store, for one that is outside, of so many rows and places of the stack.
    pub(crate) fn new(
        alloc: Global,
        rows: u32,
        places: u32,
        widest: u32,
        wanted: Vec<Term>,
    ) -> Result<Self, Memory>
        ensures { IfOk result (λ watched. watched.store ≡ empty rows places (max widest 2)) }
    {
        Ok(Watched {
            store: PlainStore::new(alloc, rows, places, widest)?,
            wanted,
            built: 0,
            in_order: true,
        })
    }

    /// How many trees were built.
    pub(crate) fn built(&self) -> usize {
        self.built
    }

    /// Whether the trees that were asked for are the wanted ones, in order.
    pub(crate) fn in_order(&self) -> bool {
        self.in_order
    }

    /// Compares a tree that is asked for with the next that is wanted.
    fn compare(&mut self, head: Head, n: u32)
        requires inside { (store_of self.old.store).inside ≡ true }
        requires places { n ≤ length (store_of self.old.store).stack }
        ensures unchanged { store_of self.new.store ≡ store_of self.old.store }
        ensures same { IsSame self.old.store self.new.store }
    {
        let is_next = match self.wanted.get(self.built) {
            Some(term) => is_asked(term, head, n, &mut self.store),
            None => false,
        };
        self.in_order = self.in_order && is_next;
    }

    fn count_build(&mut self, is_built: bool)
        ensures { self.new.store ≡ self.old.store }
    {
        if is_built {
            self.built = self.built.saturating_add(1);
        }
    }
}

impl Terms for Watched {
    ghost use Rattle.plain_store.specs.Contents.{store_of, IsSame, same_itself, same_turn};

    ghost store = { λ w. store_of w.store };

    ghost same = { λ w v. IsSame w.store v.store };

    ghost same_as_itself = { λ w. same_itself w.store };

    ghost same_in_turn = { λ u v w. same_turn u.store v.store w.store };

    fn enter(&mut self) {
        self.store.enter();
    }

    fn leave(&mut self) {
        self.store.leave();
    }

    fn breathe(&mut self) {
        self.store.breathe();
    }

    fn depth(&self) -> u32 {
        self.store.depth()
    }

    fn room(&self) -> u32 {
        self.store.room()
    }

    fn at(&mut self, i: u32) -> Row {
        self.store.at(i)
    }

    fn head(&mut self, row: Row) -> Head {
        self.store.head(row)
    }

    fn count(&mut self, row: Row) -> u32 {
        self.store.count(row)
    }

    fn child(&mut self, row: Row, j: u32) -> Row {
        self.store.child(row, j)
    }

    fn push(&mut self, row: Row) -> Result<(), Deep> {
        self.store.push(row)
    }

    /// Compares the tree with the next that is wanted, and builds it.
    fn build(&mut self, head: Head, n: u32) -> Result<(), BuildFault> {
        let _ = self.store.depth();
        self.compare(head, n);
        let answer = self.store.build(head, n);
        self.count_build(answer.is_ok());
        answer
    }

    /// Compares the tree with the next that is wanted, and builds it where that needs no collection.
    fn try_build(&mut self, head: Head, n: u32) -> bool {
        let _ = self.store.depth();
        self.compare(head, n);
        let is_built = self.store.try_build(head, n);
        self.count_build(is_built);
        is_built
    }

    fn keep(&mut self, from: u32, top: u32) {
        self.store.keep(from, top);
    }

    fn epoch(&self) -> Option<u64> {
        self.store.epoch()
    }
}
