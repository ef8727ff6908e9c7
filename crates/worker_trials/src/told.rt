// A store of a test, which tells what is done with it.
ghost use Rattle.std.specs.Prelude.{IfOk};
ghost use Rattle.plain_store.specs.Contents.{store_of};
ghost use Rattle.rewrite_workers.specs.Trials.{IsEmptyDesk};

use faults::Memory;
use plain_store::PlainStore;
use std::alloc::Global;
use term_model::{Head, Row};
use terms_api::{BuildFault, Deep, Terms};

/// Is told what a desk does. It is shared by all desks.
pub(crate) trait Hears: Sync {
    /// The desk with this number goes inside.
    fn enters(&self, desk: u32);

    /// The desk with this number is about to build.
    fn builds(&self, desk: u32);

    /// The desk with this number goes outside.
    fn leaves(&self, desk: u32);
}

/// A store of one thread with a number, and who is told what it does.
#[derive(Drop)]
pub(crate) struct Told<'a, H> {
    store: PlainStore,
    number: u32,
    hears: &'a H,
}

impl<'a, H: Hears> Told<'a, H> {
    /// An empty store, for one that is outside, of so many rows, with 8 places on its stack.
    #[tactic(auto, using(rewrite_workers::proofs::Trying::empty_desk))]
    pub(crate) fn new(alloc: Global, rows: u32, number: u32, hears: &'a H) -> Result<Self, Memory>
        ensures { IfOk result (λ told. IsEmptyDesk rows (store_of told.store)) }
    {
        Ok(Told {
            store: PlainStore::new(alloc, rows, 8, 2)?,
            number,
            hears,
        })
    }
}

impl<'a, H: Hears> Terms for Told<'a, H> {
    ghost use Rattle.plain_store.specs.Contents.{store_of, IsSame, same_itself, same_turn};

    ghost store = { λ t. store_of t.store };

    ghost same = { λ t u. IsSame t.store u.store };

    ghost same_as_itself = { λ t. same_itself t.store };

    ghost same_in_turn = { λ t u v. same_turn t.store u.store v.store };

    fn enter(&mut self) {
        self.hears.enters(self.number);
        self.store.enter();
    }

    fn leave(&mut self) {
        self.hears.leaves(self.number);
        self.store.leave();
    }

    fn breathe(&mut self) {
        self.store.breathe();
    }

    fn depth(&self) -> u32 {
        self.store.depth()
    }

    fn room(&self) -> u32 {
        self.store.room()
    }

    fn at(&mut self, i: u32) -> Row {
        self.store.at(i)
    }

    fn head(&mut self, row: Row) -> Head {
        self.store.head(row)
    }

    fn count(&mut self, row: Row) -> u32 {
        self.store.count(row)
    }

    fn child(&mut self, row: Row, j: u32) -> Row {
        self.store.child(row, j)
    }

    fn push(&mut self, row: Row) -> Result<(), Deep> {
        self.store.push(row)
    }

    /// Tells first that it builds.
    fn build(&mut self, head: Head, n: u32) -> Result<(), BuildFault> {
        self.hears.builds(self.number);
        self.store.build(head, n)
    }

    fn keep(&mut self, from: u32, top: u32) {
        self.store.keep(from, top);
    }

    fn epoch(&self) -> Option<u64> {
        self.store.epoch()
    }
}
