// The store.
ghost use Rattle.std.specs.Prelude.{◌≡◌, ◌<◌, ◌≤◌, ◌⊎◌, ◌↔◌, IsTrue, IfOk, IfSome, IfNone, length, max};
ghost use Rattle.terms_api.specs.Terms.{HasTree, asked, last, IsSound, MayBuild, NeedsPlace};
ghost use Rattle.plain_store.specs.Hash.{hash};
ghost use Rattle.plain_store.specs.Slots.{some_count};
ghost use Rattle.plain_store.specs.Looks.{LooksFor};
ghost use Rattle.plain_store.specs.Outcome.{HoldsReachable, Outcome, Tried};
ghost use Rattle.plain_store.specs.Contents.{store_of, empty, placed, refused, IsAbsent, IsFreeRow, HasNoFree, IsUsedUp, Collected};

use crate::collecting::{keep_reachable, raised_once};
use crate::event::Event;
use crate::hashing::hash_of;
use crate::nodes::{Look, Nodes};
use faults::Memory;
use mark_phase::Marks;
use row_stack::{History, Stack};
use std::alloc::Global;
use std::marker::Model;
use term_model::{Head, Row};
use terms_api::BuildFault;

/// A store of maximally shared terms for one thread, with mark and sweep. All its memory is taken
/// when it is made.
#[derive(Drop)]
pub struct PlainStore {
    pub(crate) nodes: Nodes,
    pub(crate) places: Stack,
    pub(crate) marks: Marks,
    pub(crate) room: u32,
    pub(crate) widest: u32,
    pub(crate) inside: bool,
    pub(crate) raised: u64,
    pub(crate) history: History<Stack, Event>,
}

impl Model for PlainStore {
    ghost use Rattle.plain_store.specs.Contents.{Contents};
    ghost use Rattle.plain_store.specs.ContentsCode.{contents_code};

    ghost Value = { Contents };

    ghost coded = { contents_code };

    ghost use Rattle.plain_store.specs.View.{contents_of, IsRight};

    ghost view = { contents_of };

    ghost invariant = { IsRight };
}

impl PlainStore {
    /// An empty store of so many rows, for one that is outside, with so many places on its stack,
    /// for terms of at most `widest` arguments (at least 2).
    pub fn new(alloc: Global, rows: u32, depth: u32, widest: u32) -> Result<PlainStore, Memory>
        ensures { IfOk result (λ store. store ≡ empty rows depth (max widest 2)) }
    {
        let widest = widest.max(2);
        let nodes = Nodes::new(alloc, rows, widest)?;
        let places = Stack::new(alloc, depth)?;
        let marks = Marks::new(alloc, rows)?;
        Ok(PlainStore {
            nodes,
            places,
            marks,
            room: depth,
            widest,
            inside: false,
            raised: 0,
            history: History::new(),
        })
    }

    /// How many rows have a tree.
    pub fn used(&self) -> u32
        ensures used { result ≡ some_count self.now.trees }
        ensures sound { IsSound (store_of self.now) }
    {
        self.nodes.used()
    }

    /// Looks for the row of the tree of the head over the last `n` places at one row.
    #[inline(always)]
    pub(crate) fn find_first(&self, head: Head, n: u32) -> Look
        requires { n ≤ length self.now.stack }
        ensures looks { LooksFor self.now head n result }
        ensures sound { IsSound (store_of self.now) }
        ensures holds { HoldsReachable self.now }
    {
        self.nodes.find_first(head, self.places.last(n as usize))
    }

    /// The hash of the head over the last `n` places.
    fn hash(&self, head: Head, n: u32) -> u64
        requires { n ≤ length self.now.stack }
        ensures hashed { result ≡ hash head (last n self.now.stack) }
        ensures sound { IsSound (store_of self.now) }
        ensures holds { HoldsReachable self.now }
    {
        hash_of(head, self.places.last(n as usize))
    }

    /// The row of the tree of the head over the last `n` places, of this hash.
    pub(crate) fn find(&self, head: Head, n: u32, hashed: u64) -> Option<Row>
        requires places { n ≤ length self.now.stack }
        requires hashed { hashed ≡ hash head (last n self.now.stack) }
        ensures found { IfSome result
            (λ row. HasTree (store_of self.now) row (asked (store_of self.now) head n)) }
        ensures absent { IfNone result (IsAbsent self.now (asked (store_of self.now) head n)) }
        ensures sound { IsSound (store_of self.now) }
        ensures holds { HoldsReachable self.now }
    {
        self.nodes.find(head, self.places.last(n as usize), hashed)
    }

    /// Puts a row that has the asked tree in the place of the last `n`.
    #[inline(always)]
    pub(crate) fn place(&mut self, head: Head, n: u32, row: Row)
        requires may { MayBuild (store_of self.old) head n }
        requires room { NeedsPlace (store_of self.old) n → ⊥ }
        requires has { HasTree (store_of self.old) row (asked (store_of self.old) head n) }
        ensures { self.new ≡ placed self.old head n row }
    {
        self.history = self.history.and(&self.places, &Event::Built(head, n, row));
        self.places.put(n as usize, row);
    }

    /// Gives a free row the asked tree, of this hash, if there is one, and puts it in the place of
    /// the last `n`.
    pub(crate) fn make(&mut self, head: Head, n: u32, hashed: u64) -> Option<Row>
        requires may { MayBuild (store_of self.old) head n }
        requires room { NeedsPlace (store_of self.old) n → ⊥ }
        requires absent { IsAbsent self.old (asked (store_of self.old) head n) }
        requires hashed { hashed ≡ hash head (last n self.old.stack) }
        ensures made { IfSome result (λ row. self.new ≡ placed self.old head n row) }
        ensures free { IfSome result (IsFreeRow self.old) }
        ensures full { IfNone result (HasNoFree self.old) }
        ensures unchanged { IfNone result (self.new ≡ self.old) }
    {
        let row = self.nodes.make(head, self.places.last(n as usize), hashed)?;
        self.history = self.history.and(&self.places, &Event::Built(head, n, row));
        self.places.put(n as usize, row);
        Some(row)
    }

    /// Frees the rows that can't be reached from the stack.
    pub(crate) fn collect(&mut self)
        ensures { Collected self.old self.new }
    {
        let lost = keep_reachable(&mut self.nodes, self.places.rows(), &mut self.marks);
        self.history = self.history.and(&self.places, &Event::Swept);
        if lost {
            self.raised = raised_once(self.raised);
        }
    }

    /// Remembers that a tree was refused.
    pub(crate) fn refuse(&mut self)
        ensures { self.new ≡ refused self.old }
    {
        self.history = self.history.and(&self.places, &Event::Refused);
    }

    /// Finds the tree's row, or takes a free one, and says whether it did. A tree without arguments
    /// that finds no place isn't looked for.
    #[inline(always)]
    pub(crate) fn try_tree(&mut self, head: Head, n: u32) -> bool
        requires { MayBuild (store_of self.old) head n }
        ensures tried { Tried self.old self.new head n result }
    {
        if self.needs_place(n) {
            return false;
        }
        match self.find_first(head, n) {
            Look::Found(row) => {
                self.place(head, n, row);
                true
            }
            Look::Missed(hashed) => self.try_further(head, n, hashed),
            Look::Many => self.try_many(head, n),
        }
    }

    /// The same where there are more than two arguments.
    #[inline(never)]
    fn try_many(&mut self, head: Head, n: u32) -> bool
        requires may { MayBuild (store_of self.old) head n }
        requires room { NeedsPlace (store_of self.old) n → ⊥ }
        ensures tried { Tried self.old self.new head n result }
    {
        let hashed = self.hash(head, n);
        self.try_further(head, n, hashed)
    }

    /// The same where the row isn't at the place of its hash, by the hash.
    #[inline(never)]
    fn try_further(&mut self, head: Head, n: u32, hashed: u64) -> bool
        requires may { MayBuild (store_of self.old) head n }
        requires room { NeedsPlace (store_of self.old) n → ⊥ }
        requires hashed { hashed ≡ hash head (last n self.old.stack) }
        ensures tried { Tried self.old self.new head n result }
    {
        if let Some(row) = self.find(head, n, hashed) {
            self.place(head, n, row);
            return true;
        }
        match self.make(head, n, hashed) {
            Some(_made) => true,
            None => false,
        }
    }

    /// Finds the tree's row, or takes a free one, or collects and takes one that was freed.
    #[inline(always)]
    pub(crate) fn build_tree(&mut self, head: Head, n: u32) -> Result<(), BuildFault>
        requires { MayBuild (store_of self.old) head n }
        ensures { Outcome self.old self.new head n result }
    {
        if self.try_tree(head, n) {
            return Ok(());
        }
        self.build_late(head, n)
    }

    /// Where a try said no: answers Deep, or collects and takes a row that was freed, or refuses.
    #[cold]
    #[inline(never)]
    fn build_late(&mut self, head: Head, n: u32) -> Result<(), BuildFault>
        requires may { MayBuild (store_of self.old) head n }
        requires late { NeedsPlace (store_of self.old) n ⊎ IsUsedUp self.old head n }
        ensures { Outcome self.old self.new head n result }
    {
        if self.needs_place(n) {
            return Err(BuildFault::Deep);
        }
        let hashed = self.hash(head, n);
        self.collect();
        if let Some(_made) = self.make(head, n, hashed) {
            return Ok(());
        }
        self.refuse();
        Err(BuildFault::StoreFull)
    }

    /// Whether all places of the stack are in use.
    pub(crate) fn is_full(&self) -> bool
        ensures full { IsTrue result ↔ (length self.now.stack ≡ self.now.room) }
        ensures sound { IsSound (store_of self.now) }
    {
        self.places.len() == self.room as usize
    }

    /// Whether a tree over `n` places needs one more, and all are in use.
    #[inline(always)]
    fn needs_place(&self, n: u32) -> bool
        ensures { IsTrue result ↔ NeedsPlace (store_of self.now) n }
    {
        n == 0 && self.is_full()
    }
}
