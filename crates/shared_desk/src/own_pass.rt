//! A pass of the running store, with all that its desk needs of it.
ghost use Rattle.std.specs.Prelude.{◌≡◌, None, false};
ghost use Rattle.terms_api.specs.Terms.{IsSound};
ghost use Rattle.shared_desk.specs.Pass.{own};
ghost use Rattle.shared_desk.specs.Passes.{IsSymbolNumber};
ghost use Rattle.node_rows.specs.Passes.{IsOut};
ghost use Rattle.node_rows.specs.Told.{view_of};

use crate::own_reads::{own_node, own_pair};
use crate::pass::SharedPass;
use crossbeam_utils::Backoff;
use node_rows::{Last, Pass, Store, free_count_word};
use std::marker::Model;
use std::sync::Wait;
use sweep_phase::{Kept, Worn, collect, create_exclusive};
use term_create::{Full, child_of, count_of, create, head_of};
use term_model::{Head, Row};

// A symbol is a number of 32 bits.
#[inline(always)]
fn fit(head: Head)
    ensures { IsSymbolNumber head }
{
    if let Head::App(symbol) = head {
        let _number = symbol.0;
    }
}

/// A pass of the running store, with the handle by which it waits for its entries.
#[derive(Drop)]
pub struct OwnPass<'a, R: Wait> {
    rt: &'a R,
    store: &'a Store,
    pass: Pass,
}

impl<'a, R: Wait> Model for OwnPass<'a, R> {
    ghost use Rattle.shared_desk.specs.Pass.{PassView};
    ghost use Rattle.shared_desk.specs.Code.{pass_code};
    ghost use Rattle.shared_desk.specs.Passes.{seen_of, IsStanding};

    ghost Value = { PassView };

    ghost coded = { pass_code };

    ghost view = { λ p. seen_of p.store.now p.pass };

    ghost invariant = { λ p. IsStanding p.store.now p.pass };
}

impl<'a, R: Wait> OwnPass<'a, R> {
    ghost use Rattle.node_rows.specs.Belonging.{IsPassOf};
    ghost use Rattle.node_rows.specs.Told.{Tells};
    ghost use Rattle.shared_desk.specs.Held.{IsWhole};
    ghost use Rattle.shared_desk.specs.Passes.{seen_of};

    /// A pass of this store, which is out.
    pub(crate) fn new(rt: &'a R, store: &'a Store, pass: Pass) -> OwnPass<'a, R>
        requires of { IsPassOf store.now pass }
        requires out { IsOut (view_of pass) }
        requires told { Tells pass }
        requires whole { IsWhole store.now.sizes (view_of pass).store }
        ensures seen { result ≡ seen_of store.now pass }
        ensures sound { IsSound (own result) }
    {
        let _depth = store.sizes.depth;
        OwnPass { rt, store, pass }
    }
}

impl<'a, R: Wait> OwnPass<'a, R> {
    ghost use Rattle.shared_desk.specs.Passes.{IsBack};

    /// The pass, which is out.
    pub(crate) fn into_pass(self) -> Pass
        requires shared { self.shared ≡ false }
        requires alone { self.alone ≡ false }
        ensures back { IsBack self.entry result }
    {
        let OwnPass {
            rt: _,
            store: _,
            pass,
        } = self;
        pass
    }
}

impl<'a, R: Wait> OwnPass<'a, R> {
    // What a word of the table is. Nothing is claimed of it.
    fn peek(&self, word: usize) -> u64 {
        let table = &self.store.table;
        if word < table.word_count() {
            table.shared.peek(word)
        } else {
            0
        }
    }

    // Whether the last collection kept some rows, and fewer than one in 64.
    fn has_room(&self) -> bool {
        let rows = u64::from(self.store.sizes.rows);
        let kept = rows.saturating_sub(self.peek(free_count_word(&self.store.sizes)));
        kept > 0 && kept < rows / 64
    }

    // Waits while it is to give way.
    fn let_others_in(&self) {
        let backoff = Backoff::new();
        for _ in self.rt.forever() {
            if !self.gives_way() {
                return;
            }
            backoff.snooze();
        }
        unreachable!()
    }
}

impl<'a, R: Wait> SharedPass for OwnPass<'a, R> {
    ghost view = { λ v. v };

    ghost log = { λ _. None };

    fn enter_shared(&mut self) {
        self.let_others_in();
        self.store.enter_shared(self.rt, &mut self.pass);
    }

    fn leave_shared(&mut self, _rows: &[Row]) {
        self.store.leave_shared(&mut self.pass);
    }

    fn enter_exclusive(&mut self) {
        self.store.enter_exclusive(self.rt, &mut self.pass);
    }

    fn leave_exclusive(&mut self, _rows: &[Row]) {
        self.store.leave_exclusive(&mut self.pass);
    }

    fn store_roots(&mut self, rows: &[Row]) {
        root_sets::store_roots(self.store, &mut self.pass, rows);
    }

    #[inline(always)]
    fn create(&mut self, head: Head, rows: &[Row]) -> Result<Row, Full> {
        fit(head);
        create(self.store, &mut self.pass, head, rows)
    }

    fn collect(&mut self) -> Result<Kept, Worn> {
        collect(self.store, &mut self.pass)
    }

    fn create_exclusive(&mut self, head: Head, rows: &[Row]) -> Result<Row, Full> {
        fit(head);
        create_exclusive(self.store, &mut self.pass, head, rows)
    }

    fn head(&mut self, row: Row) -> Head {
        head_of(self.store, &mut self.pass, row)
    }

    fn count(&mut self, row: Row) -> u32 {
        count_of(self.store, &mut self.pass, row)
    }

    fn child(&mut self, row: Row, j: u32) -> Row {
        child_of(self.store, &mut self.pass, row, j)
    }

    fn node(&mut self, row: Row) -> (Head, u32) {
        own_node(self.store, &mut self.pass, row)
    }

    fn pair(&mut self, row: Row) -> (Row, Row) {
        own_pair(self.store, &mut self.pass, row)
    }

    // The own forbidden word, as the lock has it, is set at times where another pass waits for this
    // one to leave.
    fn is_asked(&self) -> bool {
        self.peek(2 + 2 * self.pass.seat.number as usize) != 0 || self.gives_way()
    }

    // The mutex of the lock is held while another pass waits for the others to leave, and while it
    // collects. Where a collection keeps many rows the passes lose trees that they would build
    // again, and fewer of them at a time lose fewer: so they give way only where it keeps few.
    fn gives_way(&self) -> bool {
        self.peek(0) != 0 && self.has_room()
    }

    fn base(&self) -> u64 {
        self.pass.base
    }

    fn last(&self) -> Last {
        node_rows::last(&self.pass)
    }

    fn kept(&self, row: Row) -> bool {
        node_rows::kept(&self.pass, row)
    }

    fn rows(&self) -> u32 {
        self.store.sizes.rows
    }

    fn depth(&self) -> u32 {
        self.store.sizes.depth
    }
}
