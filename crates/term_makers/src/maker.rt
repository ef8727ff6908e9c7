//! What each thread does: it makes numbers, protects the last one, lets others collect, goes on,
//! and reads them all.
ghost use Rattle.std.specs.Prelude.{◌≡◌};
ghost use Rattle.lock_core.specs.declared.parts.Phase.TheVariants.{Shared};
ghost use Rattle.store_model.specs.Machine.{In, protected_in};
ghost use Rattle.node_rows.specs.Inside.{IsInside};
ghost use Rattle.node_rows.specs.Belonging.{IsPassOf};
ghost use Rattle.node_rows.specs.Passes.{IsOut};
ghost use Rattle.node_rows.specs.Told.{Tells, view_of};

use node_rows::{Last, Pass, Store, last};
use root_sets::{keep_roots, push_root, root_at};
use std::sync::Wait;
use sweep_phase::collect_now;
use term_create::{child_of, count_of, create};
use term_model::{Head, Row, Symbol};

const ZERO: Head = Head::App(Symbol(0));

const SUCCESSOR: Head = Head::App(Symbol(1));

/// How many creations made a row, how many found one, and how many terms were read.
#[derive(Clone, Copy)]
pub struct Tally {
    pub made: u64,
    pub found: u64,
    pub read: u64,
}

impl Tally {
    pub const NONE: Tally = Tally {
        made: 0,
        found: 0,
        read: 0,
    };

    /// Both together.
    pub fn and(self, other: Tally) -> Tally {
        Tally {
            made: self.made.saturating_add(other.made),
            found: self.found.saturating_add(other.found),
            read: self.read.saturating_add(other.read),
        }
    }

    // One creation more, of which the pass tells whether it made the row.
    fn note(&mut self, pass: &Pass)
        requires { Tells pass.now }
    {
        match last(pass) {
            Last::Make(_) => self.made = self.made.saturating_add(1),
            _ => self.found = self.found.saturating_add(1),
        }
    }
}

// Makes so many successors of a number, and gives the last one, or the one before which the store
// was full.
fn make_more(store: &Store, pass: &mut Pass, from: Row, count: u32, tally: &mut Tally) -> Row
    requires inside { IsInside store.now pass.old }
    requires shared { (view_of pass.old).lock.phase ≡ Shared }
    requires uses { In from.0 (view_of pass.old).store.got }
    ensures inside { IsInside store.now pass.new }
    ensures shared { (view_of pass.new).lock.phase ≡ Shared }
    ensures roots { protected_in (view_of pass.new).store ≡ protected_in (view_of pass.old).store }
    ensures uses { In result.0 (view_of pass.new).store.got }
{
    let mut row = from;
    for _ in 0..count {
        match create(store, pass, SUCCESSOR, &[row]) {
            Ok(next) => row = next,
            Err(_) => return row,
        }
        tally.note(pass);
    }
    row
}

// Makes zero and so many numbers after it, and protects the last one. Where the store is full at
// once, nothing is protected.
fn begin(rt: &impl Wait, store: &Store, pass: &mut Pass, count: u32, tally: &mut Tally)
    requires of { IsPassOf store.now pass.old }
    requires out { IsOut (view_of pass.old) }
    requires told { Tells pass.old }
    ensures of { IsPassOf store.now pass.new }
    ensures out { IsOut (view_of pass.new) }
    ensures told { Tells pass.new }
{
    store.enter_shared(rt, pass);
    if let Ok(zero) = create(store, pass, ZERO, &[]) {
        tally.note(pass);
        let top = make_more(store, pass, zero, count, tally);
        protect(store, pass, top);
    }
    store.leave_shared(pass);
}

// Protects a row in place of those that were protected.
fn protect(store: &Store, pass: &mut Pass, row: Row)
    requires inside { IsInside store.now pass.old }
    requires shared { (view_of pass.old).lock.phase ≡ Shared }
    requires uses { In row.0 (view_of pass.old).store.got }
    ensures inside { IsInside store.now pass.new }
    ensures shared { (view_of pass.new).lock.phase ≡ Shared }
    ensures uses { In row.0 (view_of pass.new).store.got }
{
    if push_root(store, pass, row).is_ok() {
        keep_roots(store, pass, 0, 1);
    }
}

// Goes on from the number that is protected, protects the last one in its place, and reads all
// numbers down to zero.
fn go_on(rt: &impl Wait, store: &Store, pass: &mut Pass, count: u32, most: u32, tally: &mut Tally)
    requires of { IsPassOf store.now pass.old }
    requires out { IsOut (view_of pass.old) }
    requires told { Tells pass.old }
{
    store.enter_shared(rt, pass);
    if pass.root_count > 0 {
        let from = root_at(store, pass, 0);
        let top = make_more(store, pass, from, count, tally);
        protect(store, pass, top);
        tally.read = read_down(store, pass, top, most);
    }
    store.leave_shared(pass);
}

// Reads a number down to zero: how many terms there are, at most so many.
fn read_down(store: &Store, pass: &mut Pass, from: Row, most: u32) -> u64
    requires inside { IsInside store.now pass.old }
    requires shared { (view_of pass.old).lock.phase ≡ Shared }
    requires uses { In from.0 (view_of pass.old).store.got }
    ensures inside { IsInside store.now pass.new }
    ensures shared { (view_of pass.new).lock.phase ≡ Shared }
{
    let mut row = from;
    let mut read: u64 = 0;
    for _ in 0..most {
        read = read.saturating_add(1);
        if count_of(store, pass, row) == 0 {
            return read;
        }
        row = child_of(store, pass, row, 0);
    }
    read
}

/// Makes the first numbers, so many, each the successor of the one before, with a collection half
/// way, and reads them all. The collection is refused where another pass is inside.
pub fn make_and_read(rt: &impl Wait, store: &Store, mut pass: Pass, terms: u32) -> Tally
    requires of { IsPassOf store.now pass }
    requires out { IsOut (view_of pass) }
    requires told { Tells pass }
{
    let mut tally = Tally::NONE;
    let half = terms / 2;
    begin(rt, store, &mut pass, half.saturating_sub(1), &mut tally);
    let _ = collect_now(store, &mut pass);
    go_on(rt, store, &mut pass, terms - half, terms, &mut tally);
    tally
}
