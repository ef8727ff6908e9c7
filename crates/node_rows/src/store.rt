//! A store, its passes, and their accesses.
ghost use Rattle.std.specs.Prelude.{◌≡◌, ◌+◌, ◌*◌, ◌≤◌, IfOk, IfErr, MatchResult, Err, vec_capacity};
ghost use Rattle.lock_core.specs.declared.parts.Phase.TheVariants.{Shared};
ghost use Rattle.store_model.specs.Machine.{widest};
ghost use Rattle.store_model.specs.Steps.{AreLastRoots};
ghost use Rattle.busy_forbidden.specs.Entries.{ShowsShared};
ghost use Rattle.busy_forbidden.specs.Exclusive.{ShowsExclusive, TriesExclusive};
ghost use Rattle.node_rows.specs.Shown.{node_next};
ghost use Rattle.node_rows.specs.Passes.{IsOut, Came, Stayed, Left};

use crate::arriving::arrive;
use crate::rule::NodeRows;
use busy_forbidden::{Busy, Seat, Table};
use mark_phase::Marks;
use std::sync::Wait;
use store_model::Sizes;

/// A store of terms that threads share. Its fields are public because the crates above make their
/// own steps on its table.
#[derive(Drop)]
pub struct Store {
    pub table: Table<NodeRows>,
    pub sizes: Sizes,
    /// The word where the rows begin, and how many words a row has, worked out once, since each
    /// read of a row needs them.
    pub first_row: usize,
    pub row_size: usize,
    ghost rows_begin: { first_row ≡ 1 + 2 * sizes.seats + 4 + sizes.rows + sizes.buckets },
    ghost rows_are: { row_size ≡ widest sizes + 4 },
}

/// The last entry of a pass: its number, or the greatest that the pass had seen then.
#[derive(Clone, Copy, Debug, PartialEq, Eq)]
pub enum Last {
    Nothing,
    Make(u64),
    Find(u64),
    Roots(u64),
    Collect(u64),
}

/// A seat of a store, with what its access has loaded, how many rows it protects, what it tells of
/// its entries, and the room that a collection needs. Its fields are public because the crates
/// above make their own steps by its seat, and keep the rest true.
#[derive(Drop)]
pub struct Pass {
    pub seat: Seat<NodeRows>,
    pub base: u64,
    pub in_use: u64,
    /// How many rows it protects.
    pub root_count: u32,
    /// How many rows the store has.
    pub rows: u32,
    /// The greatest number that the pass has seen.
    pub seen: u64,
    pub last: Last,
    /// A mark for each row: those that the pass's last collection kept. A collection marks here
    /// what it reaches.
    pub marks: Marks,
    /// For each row the next word of its new chain, and for each bucket the new head: a collection
    /// works them out here before it stores. Their memory is taken when the pass is made, and the
    /// pass's first collection fills it.
    pub nexts: Vec<u32>,
    pub heads: Vec<u32>,
    ghost counted: { root_count ≡ seat.seat.me.0.store.root_count },
    ghost sized: { rows ≡ seat.seat.me.0.sizes.rows },
    ghost nexts_fit: { rows ≤ vec_capacity nexts },
    ghost heads_fit: { seat.seat.me.0.sizes.buckets ≤ vec_capacity heads },
}

impl Store {
    ghost use Rattle.node_rows.specs.Belonging.{IsPassOf, IsExclusive, IsPrepared, IsSamePass, IsSeated};
    ghost use Rattle.node_rows.specs.Told.{Tells, view_of};

    /// Enters shared access, without a wait. `Busy::Forbidden` comes exactly where this call read
    /// the own forbidden word as set; the pass is then out. An entry loads the base and then the
    /// number of buckets in use.
    pub fn try_enter_shared(&self, pass: &mut Pass) -> Result<(), Busy>
        requires of { IsPassOf self.now pass.old }
        requires out { IsOut (view_of pass.old) }
        ensures pass { IsSeated self.now pass.new }
        ensures same { IsSamePass pass.old pass.new }
        ensures reads { ShowsShared (view_of pass.old).lock (view_of pass.new).lock result }
        ensures came { MatchResult result
            (λ _. Came (view_of pass.old) (view_of pass.new) pass.new.base pass.new.in_use)
            (λ _. Stayed (view_of pass.old) (view_of pass.new)) }
        ensures access { MatchResult result
            (λ _. IsPrepared self.now pass.new)
            (λ _. IsOut (view_of pass.new)) }
        ensures told { Tells pass.old → Tells pass.new }
        ensures crowd { (view_of pass.new).crowd ≡ (view_of pass.old).crowd }
    {
        match busy_forbidden::try_enter_shared(&self.table, &mut pass.seat) {
            Ok(()) => {
                arrive(self, pass);
                Ok(())
            }
            Err(busy) => Err(busy),
        }
    }

    /// Enters shared access; it may wait.
    pub fn enter_shared<R: Wait>(&self, rt: &R, pass: &mut Pass)
        requires of { IsPassOf self.now pass.old }
        requires out { IsOut (view_of pass.old) }
        ensures pass { IsSeated self.now pass.new }
        ensures same { IsSamePass pass.old pass.new }
        ensures shared { (view_of pass.new).lock.phase ≡ Shared }
        ensures came { Came (view_of pass.old) (view_of pass.new) pass.new.base pass.new.in_use }
        ensures ready { IsPrepared self.now pass.new }
        ensures told { Tells pass.old → Tells pass.new }
        ensures crowd { (view_of pass.new).crowd ≡ (view_of pass.old).crowd }
    {
        busy_forbidden::enter_shared(rt, &self.table, &mut pass.seat);
        arrive(self, pass);
    }

    /// Ends shared access, and notes the rows that the pass protects.
    pub fn leave_shared(&self, pass: &mut Pass)
        requires of { IsPassOf self.now pass.old }
        requires shared { (view_of pass.old).lock.phase ≡ Shared }
        requires ready { IsPrepared self.now pass.old }
        ensures pass { IsSeated self.now pass.new }
        ensures same { IsSamePass pass.old pass.new }
        ensures left { Left (view_of pass.old) (view_of pass.new) }
        ensures out { IsOut (view_of pass.new) }
        ensures told { Tells pass.old → Tells pass.new }
        ensures crowd { (view_of pass.new).crowd ≡ (view_of pass.old).crowd }
    {
        busy_forbidden::leave_shared(&self.table, &mut pass.seat);
        pass.last = Last::Roots(pass.seen);
    }

    /// Enters exclusive access, without a wait. `Busy::Mutex` comes exactly where this call read
    /// the mutex as held, and `Busy::Seat(j)` exactly where it read the busy word of seat j as set;
    /// the pass is then out, and each flag that the call set is cleared. An entry loads the base
    /// and then the number of buckets in use.
    pub fn try_enter_exclusive(&self, pass: &mut Pass) -> Result<(), Busy>
        requires of { IsPassOf self.now pass.old }
        requires out { IsOut (view_of pass.old) }
        ensures pass { IsSeated self.now pass.new }
        ensures same { IsSamePass pass.old pass.new }
        ensures reads { ShowsExclusive pass.new.seat.number pass.new.seat.seats
            (view_of pass.old).lock (view_of pass.new).lock result }
        ensures refused { IfErr result
            (λ b. TriesExclusive node_next pass.old.seat.number pass.old.seat.seats
            (view_of pass.old) (view_of pass.new) (Err b)) }
        ensures came { MatchResult result
            (λ _. Came (view_of pass.old) (view_of pass.new) pass.new.base pass.new.in_use)
            (λ _. Stayed (view_of pass.old) (view_of pass.new)) }
        ensures access { MatchResult result
            (λ _. IsPrepared self.now pass.new)
            (λ _. IsOut (view_of pass.new)) }
        ensures last_roots { IfOk result (λ _. AreLastRoots (view_of pass.new).store) }
        ensures told { Tells pass.old → Tells pass.new }
        ensures crowd { (view_of pass.new).crowd ≡ (view_of pass.old).crowd }
    {
        match busy_forbidden::try_enter_exclusive(&self.table, &mut pass.seat) {
            Ok(()) => {
                arrive(self, pass);
                Ok(())
            }
            Err(busy) => Err(busy),
        }
    }

    /// Enters exclusive access; it may wait.
    pub fn enter_exclusive<R: Wait>(&self, rt: &R, pass: &mut Pass)
        requires of { IsPassOf self.now pass.old }
        requires out { IsOut (view_of pass.old) }
        ensures pass { IsSeated self.now pass.new }
        ensures same { IsSamePass pass.old pass.new }
        ensures granted { IsExclusive pass.new }
        ensures came { Came (view_of pass.old) (view_of pass.new) pass.new.base pass.new.in_use }
        ensures ready { IsPrepared self.now pass.new }
        ensures last_roots { AreLastRoots (view_of pass.new).store }
        ensures told { Tells pass.old → Tells pass.new }
        ensures crowd { (view_of pass.new).crowd ≡ (view_of pass.old).crowd }
    {
        busy_forbidden::enter_exclusive(rt, &self.table, &mut pass.seat);
        arrive(self, pass);
    }

    /// Ends exclusive access, and notes the rows that the pass protects.
    pub fn leave_exclusive(&self, pass: &mut Pass)
        requires of { IsPassOf self.now pass.old }
        requires granted { IsExclusive pass.old }
        requires ready { IsPrepared self.now pass.old }
        ensures pass { IsSeated self.now pass.new }
        ensures same { IsSamePass pass.old pass.new }
        ensures left { Left (view_of pass.old) (view_of pass.new) }
        ensures out { IsOut (view_of pass.new) }
        ensures told { Tells pass.old → Tells pass.new }
        ensures crowd { (view_of pass.new).crowd ≡ (view_of pass.old).crowd }
    {
        busy_forbidden::leave_exclusive(&self.table, &mut pass.seat);
        pass.last = Last::Roots(pass.seen);
    }
}
