//! The end of a store, and the chronicle of its passes.
ghost use Rattle.std.specs.Prelude.{◌≡◌, ◌+◌, [], All, length, map};
ghost use Rattle.history_core.specs.Chronicle.{chronicle, IsLegal};
ghost use Rattle.store_model.specs.Bases.{StaysBelow, collect_numbers};
ghost use Rattle.store_model.specs.Invariant.{span};
ghost use Rattle.node_rows.specs.Belonging.{IsSeated, IsOpen};
ghost use Rattle.node_rows.specs.Passes.{IsOut};
ghost use Rattle.node_rows.specs.Joining.{HasBase, TellsAll, all_views, both_views, lists_in};
ghost use Rattle.node_rows.specs.Told.{HasEntries, KeepsOrder, HasRisingKeys, TellsTrees, TellsCrowd, view_of};

use crate::rule::{Gather, OnLook};
use crate::store::{Pass, Store};
use crate::view::NodeView;
use busy_forbidden::Seat;
use std::marker::Model;

/// The entries of every pass of a store that was closed, pass by pass; or of none. A program keeps
/// no entry of it: contracts see the lists.
#[derive(Drop)]
pub struct Chronicle {
    seat: Option<atomic_table::Seat<(), NodeView>>,
}

impl Model for Chronicle {
    ghost use Rattle.std.specs.Prelude.{List};
    ghost use Rattle.history_core.specs.declared.entry.Entry.{Entry};
    ghost use Rattle.node_rows.specs.Told.{lists_told};

    ghost Value = { List (List Entry) };

    ghost view = { λ c. lists_told c.seat };
}

impl Chronicle {
    /// The entries of no pass.
    pub fn empty() -> Chronicle
        ensures { result ≡ [] }
    {
        Chronicle { seat: None }
    }
}

// Joins a pass that is out into another.
fn gather(store: &Store, first: &mut Pass, other: Pass)
    requires store { IsOpen store.now }
    requires first { IsSeated store.now first.old }
    requires other { IsSeated store.now other × IsOut (view_of other) }
    ensures first { IsSeated store.now first.new }
    ensures number { first.new.seat.number ≡ first.old.seat.number }
    ensures view { view_of first.new ≡ both_views (view_of first.old) (view_of other) }
{
    let Pass {
        seat,
        base: _,
        in_use: _,
        root_count: _,
        rows: _,
        seen: _,
        last: _,
        marks: _,
        nexts: _,
        heads: _,
    } = other;
    let Seat {
        seat,
        number: _,
        seats: _,
    } = seat;
    store
        .table
        .shared
        .join_seat::<Gather>(&mut first.seat.seat, seat);
}

// Joins passes that are out into another, the last one first.
fn gather_all(store: &Store, first: &mut Pass, passes: Vec<Pass>)
    requires store { IsOpen store.now }
    requires first { IsSeated store.now first.old }
    requires passes { All (λ p. IsSeated store.now p × IsOut (view_of p)) passes.items }
    ensures first { IsSeated store.now first.new }
    ensures number { first.new.seat.number ≡ first.old.seat.number }
    ensures view { view_of first.new ≡ all_views (view_of first.old) (map view_of passes.items) }
{
    let mut rest = passes;
    while let Some(pass) = rest.pop() {
        gather(store, first, pass);
    }
}

// What a pass knows of all that were joined into it.
fn look(store: &Store, pass: &mut Pass)
    requires store { IsOpen store.now }
    requires pass { IsSeated store.now pass.old }
    ensures number { pass.new.seat.number ≡ pass.old.seat.number }
    ensures view { view_of pass.new ≡ view_of pass.old }
    ensures tells { TellsAll store.now.sizes (view_of pass.old) }
{
    store.table.shared.load::<OnLook>(&mut pass.seat.seat, 0);
}

// The chronicle that a pass knows.
fn chronicle_of(pass: Pass) -> Chronicle
    ensures { result ≡ lists_in (view_of pass).sizes.seats (view_of pass) }
{
    let Pass {
        seat,
        base: _,
        in_use: _,
        root_count: _,
        rows: _,
        seen: _,
        last: _,
        marks: _,
        nexts: _,
        heads: _,
    } = pass;
    let Seat {
        seat,
        number: _,
        seats: _,
    } = seat;
    Chronicle { seat: Some(seat) }
}

// Ends a store whose passes are these.
fn close_from(store: &Store, mut first: Pass, rest: Vec<Pass>) -> Chronicle
    requires store { IsOpen store.now }
    requires first { IsSeated store.now first }
    requires rest { All (λ p. IsSeated store.now p × IsOut (view_of p)) rest.items }
    requires all { length rest.items + 1 ≡ store.now.sizes.seats }
    ensures count { length result ≡ store.now.sizes.seats }
    ensures own { HasEntries result first × All (HasEntries result) rest.items }
    ensures order { KeepsOrder result first × All (KeepsOrder result) rest.items }
    ensures rises { HasRisingKeys result first × All (HasRisingKeys result) rest.items }
    ensures legal { IsLegal store.now.sizes.rows (chronicle result) }
    ensures numbers { StaysBelow store.now.sizes.first (span store.now.sizes) 1
        (collect_numbers (chronicle result)) }
    ensures bases { HasBase store.now.sizes result (view_of first).store.base
        × All (λ p. HasBase store.now.sizes result (view_of p).store.base) rest.items }
    ensures told { TellsTrees result first × All (TellsTrees result) rest.items }
    ensures crowds { TellsCrowd result first × All (TellsCrowd result) rest.items }
{
    gather_all(store, &mut first, rest);
    look(store, &mut first);
    chronicle_of(first)
}

impl Store {
    /// Ends a store. It needs all of its passes, each out, in whatever order, and takes no memory.
    /// The chronicle has the entries of each pass under its number, and their keys rise: none is
    /// below an earlier one, and those of Make and Collect are above all earlier ones. Merged, each
    /// pass's in its own order, they are a legal history of one thread. The number of its c-th
    /// collection is below `first` and c times `rows + seats + 1`; each pass's base is `first`, or
    /// one more than such a number, or 0 where it has entered nothing. The trees that each pass's
    /// Make and Find entries name in the chronicle, and those of its Roots, are those that the
    /// pass's own entries tell. Of the trees that a pass's Collects kept in the chronicle, each at
    /// its place, its crowd is the last.
    pub fn close(self, passes: Vec<Pass>) -> Chronicle
        requires store { IsOpen self }
        requires passes { All (λ p. IsSeated self p × IsOut (view_of p)) passes.items }
        requires all { length passes.items ≡ self.sizes.seats }
        ensures count { length result ≡ self.sizes.seats }
        ensures own { All (HasEntries result) passes.items }
        ensures order { All (KeepsOrder result) passes.items }
        ensures rises { All (HasRisingKeys result) passes.items }
        ensures legal { IsLegal self.sizes.rows (chronicle result) }
        ensures numbers { StaysBelow self.sizes.first (span self.sizes) 1
            (collect_numbers (chronicle result)) }
        ensures bases { All (λ p. HasBase self.sizes result (view_of p).store.base) passes.items }
        ensures told { All (TellsTrees result) passes.items }
        ensures crowds { All (TellsCrowd result) passes.items }
    {
        let mut rest = passes;
        match rest.pop() {
            Some(first) => close_from(&self, first, rest),
            None => Chronicle::empty(),
        }
    }
}
