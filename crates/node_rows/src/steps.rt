//! The steps of a creation, and those that begin an access, each one atomic action on one word of
//! the table.
ghost use Rattle.std.specs.Prelude.{◌≡◌, ◌≤◌, ℕ, List, []};
ghost use Rattle.term_model.specs.declared.Head.{Head};
ghost use Rattle.term_model.specs.declared.Head.TheVariants.{Nil};
ghost use Rattle.store_model.specs.declared.view.Call.TheVariants.{Idle};
ghost use Rattle.store_model.specs.declared.view.Place.TheVariants.{Base, InUse};
ghost use Rattle.store_model.specs.declared.view.Stay.TheVariants.{Based};
ghost use Rattle.store_model.specs.Machine.{Go, LoadInUse, based, ready};
ghost use Rattle.store_model.specs.Shown.{index_of};
ghost use Rattle.busy_forbidden.specs.Calls.{IsSame};
ghost use Rattle.node_rows.specs.Full.{FullAlone, FullAfter, fills_on};
ghost use Rattle.node_rows.specs.Shown.{IsAway};
ghost use Rattle.node_rows.specs.Rows.{names};
ghost use Rattle.node_rows.specs.Steps.{goes_on, bases_on, begins_with, with_store, went, begun, IsOf, Goes, Reads, Writes, IsDraw, Exchanges, MayLoad, MayMake, Known};

use crate::rule::NodeRows;
use crate::view::NodeView;
use atomic_table::Play;
use busy_forbidden::{Seat, Table};
use std::marker::{Brand, PhantomData};
use term_model::{Head, Row};

/// What a creation is for. Each call picks it.
pub(crate) trait Wanted {
    ghost head: { Head };

    ghost arguments: { List ℕ };
}

impl Wanted for Brand {
    ghost head = { Nil };

    ghost arguments = { [] };
}

struct OnGo;

impl Play<(), NodeView> for OnGo {
    ghost then = { goes_on Go };
}

// A load or a draw of a creation.
struct OnRead;

impl Play<(), NodeView> for OnRead {
    ghost then = { fills_on };
}

struct OnBase;

impl Play<(), NodeView> for OnBase {
    ghost then = { bases_on };
}

struct OnInUse;

impl Play<(), NodeView> for OnInUse {
    ghost then = { goes_on LoadInUse };
}

struct OnBegin<X> {
    of: PhantomData<X>,
}

impl<X: Wanted> Play<(), NodeView> for OnBegin<X> {
    ghost then = { begins_with X.head X.arguments };
}

/// Loads the word that a creation reads next. Where the only pass so finds no row free, each row
/// has a tree; so too where a pass has collected in its exclusive access, and then no row has the
/// tree that it asks for.
pub fn go_load(table: &Table<NodeRows>, seat: &mut Seat<NodeRows>, word: usize) -> u64
    requires of { IsOf table.now.shared.table_id table.now.shared.key seat.old.seat }
    requires goes { Goes table.now.shared.key seat.old.seat.me.0.store word }
    requires reads { Reads seat.old.seat.me.0.store }
    ensures of { IsOf table.now.shared.table_id table.now.shared.key seat.new.seat }
    ensures same { IsSame seat.old.seat seat.new.seat
        × (seat.new.number ≡ seat.old.number) × (seat.new.seats ≡ seat.old.seats) }
    ensures view { seat.new.seat.me.0 ≡ with_store seat.old.seat.me.0
        (went seat.old.seat.me.0.store result) }
    ensures known { Known table.now.shared.key seat.new.seat.me.0.store }
    ensures full { FullAlone table.now.shared.key seat.old.seat.me.0.store.entries
        seat.old.seat.me.0.store.call result }
    ensures filled { FullAfter table.now.shared.key seat.old.number seat.old.seat.me.0
        seat.old.seat.me.0.store.call result }
{
    table.shared.load::<OnRead>(&mut seat.seat, word)
}

/// Stores the word that a creation writes next.
pub fn go_store(table: &Table<NodeRows>, seat: &mut Seat<NodeRows>, word: usize, new: u64)
    requires of { IsOf table.now.shared.table_id table.now.shared.key seat.old.seat }
    requires goes { Goes table.now.shared.key seat.old.seat.me.0.store word }
    requires writes { Writes seat.old.seat.me.0.store new }
    ensures of { IsOf table.now.shared.table_id table.now.shared.key seat.new.seat }
    ensures same { IsSame seat.old.seat seat.new.seat
        × (seat.new.number ≡ seat.old.number) × (seat.new.seats ≡ seat.old.seats) }
    ensures view { seat.new.seat.me.0 ≡ with_store seat.old.seat.me.0
        (went seat.old.seat.me.0.store 0) }
    ensures known { Known table.now.shared.key seat.new.seat.me.0.store }
{
    table.shared.store::<OnGo>(&mut seat.seat, word, new);
}

/// Draws a number, and gives what the claim was. Where a pass so finds no row free, the same holds
/// as in `go_load`.
pub fn go_draw(table: &Table<NodeRows>, seat: &mut Seat<NodeRows>, word: usize) -> u64
    requires of { IsOf table.now.shared.table_id table.now.shared.key seat.old.seat }
    requires goes { Goes table.now.shared.key seat.old.seat.me.0.store word }
    requires draws { IsDraw seat.old.seat.me.0.store.call }
    ensures of { IsOf table.now.shared.table_id table.now.shared.key seat.new.seat }
    ensures same { IsSame seat.old.seat seat.new.seat
        × (seat.new.number ≡ seat.old.number) × (seat.new.seats ≡ seat.old.seats) }
    ensures view { seat.new.seat.me.0 ≡ with_store seat.old.seat.me.0
        (went seat.old.seat.me.0.store result) }
    ensures known { Known table.now.shared.key seat.new.seat.me.0.store }
    ensures full { FullAlone table.now.shared.key seat.old.seat.me.0.store.entries
        seat.old.seat.me.0.store.call result }
    ensures filled { FullAfter table.now.shared.key seat.old.number seat.old.seat.me.0
        seat.old.seat.me.0.store.call result }
{
    table.shared.fetch_add::<OnRead>(&mut seat.seat, word, 1)
}

/// Publishes a row where the head of its chain is still `old`, and gives what the head was.
pub fn go_publish(
    table: &Table<NodeRows>,
    seat: &mut Seat<NodeRows>,
    word: usize,
    old: u64,
    new: u64,
) -> u64
    requires of { IsOf table.now.shared.table_id table.now.shared.key seat.old.seat }
    requires goes { Goes table.now.shared.key seat.old.seat.me.0.store word }
    requires exchanges { Exchanges seat.old.seat.me.0.store old new }
    ensures of { IsOf table.now.shared.table_id table.now.shared.key seat.new.seat }
    ensures same { IsSame seat.old.seat seat.new.seat
        × (seat.new.number ≡ seat.old.number) × (seat.new.seats ≡ seat.old.seats) }
    ensures view { seat.new.seat.me.0 ≡ with_store seat.old.seat.me.0
        (went seat.old.seat.me.0.store result) }
    ensures known { Known table.now.shared.key seat.new.seat.me.0.store }
{
    table
        .shared
        .compare_exchange::<OnGo>(&mut seat.seat, word, old, new)
}

/// Loads the base, at the begin of an access. It is at least that of the last access.
pub fn load_base(table: &Table<NodeRows>, seat: &mut Seat<NodeRows>, word: usize) -> u64
    requires of { IsOf table.now.shared.table_id table.now.shared.key seat.old.seat }
    requires word { word ≡ index_of table.now.shared.key Base }
    requires away { IsAway seat.old.seat.me.0.store }
    requires granted { MayLoad seat.old.seat.me.0.lock seat.old.number seat.old.seats
        × (seat.old.seats ≡ table.now.shared.key.seats) }
    ensures of { IsOf table.now.shared.table_id table.now.shared.key seat.new.seat }
    ensures same { IsSame seat.old.seat seat.new.seat
        × (seat.new.number ≡ seat.old.number) × (seat.new.seats ≡ seat.old.seats) }
    ensures view { seat.new.seat.me.0 ≡ with_store seat.old.seat.me.0
        (based seat.old.seat.me.0.store result) }
    ensures known { Known table.now.shared.key seat.new.seat.me.0.store }
    ensures later { seat.old.seat.me.0.store.base ≤ result }
{
    table.shared.load::<OnBase>(&mut seat.seat, word)
}

/// Loads how many buckets are in use, after the base.
pub fn load_in_use(table: &Table<NodeRows>, seat: &mut Seat<NodeRows>, word: usize) -> u64
    requires of { IsOf table.now.shared.table_id table.now.shared.key seat.old.seat }
    requires word { word ≡ index_of table.now.shared.key InUse }
    requires based { (seat.old.seat.me.0.store.call ≡ Idle)
        × (seat.old.seat.me.0.store.stay ≡ Based) }
    ensures of { IsOf table.now.shared.table_id table.now.shared.key seat.new.seat }
    ensures same { IsSame seat.old.seat seat.new.seat
        × (seat.new.number ≡ seat.old.number) × (seat.new.seats ≡ seat.old.seats) }
    ensures view { seat.new.seat.me.0 ≡ with_store seat.old.seat.me.0
        (ready seat.old.seat.me.0.store result) }
    ensures known { Known table.now.shared.key seat.new.seat.me.0.store }
{
    table.shared.load::<OnInUse>(&mut seat.seat, word)
}

fn begin_as<X: Wanted>(
    table: &Table<NodeRows>,
    seat: &mut Seat<NodeRows>,
    word: usize,
    head: Head,
    arguments: &[Row],
) -> u64
    requires of { IsOf table.now.shared.table_id table.now.shared.key seat.old.seat }
    requires may { MayMake table.now.shared.key seat.old.seat.me.0 head (names arguments.now) word }
    requires wanted { (X.head ≡ head) × (X.arguments ≡ names arguments.now) }
    ensures of { IsOf table.now.shared.table_id table.now.shared.key seat.new.seat }
    ensures same { IsSame seat.old.seat seat.new.seat
        × (seat.new.number ≡ seat.old.number) × (seat.new.seats ≡ seat.old.seats) }
    ensures view { seat.new.seat.me.0 ≡ with_store seat.old.seat.me.0
        (begun seat.old.seat.me.0.store head (names arguments.now) result) }
    ensures known { Known table.now.shared.key seat.new.seat.me.0.store }
{
    table.shared.load::<OnBegin<X>>(&mut seat.seat, word)
}

/// Begins a creation: loads the head of the chain in which the row would stand.
pub fn begin(
    table: &Table<NodeRows>,
    seat: &mut Seat<NodeRows>,
    word: usize,
    head: Head,
    arguments: &[Row],
) -> u64
    requires of { IsOf table.now.shared.table_id table.now.shared.key seat.old.seat }
    requires may { MayMake table.now.shared.key seat.old.seat.me.0 head (names arguments.now) word }
    ensures of { IsOf table.now.shared.table_id table.now.shared.key seat.new.seat }
    ensures same { IsSame seat.old.seat seat.new.seat
        × (seat.new.number ≡ seat.old.number) × (seat.new.seats ≡ seat.old.seats) }
    ensures view { seat.new.seat.me.0 ≡ with_store seat.old.seat.me.0
        (begun seat.old.seat.me.0.store head (names arguments.now) result) }
    ensures known { Known table.now.shared.key seat.new.seat.me.0.store }
{
    begin_as::<Brand>(table, seat, word, head, arguments)
}
