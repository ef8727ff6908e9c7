//! The steps on a pass's protected rows, and its reads of rows, each one atomic action on one word
//! of the table.
ghost use Rattle.std.specs.Prelude.{◌≡◌, ℕ, get_or};
ghost use Rattle.store_model.specs.Machine.{Step, Go, LoadRoot, StoreRoot, StoreCount, ReadWord, ReadArgument};
ghost use Rattle.busy_forbidden.specs.Calls.{IsSame};
ghost use Rattle.node_rows.specs.Steps.{goes_on, root_on, with_store, written_by, moved_by, IsOf, MayStepOn, Known};

use crate::rule::NodeRows;
use crate::view::NodeView;
use atomic_table::Play;
use busy_forbidden::{Seat, Table};
use std::marker::{Brand, PhantomData};

/// The step that a load or a store is. Each call picks it, by its operands.
pub(crate) trait Chosen {
    ghost step: { Step };
}

impl Chosen for Brand {
    ghost step = { Go };
}

struct OnChosen<X> {
    of: PhantomData<X>,
}

impl<X: Chosen> Play<(), NodeView> for OnChosen<X> {
    ghost then = { goes_on X.step };
}

/// Which protected row a load is of. Each call picks it.
pub(crate) trait ChosenRoot {
    ghost place: { ℕ };
}

impl ChosenRoot for Brand {
    ghost place = { 0 };
}

struct OnRoot<X> {
    of: PhantomData<X>,
}

impl<X: ChosenRoot> Play<(), NodeView> for OnRoot<X> {
    ghost then = { root_on X.place };
}

// A load of the chosen protected row, whose place only the proof reads.
fn load_root_as<X: ChosenRoot>(
    table: &Table<NodeRows>,
    seat: &mut Seat<NodeRows>,
    word: usize,
    _place: u64,
) -> u64
    requires of { IsOf table.now.shared.table_id table.now.shared.key seat.old.seat }
    requires may { MayStepOn table.now.shared.key seat.old.number seat.old.seat.me.0
        (LoadRoot X.place) word }
    ensures of { IsOf table.now.shared.table_id table.now.shared.key seat.new.seat }
    ensures same { IsSame seat.old.seat seat.new.seat
        × (seat.new.number ≡ seat.old.number) × (seat.new.seats ≡ seat.old.seats) }
    ensures view { seat.new.seat.me.0 ≡ with_store seat.old.seat.me.0
        (moved_by (LoadRoot X.place) seat.old.seat.me.0.store result) }
    ensures known { Known table.now.shared.key seat.new.seat.me.0.store }
    ensures row { result ≡ get_or seat.old.seat.me.0.store.roots X.place 0 }
{
    table.shared.load::<OnRoot<X>>(&mut seat.seat, word)
}

// A load of the chosen step, whose operands only the proof reads.
fn load_chosen<X: Chosen>(
    table: &Table<NodeRows>,
    seat: &mut Seat<NodeRows>,
    word: usize,
    _operands: (u64, u64),
) -> u64
    requires of { IsOf table.now.shared.table_id table.now.shared.key seat.old.seat }
    requires may { MayStepOn table.now.shared.key seat.old.number seat.old.seat.me.0 X.step word }
    requires loads { (n : ℕ) → written_by X.step seat.old.seat.me.0.store n ≡ n }
    ensures of { IsOf table.now.shared.table_id table.now.shared.key seat.new.seat }
    ensures same { IsSame seat.old.seat seat.new.seat
        × (seat.new.number ≡ seat.old.number) × (seat.new.seats ≡ seat.old.seats) }
    ensures view { seat.new.seat.me.0 ≡ with_store seat.old.seat.me.0
        (moved_by X.step seat.old.seat.me.0.store result) }
    ensures known { Known table.now.shared.key seat.new.seat.me.0.store }
{
    table.shared.load::<OnChosen<X>>(&mut seat.seat, word)
}

// A store of the chosen step, whose operand only the proof reads.
fn store_chosen<X: Chosen>(
    table: &Table<NodeRows>,
    seat: &mut Seat<NodeRows>,
    word: usize,
    value: u64,
    _operand: u64,
)
    requires of { IsOf table.now.shared.table_id table.now.shared.key seat.old.seat }
    requires may { MayStepOn table.now.shared.key seat.old.number seat.old.seat.me.0 X.step word }
    requires stores { (n : ℕ) → written_by X.step seat.old.seat.me.0.store n ≡ value }
    requires moves { (m n : ℕ) → moved_by X.step seat.old.seat.me.0.store m
        ≡ moved_by X.step seat.old.seat.me.0.store n }
    ensures of { IsOf table.now.shared.table_id table.now.shared.key seat.new.seat }
    ensures same { IsSame seat.old.seat seat.new.seat
        × (seat.new.number ≡ seat.old.number) × (seat.new.seats ≡ seat.old.seats) }
    ensures view { seat.new.seat.me.0 ≡ with_store seat.old.seat.me.0
        (moved_by X.step seat.old.seat.me.0.store 0) }
    ensures known { Known table.now.shared.key seat.new.seat.me.0.store }
{
    table
        .shared
        .store::<OnChosen<X>>(&mut seat.seat, word, value);
}

/// Loads the k-th own protected row, which the pass may use then.
pub fn load_root(table: &Table<NodeRows>, seat: &mut Seat<NodeRows>, word: usize, k: u64) -> u64
    requires of { IsOf table.now.shared.table_id table.now.shared.key seat.old.seat }
    requires may { MayStepOn table.now.shared.key seat.old.number seat.old.seat.me.0 (LoadRoot k)
        word }
    ensures of { IsOf table.now.shared.table_id table.now.shared.key seat.new.seat }
    ensures same { IsSame seat.old.seat seat.new.seat
        × (seat.new.number ≡ seat.old.number) × (seat.new.seats ≡ seat.old.seats) }
    ensures view { seat.new.seat.me.0 ≡ with_store seat.old.seat.me.0
        (moved_by (LoadRoot k) seat.old.seat.me.0.store result) }
    ensures known { Known table.now.shared.key seat.new.seat.me.0.store }
    ensures row { result ≡ get_or seat.old.seat.me.0.store.roots k 0 }
{
    load_root_as::<Brand>(table, seat, word, k)
}

/// Stores a row as the k-th own protected row.
pub fn store_root(table: &Table<NodeRows>, seat: &mut Seat<NodeRows>, word: usize, k: u64, row: u64)
    requires of { IsOf table.now.shared.table_id table.now.shared.key seat.old.seat }
    requires may { MayStepOn table.now.shared.key seat.old.number seat.old.seat.me.0
        (StoreRoot k row) word }
    ensures of { IsOf table.now.shared.table_id table.now.shared.key seat.new.seat }
    ensures same { IsSame seat.old.seat seat.new.seat
        × (seat.new.number ≡ seat.old.number) × (seat.new.seats ≡ seat.old.seats) }
    ensures view { seat.new.seat.me.0 ≡ with_store seat.old.seat.me.0
        (moved_by (StoreRoot k row) seat.old.seat.me.0.store 0) }
    ensures known { Known table.now.shared.key seat.new.seat.me.0.store }
{
    store_chosen::<Brand>(table, seat, word, row, k);
}

/// Stores how many rows the pass protects.
pub fn store_root_count(table: &Table<NodeRows>, seat: &mut Seat<NodeRows>, word: usize, count: u64)
    requires of { IsOf table.now.shared.table_id table.now.shared.key seat.old.seat }
    requires may { MayStepOn table.now.shared.key seat.old.number seat.old.seat.me.0
        (StoreCount count) word }
    ensures of { IsOf table.now.shared.table_id table.now.shared.key seat.new.seat }
    ensures same { IsSame seat.old.seat seat.new.seat
        × (seat.new.number ≡ seat.old.number) × (seat.new.seats ≡ seat.old.seats) }
    ensures view { seat.new.seat.me.0 ≡ with_store seat.old.seat.me.0
        (moved_by (StoreCount count) seat.old.seat.me.0.store 0) }
    ensures known { Known table.now.shared.key seat.new.seat.me.0.store }
{
    store_chosen::<Brand>(table, seat, word, count, 0);
}

/// Loads the k-th word of a row that the pass may use: its symbol word, its count of arguments, or
/// an integer's value.
pub fn read_word(
    table: &Table<NodeRows>,
    seat: &mut Seat<NodeRows>,
    word: usize,
    row: u64,
    k: u64,
) -> u64
    requires of { IsOf table.now.shared.table_id table.now.shared.key seat.old.seat }
    requires may { MayStepOn table.now.shared.key seat.old.number seat.old.seat.me.0
        (ReadWord row k) word }
    ensures of { IsOf table.now.shared.table_id table.now.shared.key seat.new.seat }
    ensures same { IsSame seat.old.seat seat.new.seat
        × (seat.new.number ≡ seat.old.number) × (seat.new.seats ≡ seat.old.seats) }
    ensures view { seat.new.seat.me.0 ≡ with_store seat.old.seat.me.0
        (moved_by (ReadWord row k) seat.old.seat.me.0.store result) }
    ensures known { Known table.now.shared.key seat.new.seat.me.0.store }
{
    load_chosen::<Brand>(table, seat, word, (row, k))
}

/// Loads the j-th argument of a row that the pass may use.
pub fn read_argument(
    table: &Table<NodeRows>,
    seat: &mut Seat<NodeRows>,
    word: usize,
    row: u64,
    j: u64,
) -> u64
    requires of { IsOf table.now.shared.table_id table.now.shared.key seat.old.seat }
    requires may { MayStepOn table.now.shared.key seat.old.number seat.old.seat.me.0
        (ReadArgument row j) word }
    ensures of { IsOf table.now.shared.table_id table.now.shared.key seat.new.seat }
    ensures same { IsSame seat.old.seat seat.new.seat
        × (seat.new.number ≡ seat.old.number) × (seat.new.seats ≡ seat.old.seats) }
    ensures view { seat.new.seat.me.0 ≡ with_store seat.old.seat.me.0
        (moved_by (ReadArgument row j) seat.old.seat.me.0.store result) }
    ensures known { Known table.now.shared.key seat.new.seat.me.0.store }
{
    load_chosen::<Brand>(table, seat, word, (row, j))
}
