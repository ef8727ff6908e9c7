// The numbers that workers draw from one word.
ghost use Rattle.std.specs.Prelude.{◌≡◌, ℕ, ◌+◌, ◌<◌, ◌^◌, [], All, IfOk};
ghost use Rattle.worker_crew.specs.Dealt.{IsIn, undrawn, drew, one_less, one_share, joined, times, once_below};

use atomic_table::{Join, Play, Split, TableRule};
use faults::Memory;
use std::alloc::Global;
use std::collections::LinkedList;

/// How many shares there are in the draws, one for each worker, and how many terms.
#[derive(Clone, Copy)]
pub struct Extent {
    pub shares: u64,
    pub end: u64,
}

/// What a seat has drawn. No value of it is made.
pub struct Drawn {
    /// The numbers that it drew, in order.
    pub numbers: LinkedList<u64>,
    /// Its shares in the draws. Who has all of them knows all numbers.
    pub shares: u64,
    /// The number of terms.
    pub end: u64,
    /// How often it drew a number that is no term's.
    pub past: u64,
}

/// The rule of the draws: the numbers below the word are each in exactly one view's list, once.
pub struct Drawing;

impl TableRule<(), Drawn, Extent> for Drawing {
    ghost use Rattle.worker_crew.specs.Dealt.{IsDealt, undrawn};

    ghost holds = { IsDealt };

    ghost first = { undrawn };
}

struct NextNumber;

impl Play<(), Drawn> for NextNumber {
    ghost use Rattle.worker_crew.specs.Dealt.{Draws};

    ghost then = { Draws };
}

struct Look;

impl Play<(), Drawn> for Look {
    ghost use Rattle.worker_crew.specs.Dealt.{Looks};

    ghost then = { Looks };
}

struct OneShare;

impl Split<Drawn> for OneShare {
    ghost use Rattle.worker_crew.specs.Dealt.{one_less, one_share};

    ghost left = { one_less };

    ghost right = { one_share };
}

struct Together;

impl Join<Drawn> for Together {
    ghost use Rattle.worker_crew.specs.Dealt.{joined, spent};

    ghost both = { joined };

    ghost spent = { spent };
}

/// The word that numbers are drawn from.
pub type Draws = atomic_table::Table<(), Drawn, Extent, Drawing, Global>;

/// A seat of the draws.
pub type Seat = atomic_table::Seat<(), Drawn>;

// No number is drawn yet. The seat has all shares.
pub(crate) fn draws_of(alloc: Global, about: &Extent) -> Result<(Draws, Seat), Memory>
    requires { about.now.end + about.now.shares < 2 ^ 64 }
    ensures about { IfOk result (λ d. d.0.shared.key ≡ about.now) }
    ensures seat { IfOk result
        (λ d. IsIn d.0.shared.table_id d.1.table_id d.1.me (undrawn about.now)) }
{
    Ok(Draws::of_words(alloc, &[0], about)?)
}

/// Draws the next number, which nobody else draws.
pub fn draw(draws: &Draws, seat: &mut Seat) -> u64
    requires seat { IsIn draws.now.shared.table_id seat.old.table_id seat.old.me seat.old.me.0 }
    requires share { seat.old.me.0.past < seat.old.me.0.shares }
    ensures drew { IsIn draws.now.shared.table_id seat.new.table_id seat.new.me
        (drew seat.old.me.0 result) }
    ensures above { All (λ x. x < result) seat.old.me.0.numbers }
{
    draws.shared.fetch_add::<NextNumber>(seat, 0, 1)
}

// Cuts off one share.
pub(crate) fn cut(draws: &Draws, seat: &mut Seat) -> Seat
    requires seat { IsIn draws.now.shared.table_id seat.old.table_id seat.old.me seat.old.me.0 }
    requires share { 0 < seat.old.me.0.shares }
    requires none { (seat.old.me.0.numbers ≡ []) × (seat.old.me.0.past ≡ 0) }
    ensures left { IsIn draws.now.shared.table_id seat.new.table_id seat.new.me
        (one_less seat.old.me.0) }
    ensures cut { IsIn draws.now.shared.table_id result.table_id result.me
        (one_share seat.old.me.0) }
{
    draws.shared.split_seat::<OneShare>(seat)
}

// Joins what another drew.
pub(crate) fn join(draws: &Draws, seat: &mut Seat, other: Seat)
    requires seat { IsIn draws.now.shared.table_id seat.old.table_id seat.old.me seat.old.me.0 }
    requires other { IsIn draws.now.shared.table_id other.table_id other.me other.me.0 }
    requires share { 0 < other.me.0.shares }
    ensures { IsIn draws.now.shared.table_id seat.new.table_id seat.new.me
        (joined seat.old.me.0 other.me.0) }
{
    draws.shared.join_seat::<Together>(seat, other);
}

// How many numbers are drawn, told to who has all shares: each number below is drawn once, and no
// other is.
pub(crate) fn count_drawn(draws: &Draws, seat: &mut Seat) -> u64
    requires seat { IsIn draws.now.shared.table_id seat.old.table_id seat.old.me seat.old.me.0 }
    requires all { seat.old.me.0.shares ≡ draws.now.shared.key.shares }
    ensures once { (x : ℕ) → times x seat.new.me.0.numbers ≡ once_below result x }
    ensures same { seat.new.me ≡ seat.old.me }
{
    draws.shared.load::<Look>(seat, 0)
}
