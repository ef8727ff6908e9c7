//! The walk along a chain.
ghost use Rattle.std.specs.Prelude.{◌≡◌, ◌≤◌, ◌+◌, ◌<◌, pred, get_or, length, MatchBool, MatchOption};
ghost use Rattle.store_model.specs.declared.view.Call.TheVariants.{Comparing, Finding};
ghost use Rattle.store_model.specs.Calls.{words_of};
ghost use Rattle.store_model.specs.Machine.{arrived, ended, widest};
ghost use Rattle.node_rows.specs.Rows.{names};
ghost use Rattle.term_create.specs.Counted.{Takes};
ghost use Rattle.term_create.specs.Stage.{IsAt, SameSeat, Notes, IsOther, HasPassed, content, at_call, stage};

use crate::asked::{Asked, Noted, Walk};
use crate::counting::Steps;
use crate::stages::{compare_one, find, pass_on};
use crate::words::argument_at;
use busy_forbidden::Seat;
use node_rows::NodeRows;
use std::sync::ledger::Ledger;
use term_model::Head;

// Compares word k of the row that the walk is at with the asked one: whether it is the same.
#[inline(always)]
fn compare_word<L: Ledger>(
    asked: &Asked<'_>,
    seat: &mut Seat<NodeRows>,
    steps: &mut Steps<L>,
    walk: Walk,
    at: u64,
    k: usize,
    wanted: u64,
) -> bool
    requires at { IsAt asked.now seat.old.seat }
    requires below { k < length (words_of (content asked.now)) }
    requires wanted { wanted ≡ get_or (words_of (content asked.now)) k 0 }
    requires stage { seat.old.seat.me.0.store.call ≡ stage (content asked.now) walk.drawn walk.from
        walk.old at k }
    ensures at { IsAt asked.now seat.new.seat }
    ensures same { SameSeat seat.old.seat seat.new.seat
        seat.old.number seat.new.number seat.old.seats seat.new.seats }
    ensures view { MatchBool result
        (seat.new.seat.me.0 ≡ at_call seat.old.seat.me.0
        (stage (content asked.now) walk.drawn walk.from walk.old at (k + 1)))
        (IsOther seat.old.seat.me.0 seat.new.seat.me.0 (content asked.now) walk.drawn walk.from
        walk.old at) }
    ensures cost { steps.new ≤ steps.old + 1 }
{
    if compare_one(asked, seat, steps, walk, at, k, wanted).is_some() {
        return false;
    }
    true
}

// Compares the first two words of the row that the walk is at, which each row has: whether they are
// the same.
#[inline(always)]
fn compare_two<L: Ledger>(
    asked: &Asked<'_>,
    seat: &mut Seat<NodeRows>,
    steps: &mut Steps<L>,
    walk: Walk,
    at: u64,
) -> bool
    requires at { IsAt asked.now seat.old.seat }
    requires stage { seat.old.seat.me.0.store.call ≡ Comparing (content asked.now) walk.drawn
        walk.from walk.old at 0 }
    ensures at { IsAt asked.now seat.new.seat }
    ensures same { SameSeat seat.old.seat seat.new.seat
        seat.old.number seat.new.number seat.old.seats seat.new.seats }
    ensures view { MatchBool result
        (seat.new.seat.me.0 ≡ at_call seat.old.seat.me.0
        (stage (content asked.now) walk.drawn walk.from walk.old at 2))
        (IsOther seat.old.seat.me.0 seat.new.seat.me.0 (content asked.now) walk.drawn walk.from
        walk.old at) }
    ensures cost { steps.new ≤ steps.old + 2 }
{
    if !compare_word(asked, seat, steps, walk, at, 0, asked.symbol) {
        return false;
    }
    let count = asked.args.len() as u64;
    compare_word(asked, seat, steps, walk, at, 1, count)
}

// Compares argument j of the row that the walk is at: whether it is the same.
#[inline(always)]
fn compare_argument<L: Ledger>(
    asked: &Asked<'_>,
    seat: &mut Seat<NodeRows>,
    steps: &mut Steps<L>,
    walk: Walk,
    at: u64,
    j: usize,
) -> bool
    requires at { IsAt asked.now seat.old.seat }
    requires many { length (words_of (content asked.now)) ≡ length asked.now.args.now + 2 }
    requires below { j < length asked.now.args.now }
    requires stage { seat.old.seat.me.0.store.call ≡ stage (content asked.now) walk.drawn walk.from
        walk.old at (j + 2) }
    ensures at { IsAt asked.now seat.new.seat }
    ensures same { SameSeat seat.old.seat seat.new.seat
        seat.old.number seat.new.number seat.old.seats seat.new.seats }
    ensures view { MatchBool result
        (seat.new.seat.me.0 ≡ at_call seat.old.seat.me.0
        (stage (content asked.now) walk.drawn walk.from walk.old at (j + 3)))
        (IsOther seat.old.seat.me.0 seat.new.seat.me.0 (content asked.now) walk.drawn walk.from
        walk.old at) }
    ensures cost { steps.new ≤ steps.old + 1 }
{
    let wanted = argument_at(asked, j);
    compare_word(asked, seat, steps, walk, at, j + 2, wanted)
}

// Compares the arguments of the row that the walk is at, after its first two words, however many
// they are: whether they are the same.
fn compare_each<L: Ledger>(
    asked: &Asked<'_>,
    seat: &mut Seat<NodeRows>,
    steps: &mut Steps<L>,
    walk: Walk,
    at: u64,
) -> bool
    requires at { IsAt asked.now seat.old.seat }
    requires many { length (words_of (content asked.now)) ≡ length asked.now.args.now + 2 }
    requires stage { seat.old.seat.me.0.store.call ≡ stage (content asked.now) walk.drawn walk.from
        walk.old at 2 }
    ensures at { IsAt asked.now seat.new.seat }
    ensures same { SameSeat seat.old.seat seat.new.seat
        seat.old.number seat.new.number seat.old.seats seat.new.seats }
    ensures view { MatchBool result
        (seat.new.seat.me.0 ≡ at_call seat.old.seat.me.0
        (Finding (content asked.now) walk.drawn (pred at)))
        (IsOther seat.old.seat.me.0 seat.new.seat.me.0 (content asked.now) walk.drawn walk.from
        walk.old at) }
    ensures cost { steps.new ≤ steps.old + length asked.now.args.now }
{
    for j in 0..asked.args.len() {
        if !compare_argument(asked, seat, steps, walk, at, j) {
            return false;
        }
    }
    true
}

// Compares two arguments, where there are no more.
#[inline(always)]
fn compare_pair<L: Ledger>(
    asked: &Asked<'_>,
    seat: &mut Seat<NodeRows>,
    steps: &mut Steps<L>,
    walk: Walk,
    at: u64,
) -> bool
    requires at { IsAt asked.now seat.old.seat }
    requires many { length (words_of (content asked.now)) ≡ length asked.now.args.now + 2 }
    requires two { length asked.now.args.now ≡ 2 }
    requires stage { seat.old.seat.me.0.store.call ≡ stage (content asked.now) walk.drawn walk.from
        walk.old at 2 }
    ensures at { IsAt asked.now seat.new.seat }
    ensures same { SameSeat seat.old.seat seat.new.seat
        seat.old.number seat.new.number seat.old.seats seat.new.seats }
    ensures view { MatchBool result
        (seat.new.seat.me.0 ≡ at_call seat.old.seat.me.0
        (Finding (content asked.now) walk.drawn (pred at)))
        (IsOther seat.old.seat.me.0 seat.new.seat.me.0 (content asked.now) walk.drawn walk.from
        walk.old at) }
    ensures cost { steps.new ≤ steps.old + 2 }
{
    if !compare_argument(asked, seat, steps, walk, at, 0) {
        return false;
    }
    compare_argument(asked, seat, steps, walk, at, 1)
}

// Compares the arguments of the row that the walk is at, without a loop where they are few, as they
// mostly are: whether they are the same.
#[inline(always)]
fn compare_arguments<L: Ledger>(
    asked: &Asked<'_>,
    seat: &mut Seat<NodeRows>,
    steps: &mut Steps<L>,
    walk: Walk,
    at: u64,
) -> bool
    requires at { IsAt asked.now seat.old.seat }
    requires many { length (words_of (content asked.now)) ≡ length asked.now.args.now + 2 }
    requires stage { seat.old.seat.me.0.store.call ≡ stage (content asked.now) walk.drawn walk.from
        walk.old at 2 }
    ensures at { IsAt asked.now seat.new.seat }
    ensures same { SameSeat seat.old.seat seat.new.seat
        seat.old.number seat.new.number seat.old.seats seat.new.seats }
    ensures view { MatchBool result
        (seat.new.seat.me.0 ≡ at_call seat.old.seat.me.0
        (Finding (content asked.now) walk.drawn (pred at)))
        (IsOther seat.old.seat.me.0 seat.new.seat.me.0 (content asked.now) walk.drawn walk.from
        walk.old at) }
    ensures cost { steps.new ≤ steps.old + length asked.now.args.now }
{
    match asked.args.len() {
        1 => compare_argument(asked, seat, steps, walk, at, 0),
        2 => compare_pair(asked, seat, steps, walk, at),
        _ => compare_each(asked, seat, steps, walk, at),
    }
}

// Compares what stands after the first two words of the row that the walk is at: whether it is the
// same.
#[inline(always)]
fn compare_rest<L: Ledger>(
    asked: &Asked<'_>,
    seat: &mut Seat<NodeRows>,
    steps: &mut Steps<L>,
    walk: Walk,
    at: u64,
) -> bool
    requires at { IsAt asked.now seat.old.seat }
    requires stage { seat.old.seat.me.0.store.call ≡ stage (content asked.now) walk.drawn walk.from
        walk.old at 2 }
    ensures at { IsAt asked.now seat.new.seat }
    ensures same { SameSeat seat.old.seat seat.new.seat
        seat.old.number seat.new.number seat.old.seats seat.new.seats }
    ensures view { MatchBool result
        (seat.new.seat.me.0 ≡ at_call seat.old.seat.me.0
        (Finding (content asked.now) walk.drawn (pred at)))
        (IsOther seat.old.seat.me.0 seat.new.seat.me.0 (content asked.now) walk.drawn walk.from
        walk.old at) }
    ensures cost { steps.new ≤ steps.old + widest asked.now.store.now.sizes }
{
    match asked.head {
        Head::Int(value) => compare_word(asked, seat, steps, walk, at, 2, value),
        Head::App(_) | Head::Nil | Head::Cons => compare_arguments(asked, seat, steps, walk, at),
    }
}

// Compares the row that the walk is at: whether it is the same.
#[inline(always)]
fn compare_row<L: Ledger>(
    asked: &Asked<'_>,
    seat: &mut Seat<NodeRows>,
    steps: &mut Steps<L>,
    walk: Walk,
    at: u64,
) -> bool
    requires at { IsAt asked.now seat.old.seat }
    requires stage { seat.old.seat.me.0.store.call ≡ Comparing (content asked.now) walk.drawn
        walk.from walk.old at 0 }
    ensures at { IsAt asked.now seat.new.seat }
    ensures same { SameSeat seat.old.seat seat.new.seat
        seat.old.number seat.new.number seat.old.seats seat.new.seats }
    ensures view { MatchBool result
        (seat.new.seat.me.0 ≡ at_call seat.old.seat.me.0
        (Finding (content asked.now) walk.drawn (pred at)))
        (IsOther seat.old.seat.me.0 seat.new.seat.me.0 (content asked.now) walk.drawn walk.from
        walk.old at) }
    ensures cost { steps.new ≤ steps.old + (widest asked.now.store.now.sizes + 2) }
{
    if !compare_two(asked, seat, steps, walk, at) {
        return false;
    }
    compare_rest(asked, seat, steps, walk, at)
}

// Walks from a head to the word where the walk is to end, and ends with the row that is the same,
// where there is one.
#[inline(always)]
pub(crate) fn walk<L: Ledger>(
    asked: &Asked<'_>,
    seat: &mut Seat<NodeRows>,
    steps: &mut Steps<L>,
    walk: Walk,
) -> Option<Noted>
    requires at { IsAt asked.now seat.old.seat }
    requires stage { seat.old.seat.me.0.store.call ≡ arrived (content asked.now) walk.drawn
        walk.from walk.old walk.from }
    ensures at { IsAt asked.now seat.new.seat }
    ensures same { SameSeat seat.old.seat seat.new.seat
        seat.old.number seat.new.number seat.old.seats seat.new.seats }
    ensures view { MatchOption result
        (HasPassed seat.old.seat.me.0 seat.new.seat.me.0 (content asked.now)
        (ended (content asked.now) walk.drawn walk.from) walk.from walk.old)
        (Notes seat.old.seat.me.0 seat.new.seat.me.0 asked.now.head (names asked.now.args.now)) }
    ensures cost { let z = asked.now.store.now.sizes in let before = seat.old.seat.me.0.store.passed
        in MatchOption result
        (Takes z 0 before seat.new.seat.me.0.store.passed steps.old steps.new)
        (λ _. Takes z 0 before z.rows steps.old steps.new) }
{
    let mut at = walk.from;
    for _step in 0..asked.store.sizes.rows as u64 + 1 {
        if at == walk.old {
            return None;
        }
        if compare_row(asked, seat, steps, walk, at) {
            let birth = find(asked, seat, steps, walk, at - 1);
            return Some(Noted::Found(at - 1, birth));
        }
        at = pass_on(asked, seat, steps, walk, at);
    }
    unreachable!()
}
