//! The steps of a creation in order, each with what the own view says before it and after it.
ghost use Rattle.std.specs.Prelude.{◌≡◌, ◌≢◌, ◌<◌, ◌≤◌, ◌+◌, ◌==◌, if◌then◌else◌, IfNone, IfSome, get_or, length, max, nat_lt, Some};
ghost use Rattle.history_core.specs.declared.entry.Entry.TheVariants.{Make, Find};
ghost use Rattle.store_model.specs.declared.view.Call.TheVariants.{Comparing, Passing, Finding, Ended, Counting, Drawing, Placing, Filling, Numbering, Linking, Publishing};
ghost use Rattle.store_model.specs.Calls.{words_of};
ghost use Rattle.store_model.specs.Machine.{arrived, filled, gained, refusing, overdrawn, with_call};
ghost use Rattle.node_rows.specs.Rows.{names};
ghost use Rattle.node_rows.specs.Steps.{with_store};
ghost use Rattle.term_create.specs.Stage.{IsAt, IsBased, SameSeat, IsOther, GoesOn, HoldsAllAlone, FillsAfter, content, at_call, stage};

use crate::asked::{Asked, Drawn, Walk};
use crate::counting::Steps;
use crate::places::{birth_place, next_place, word_place};
use crate::words::word_at;
use busy_forbidden::Seat;
use node_rows::{
    NodeRows, bucket_word, claim_word, free_count_word, free_place_word, go_draw, go_load,
    go_publish, go_store,
};
use std::sync::ledger::Ledger;

// Compares word k of the row that the walk is at with the asked one: the word there, where it
// differs.
#[inline(always)]
pub(crate) fn compare_one<L: Ledger>(
    asked: &Asked<'_>,
    seat: &mut Seat<NodeRows>,
    steps: &mut Steps<L>,
    walk: Walk,
    at: u64,
    k: usize,
    wanted: u64,
) -> Option<u64>
    requires at { IsAt asked.now seat.old.seat }
    requires below { k < length (words_of (content asked.now)) }
    requires wanted { wanted ≡ get_or (words_of (content asked.now)) k 0 }
    requires stage { seat.old.seat.me.0.store.call ≡ Comparing (content asked.now) walk.drawn
        walk.from walk.old at k }
    ensures at { IsAt asked.now seat.new.seat }
    ensures same { SameSeat seat.old.seat seat.new.seat
        seat.old.number seat.new.number seat.old.seats seat.new.seats }
    ensures equal { IfNone result
        (seat.new.seat.me.0 ≡ at_call seat.old.seat.me.0
        (stage (content asked.now) walk.drawn walk.from walk.old at (k + 1))) }
    ensures other { IfSome result (λ n. (n ≢ get_or (words_of (content asked.now)) k 0)
        × (seat.new.seat.me.0 ≡ at_call seat.old.seat.me.0
        (Passing (content asked.now) walk.drawn walk.from walk.old at (k, n)))) }
    ensures tick { steps.new ≡ steps.old + 1 }
{
    steps.tick();
    let found = go_load(&asked.store.table, seat, word_place(asked, at - 1, k));
    if found == wanted {
        return None;
    }
    Some(found)
}

// Goes on to the next row, after one that differs in a word.
#[inline(always)]
pub(crate) fn pass_on<L: Ledger>(
    asked: &Asked<'_>,
    seat: &mut Seat<NodeRows>,
    steps: &mut Steps<L>,
    walk: Walk,
    at: u64,
) -> u64
    requires at { IsAt asked.now seat.old.seat }
    requires stage { IsOther seat.old.seat.me.0 seat.old.seat.me.0 (content asked.now) walk.drawn
        walk.from walk.old at }
    ensures at { IsAt asked.now seat.new.seat }
    ensures same { SameSeat seat.old.seat seat.new.seat
        seat.old.number seat.new.number seat.old.seats seat.new.seats }
    ensures view { GoesOn seat.old.seat.me.0 seat.new.seat.me.0 (content asked.now) walk.drawn
        walk.from walk.old at result }
    ensures tick { steps.new ≡ steps.old + 1 }
{
    steps.tick();
    go_load(&asked.store.table, seat, next_place(asked, at - 1))
}

// Notes the row that is the same, with its birth number.
#[inline(always)]
pub(crate) fn find<L: Ledger>(
    asked: &Asked<'_>,
    seat: &mut Seat<NodeRows>,
    steps: &mut Steps<L>,
    walk: Walk,
    row: u64,
) -> u64
    requires at { IsAt asked.now seat.old.seat }
    requires stage { seat.old.seat.me.0.store.call ≡ Finding (content asked.now) walk.drawn row }
    ensures at { IsAt asked.now seat.new.seat }
    ensures same { SameSeat seat.old.seat seat.new.seat
        seat.old.number seat.new.number seat.old.seats seat.new.seats }
    ensures view { seat.new.seat.me.0 ≡ with_store seat.old.seat.me.0
        (gained seat.old.seat.me.0.store (content asked.now) row result
        (Find (max seat.old.seat.me.0.store.seen result) asked.now.head (names asked.now.args.now)
        row)) }
    ensures tick { steps.new ≡ steps.old + 1 }
{
    steps.tick();
    go_load(&asked.store.table, seat, birth_place(asked, row))
}

// Loads the claim, at the chain's end.
pub(crate) fn read_claim<L: Ledger>(
    asked: &Asked<'_>,
    seat: &mut Seat<NodeRows>,
    steps: &mut Steps<L>,
    from: u64,
) -> u64
    requires at { IsAt asked.now seat.old.seat }
    requires stage { seat.old.seat.me.0.store.call ≡ Ended (content asked.now) from }
    ensures at { IsAt asked.now seat.new.seat }
    ensures same { SameSeat seat.old.seat seat.new.seat
        seat.old.number seat.new.number seat.old.seats seat.new.seats }
    ensures view { seat.new.seat.me.0 ≡ at_call seat.old.seat.me.0
        (Counting (content asked.now) from result) }
    ensures tick { steps.new ≡ steps.old + 1 }
{
    steps.tick();
    go_load(&asked.store.table, seat, claim_word(&asked.store.sizes))
}

// Loads the free count, after the claim.
pub(crate) fn read_count<L: Ledger>(
    asked: &Asked<'_>,
    seat: &mut Seat<NodeRows>,
    steps: &mut Steps<L>,
    from: u64,
    claim: u64,
) -> u64
    requires at { IsAt asked.now seat.old.seat }
    requires stage { seat.old.seat.me.0.store.call ≡ Counting (content asked.now) from claim }
    ensures at { IsAt asked.now seat.new.seat }
    ensures same { SameSeat seat.old.seat seat.new.seat
        seat.old.number seat.new.number seat.old.seats seat.new.seats }
    ensures view { seat.new.seat.me.0 ≡ with_store seat.old.seat.me.0 (if nat_lt claim result
        then with_call seat.old.seat.me.0.store (Drawing (content asked.now) from result)
        else refusing seat.old.seat.me.0.store (content asked.now) from claim result) }
    ensures alone { result ≤ claim → HoldsAllAlone asked.now seat.old.seat.me.0 }
    ensures filled { result ≤ claim → FillsAfter asked.now seat.old.number seat.old.seat.me.0 }
    ensures tick { steps.new ≡ steps.old + 1 }
{
    steps.tick();
    go_load(
        &asked.store.table,
        seat,
        free_count_word(&asked.store.sizes),
    )
}

// Draws a number.
pub(crate) fn draw<L: Ledger>(
    asked: &Asked<'_>,
    seat: &mut Seat<NodeRows>,
    steps: &mut Steps<L>,
    from: u64,
    count: u64,
) -> u64
    requires at { IsAt asked.now seat.old.seat }
    requires stage { seat.old.seat.me.0.store.call ≡ Drawing (content asked.now) from count }
    ensures at { IsAt asked.now seat.new.seat }
    ensures same { SameSeat seat.old.seat seat.new.seat
        seat.old.number seat.new.number seat.old.seats seat.new.seats }
    ensures view { seat.new.seat.me.0 ≡ with_store seat.old.seat.me.0 (if nat_lt result count
        then with_call seat.old.seat.me.0.store (Placing (content asked.now) from result)
        else overdrawn seat.old.seat.me.0.store (content asked.now) from result count) }
    ensures alone { count ≤ result → HoldsAllAlone asked.now seat.old.seat.me.0 }
    ensures filled { count ≤ result → FillsAfter asked.now seat.old.number seat.old.seat.me.0 }
    ensures tick { steps.new ≡ steps.old + 1 }
{
    steps.tick();
    go_draw(&asked.store.table, seat, claim_word(&asked.store.sizes))
}

// Loads the free place that was drawn.
pub(crate) fn read_place<L: Ledger>(
    asked: &Asked<'_>,
    seat: &mut Seat<NodeRows>,
    steps: &mut Steps<L>,
    from: u64,
    index: u64,
) -> u64
    requires at { IsAt asked.now seat.old.seat }
    requires stage { seat.old.seat.me.0.store.call ≡ Placing (content asked.now) from index }
    ensures at { IsAt asked.now seat.new.seat }
    ensures same { SameSeat seat.old.seat seat.new.seat
        seat.old.number seat.new.number seat.old.seats seat.new.seats }
    ensures view { seat.new.seat.me.0 ≡ at_call seat.old.seat.me.0
        (Filling (content asked.now) from index result 0) }
    ensures tick { steps.new ≡ steps.old + 1 }
{
    steps.tick();
    go_load(
        &asked.store.table,
        seat,
        free_place_word(&asked.store.sizes, index),
    )
}

// Stores word k of the drawn row.
pub(crate) fn fill_one<L: Ledger>(
    asked: &Asked<'_>,
    seat: &mut Seat<NodeRows>,
    steps: &mut Steps<L>,
    drawn: Drawn,
    k: usize,
)
    requires at { IsAt asked.now seat.old.seat }
    requires below { k < length (words_of (content asked.now)) }
    requires stage { seat.old.seat.me.0.store.call ≡ Filling (content asked.now) drawn.from
        drawn.index drawn.row k }
    ensures at { IsAt asked.now seat.new.seat }
    ensures same { SameSeat seat.old.seat seat.new.seat
        seat.old.number seat.new.number seat.old.seats seat.new.seats }
    ensures view { seat.new.seat.me.0 ≡ at_call seat.old.seat.me.0
        (filled (content asked.now) drawn.from drawn.index drawn.row k) }
    ensures tick { steps.new ≡ steps.old + 1 }
{
    steps.tick();
    let word = word_place(asked, drawn.row, k);
    go_store(&asked.store.table, seat, word, word_at(asked, k));
}

// Stores the birth number of the drawn row.
pub(crate) fn number_row<L: Ledger>(
    asked: &Asked<'_>,
    seat: &mut Seat<NodeRows>,
    steps: &mut Steps<L>,
    drawn: Drawn,
)
    requires at { IsAt asked.now seat.old.seat }
    requires based { IsBased asked.now seat.old.seat.me.0.store }
    requires stage { seat.old.seat.me.0.store.call ≡ Numbering (content asked.now) drawn.from
        drawn.index drawn.row }
    ensures at { IsAt asked.now seat.new.seat }
    ensures same { SameSeat seat.old.seat seat.new.seat
        seat.old.number seat.new.number seat.old.seats seat.new.seats }
    ensures view { seat.new.seat.me.0 ≡ at_call seat.old.seat.me.0
        (Linking (content asked.now) drawn.from drawn.index drawn.row) }
    ensures tick { steps.new ≡ steps.old + 1 }
{
    steps.tick();
    let word = birth_place(asked, drawn.row);
    go_store(&asked.store.table, seat, word, asked.base + drawn.index);
}

// Stores the link of the drawn row.
pub(crate) fn link<L: Ledger>(
    asked: &Asked<'_>,
    seat: &mut Seat<NodeRows>,
    steps: &mut Steps<L>,
    drawn: Drawn,
)
    requires at { IsAt asked.now seat.old.seat }
    requires stage { seat.old.seat.me.0.store.call ≡ Linking (content asked.now) drawn.from
        drawn.index drawn.row }
    ensures at { IsAt asked.now seat.new.seat }
    ensures same { SameSeat seat.old.seat seat.new.seat
        seat.old.number seat.new.number seat.old.seats seat.new.seats }
    ensures view { seat.new.seat.me.0 ≡ at_call seat.old.seat.me.0
        (Publishing (content asked.now) drawn.from drawn.index drawn.row) }
    ensures tick { steps.new ≡ steps.old + 1 }
{
    steps.tick();
    go_store(
        &asked.store.table,
        seat,
        next_place(asked, drawn.row),
        drawn.from,
    );
}

// Publishes the row where its chain has the same head still.
pub(crate) fn publish<L: Ledger>(
    asked: &Asked<'_>,
    seat: &mut Seat<NodeRows>,
    steps: &mut Steps<L>,
    drawn: Drawn,
) -> u64
    requires at { IsAt asked.now seat.old.seat }
    requires based { IsBased asked.now seat.old.seat.me.0.store }
    requires stage { seat.old.seat.me.0.store.call ≡ Publishing (content asked.now) drawn.from
        drawn.index drawn.row }
    ensures at { IsAt asked.now seat.new.seat }
    ensures same { SameSeat seat.old.seat seat.new.seat
        seat.old.number seat.new.number seat.old.seats seat.new.seats }
    ensures view { seat.new.seat.me.0 ≡ with_store seat.old.seat.me.0 (if result == drawn.from
        then gained seat.old.seat.me.0.store (content asked.now) drawn.row
        (asked.now.base + drawn.index)
        (Make (asked.now.base + drawn.index) asked.now.head (names asked.now.args.now) drawn.row)
        else with_call seat.old.seat.me.0.store
        (arrived (content asked.now) (Some (drawn.index, drawn.row)) result drawn.from result)) }
    ensures tick { steps.new ≡ steps.old + 1 }
{
    steps.tick();
    let word = bucket_word(&asked.store.sizes, asked.place);
    go_publish(&asked.store.table, seat, word, drawn.from, drawn.row + 1)
}
