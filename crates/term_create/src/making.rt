//! Making a row where a walk ends without one: a draw, the words of the drawn row, its publishing,
//! and what is told of it.
ghost use Rattle.std.specs.Prelude.{◌≡◌, ◌<◌, ◌≤◌, ◌+◌, ◌*◌, true, MatchResult, IfErr, get_or, length};
ghost use Rattle.store_model.specs.Calls.{words_of, bucket};
ghost use Rattle.store_model.specs.declared.view.Call.TheVariants.{Ended, Filling, Linking};
ghost use Rattle.store_model.specs.declared.view.Stay.TheVariants.{Ready};
ghost use Rattle.store_model.specs.Machine.{widest};
ghost use Rattle.node_rows.specs.Belonging.{IsOpen};
ghost use Rattle.node_rows.specs.Rows.{names};
ghost use Rattle.node_rows.specs.Full.{HoldsAll};
ghost use Rattle.node_rows.specs.Steps.{over, IsOf, Known};
ghost use Rattle.node_rows.specs.Told.{Tells, view_of};
ghost use Rattle.term_create.specs.Created.{WasFilled};
ghost use Rattle.term_create.specs.Fitting.{Fits};
ghost use Rattle.term_create.specs.Counted.{Takes};
ghost use Rattle.term_create.specs.Stage.{IsAt, IsBased, SameSeat, Notes, NotesRow, IsFull, Relinks, HoldsAllAlone, FillsAfter, content, at_call};

use crate::asked::{Asked, Drawn, Full, Noted, Walk};
use crate::counting::Steps;
use crate::stages::{
    draw, fill_one, link, number_row, publish, read_claim, read_count, read_place,
};
use crate::telling::tell;
use crate::walking::walk;
use crate::words::word_count;
use busy_forbidden::Seat;
use hash_buckets::symbol_word;
use node_rows::{NodeRows, Pass, Store};
use std::sync::ledger::Ledger;
use term_model::{Head, Row};

// Stores the words of the drawn row, and its birth number.
fn fill_row<L: Ledger>(
    asked: &Asked<'_>,
    seat: &mut Seat<NodeRows>,
    steps: &mut Steps<L>,
    drawn: Drawn,
)
    requires at { IsAt asked.now seat.old.seat }
    requires based { IsBased asked.now seat.old.seat.me.0.store }
    requires stage { seat.old.seat.me.0.store.call ≡ Filling (content asked.now) drawn.from
        drawn.index drawn.row 0 }
    ensures at { IsAt asked.now seat.new.seat }
    ensures same { SameSeat seat.old.seat seat.new.seat
        seat.old.number seat.new.number seat.old.seats seat.new.seats }
    ensures view { seat.new.seat.me.0 ≡ at_call seat.old.seat.me.0
        (Linking (content asked.now) drawn.from drawn.index drawn.row) }
    ensures cost { steps.new ≤ steps.old + (widest asked.now.store.now.sizes + 3) }
{
    let count = word_count(asked);
    for k in 0..count {
        fill_one(asked, seat, steps, drawn, k);
    }
    number_row(asked, seat, steps, drawn);
}

// Links the drawn row, and publishes it; or finds one that another seat has published meanwhile; or
// comes to a newer head.
fn publish_once<L: Ledger>(
    asked: &Asked<'_>,
    seat: &mut Seat<NodeRows>,
    steps: &mut Steps<L>,
    drawn: Drawn,
) -> Result<Noted, u64>
    requires at { IsAt asked.now seat.old.seat }
    requires based { IsBased asked.now seat.old.seat.me.0.store }
    requires stage { seat.old.seat.me.0.store.call ≡ Linking (content asked.now) drawn.from
        drawn.index drawn.row }
    ensures at { IsAt asked.now seat.new.seat }
    ensures same { SameSeat seat.old.seat seat.new.seat
        seat.old.number seat.new.number seat.old.seats seat.new.seats }
    ensures view { let v = seat.old.seat.me.0 in let w = seat.new.seat.me.0 in MatchResult result
        (Notes v w asked.now.head (names asked.now.args.now))
        (λ found. Relinks v w (Linking (content asked.now) found drawn.index drawn.row)) }
    ensures cost { let z = asked.now.store.now.sizes in let before = seat.old.seat.me.0.store.passed
        in MatchResult result
        (λ _. Takes z 2 before z.rows steps.old steps.new)
        (λ _. Takes z 2 before seat.new.seat.me.0.store.passed steps.old steps.new) }
{
    link(asked, seat, steps, drawn);
    let found = publish(asked, seat, steps, drawn);
    if found == drawn.from {
        return Ok(Noted::Made(drawn.row, asked.base + drawn.index));
    }
    let part = Walk {
        drawn: Some((drawn.index, drawn.row)),
        from: found,
        old: drawn.from,
    };
    match walk(asked, seat, steps, part) {
        Some(other) => Ok(other),
        None => Err(found),
    }
}

// Publishes the drawn row, or finds one that another seat has published meanwhile.
#[inline]
fn publish_row<L: Ledger>(
    asked: &Asked<'_>,
    seat: &mut Seat<NodeRows>,
    steps: &mut Steps<L>,
    drawn: Drawn,
) -> Noted
    requires at { IsAt asked.now seat.old.seat }
    requires based { IsBased asked.now seat.old.seat.me.0.store }
    requires stage { seat.old.seat.me.0.store.call ≡ Linking (content asked.now) drawn.from
        drawn.index drawn.row }
    ensures at { IsAt asked.now seat.new.seat }
    ensures same { SameSeat seat.old.seat seat.new.seat
        seat.old.number seat.new.number seat.old.seats seat.new.seats }
    ensures view { let v = seat.old.seat.me.0 in let w = seat.new.seat.me.0 in
        Notes v w asked.now.head (names asked.now.args.now) result }
    ensures cost { let z = asked.now.store.now.sizes in
        Takes z (2 * (z.rows + 1)) seat.old.seat.me.0.store.passed z.rows steps.old steps.new }
{
    let mut head_read = drawn.from;
    for _step in 0..asked.store.sizes.rows as u64 + 1 {
        let again = Drawn {
            from: head_read,
            index: drawn.index,
            row: drawn.row,
        };
        match publish_once(asked, seat, steps, again) {
            Ok(result) => return result,
            Err(found) => head_read = found,
        }
    }
    unreachable!()
}

// Draws a row, and stores it, where one is free.
#[inline]
fn draw_row<L: Ledger>(
    asked: &Asked<'_>,
    seat: &mut Seat<NodeRows>,
    steps: &mut Steps<L>,
    from: u64,
) -> Result<Drawn, Full>
    requires at { IsAt asked.now seat.old.seat }
    requires based { IsBased asked.now seat.old.seat.me.0.store }
    requires stage { seat.old.seat.me.0.store.call ≡ Ended (content asked.now) from }
    ensures at { IsAt asked.now seat.new.seat }
    ensures same { SameSeat seat.old.seat seat.new.seat
        seat.old.number seat.new.number seat.old.seats seat.new.seats }
    ensures view { let v = seat.old.seat.me.0 in let w = seat.new.seat.me.0 in MatchResult result
        (λ d. w ≡ at_call v (Linking (content asked.now) d.from d.index d.row))
        (λ _. IsFull v w (content asked.now) from) }
    ensures all { IfErr result (λ _. HoldsAllAlone asked.now seat.old.seat.me.0) }
    ensures filled { IfErr result (λ _. FillsAfter asked.now seat.old.number seat.old.seat.me.0) }
    ensures cost { steps.new ≤ steps.old + (widest asked.now.store.now.sizes + 7) }
{
    let claim = read_claim(asked, seat, steps, from);
    let count = read_count(asked, seat, steps, from, claim);
    if claim >= count {
        return Err(Full);
    }
    let index = draw(asked, seat, steps, from, count);
    if index >= count {
        return Err(Full);
    }
    let row = read_place(asked, seat, steps, from, index);
    let drawn = Drawn { from, index, row };
    fill_row(asked, seat, steps, drawn);
    Ok(drawn)
}

/// Makes the row that is asked, where the walk from this head has ended without it, and tells it.
/// It stands apart from the code that finds rows, which are mostly there. What is asked is laid
/// into memory here alone, so that a walk keeps it in registers.
#[cold]
#[inline(never)]
pub(crate) fn make_told<L: Ledger>(
    store: &Store,
    head: Head,
    args: &[Row],
    place: u64,
    pass: &mut Pass,
    steps: &mut Steps<L>,
    from: u64,
) -> Result<Row, Full>
    requires store { IsOpen store.now }
    requires second { length args.now ≡ get_or (words_of (over head (names args.now))) 1 0 }
    requires fits { Fits store.now.sizes head (names args.now) }
    requires within { place < store.now.sizes.buckets }
    requires of { IsOf store.now.table.shared.table_id store.now.table.shared.key
        pass.old.seat.seat }
    requires known { Known store.now.sizes (view_of pass.old).store }
    requires base { pass.old.base ≡ (view_of pass.old).store.base }
    requires place { place ≡ bucket (over head (names args.now)) (view_of pass.old).store.in_use }
    requires stage { (view_of pass.old).store.call ≡ Ended (over head (names args.now)) from }
    requires stay { (view_of pass.old).store.stay ≡ Ready }
    requires told { Tells pass.old }
    ensures of { IsOf store.now.table.shared.table_id store.now.table.shared.key
        pass.new.seat.seat }
    ensures known { Known store.now.sizes (view_of pass.new).store }
    ensures same { SameSeat pass.old.seat.seat pass.new.seat.seat
        pass.old.seat.number pass.new.seat.number pass.old.seat.seats pass.new.seat.seats }
    ensures loaded { (pass.new.base ≡ pass.old.base) × (pass.new.in_use ≡ pass.old.in_use) }
    ensures told { Tells pass.new }
    ensures view { let v = view_of pass.old in let w = view_of pass.new in MatchResult result
        (NotesRow v w head (names args.now))
        (λ _. IsFull v w (over head (names args.now)) from) }
    ensures all { IfErr result (λ _. store.now.sizes.seats ≡ 1
        → HoldsAll store.now.sizes.rows (view_of pass.old).store.entries) }
    ensures filled { IfErr result (λ _. (view_of pass.old).store.fresh ≡ true
        → WasFilled store.now.sizes pass.old.seat.number (view_of pass.old) head (names args.now)) }
    ensures cost { let z = store.now.sizes in MatchResult result
        (λ _. Takes z (widest z + 7 + 2 * (z.rows + 1)) (view_of pass.old).store.passed z.rows
        steps.old steps.new)
        (λ _. steps.new ≤ steps.old + (widest z + 7)) }
{
    let asked = Asked {
        store,
        head,
        args,
        symbol: symbol_word(head),
        base: pass.base,
        place,
        first_row: store.first_row,
        row_size: store.row_size,
    };
    match draw_row(&asked, &mut pass.seat, steps, from) {
        Ok(drawn) => {
            let noted = publish_row(&asked, &mut pass.seat, steps, drawn);
            Ok(tell(pass, &store.sizes, noted))
        }
        Err(full) => Err(full),
    }
}
