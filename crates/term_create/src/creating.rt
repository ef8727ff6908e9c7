//! Creations: a walk, and where it ends without the row, the making of one.
ghost use Rattle.std.specs.Prelude.{◌≡◌, ◌<◌, ◌≤◌, ◌+◌, ◌*◌, true, None, MatchResult, IfOk, IfErr};
ghost use Rattle.lock_core.specs.declared.parts.Phase.TheVariants.{Shared};
ghost use Rattle.store_model.specs.declared.view.Stay.TheVariants.{Ready};
ghost use Rattle.store_model.specs.Machine.{arrived, widest};
ghost use Rattle.node_rows.specs.Belonging.{IsSamePass, IsSeated};
ghost use Rattle.node_rows.specs.Rows.{names};
ghost use Rattle.node_rows.specs.Full.{HoldsAll};
ghost use Rattle.node_rows.specs.Knowing.{IsAbsent};
ghost use Rattle.node_rows.specs.Steps.{over, with_store, Known, MayCreateBy};
ghost use Rattle.node_rows.specs.Inside.{IsInside};
ghost use Rattle.term_create.specs.Counted.{row_steps};
ghost use Rattle.term_create.specs.Stage.{IsAt, IsBased, SameSeat, NotesRow, IsRefused, HoldsAllAlone, FillsAfter, content};
ghost use Rattle.term_create.specs.Ended.{Ends};
ghost use Rattle.node_rows.specs.Told.{Tells, view_of};
ghost use Rattle.term_create.specs.Created.{MayCreate, NotesOne, Gets, KeepsCause, WasFilled, GetsNone, KeepsRest};

use crate::asked::{Asked, Full, Walk};
use crate::counting::Steps;
use crate::making::make_told;
use crate::telling::tell;
use crate::walking::walk;
use crate::words::bucket_of;
use hash_buckets::symbol_word;
use node_rows::{Pass, Store, begin, bucket_word};
use std::marker::Brand;
use std::sync::ledger::{Blank, Ledger};
use term_model::{Head, Row};

// Goes on with a creation that has begun with this head of a chain, and tells it.
#[inline(always)]
fn create_from<L: Ledger>(
    asked: &Asked<'_>,
    pass: &mut Pass,
    steps: &mut Steps<L>,
    from: u64,
) -> Result<Row, Full>
    requires at { IsAt asked.now pass.old.seat.seat }
    requires based { IsBased asked.now (view_of pass.old).store }
    requires base { pass.old.base ≡ asked.now.base }
    requires begun { (view_of pass.old).store.passed ≡ 0 }
    requires stage { (view_of pass.old).store.call
        ≡ arrived (content asked.now) None from 0 from }
    requires stay { (view_of pass.old).store.stay ≡ Ready }
    requires told { Tells pass.old }
    ensures at { IsAt asked.now pass.new.seat.seat }
    ensures same { SameSeat pass.old.seat.seat pass.new.seat.seat
        pass.old.seat.number pass.new.seat.number pass.old.seat.seats pass.new.seat.seats }
    ensures loaded { (pass.new.base ≡ pass.old.base) × (pass.new.in_use ≡ pass.old.in_use) }
    ensures told { Tells pass.new }
    ensures view { let v = view_of pass.old in let w = view_of pass.new in MatchResult result
        (NotesRow v w asked.now.head (names asked.now.args.now))
        (λ _. IsRefused v w (content asked.now)) }
    ensures alone { IfErr result (λ _. asked.now.store.now.sizes.seats ≡ 1
        → IsAbsent (view_of pass.old).store.entries (content asked.now)) }
    ensures all { IfErr result (λ _. HoldsAllAlone asked.now (view_of pass.old)) }
    ensures filled { IfErr result (λ _. FillsAfter asked.now pass.old.seat.number
        (view_of pass.old)) }
    ensures cost { let z = asked.now.store.now.sizes in
        steps.new ≤ steps.old + (2 * (z.rows + 1) + (widest z + 7) + z.rows * row_steps z) }
{
    let whole = Walk {
        drawn: None,
        from,
        old: 0,
    };
    match walk(asked, &mut pass.seat, steps, whole) {
        Some(noted) => Ok(tell(pass, &asked.store.sizes, noted)),
        None => make_told(
            asked.store,
            asked.head,
            asked.args,
            asked.place,
            pass,
            steps,
            from,
        ),
    }
}

// Creates a head over rows, and tells it.
#[tactic(auto, using(crate::proofs::Whole::words_fit, crate::proofs::Arguments::second_word))]
#[inline(always)]
fn create_whole<L: Ledger>(
    store: &Store,
    pass: &mut Pass,
    head: Head,
    args: &[Row],
    steps: &mut Steps<L>,
) -> Result<Row, Full>
    requires inside { IsInside store.now pass.old }
    requires access { MayCreateBy (view_of pass.old) }
    requires may { MayCreate store.now.sizes (view_of pass.old).store head (names args.now) }
    ensures pass { IsSeated store.now pass.new }
    ensures same { SameSeat pass.old.seat.seat pass.new.seat.seat
        pass.old.seat.number pass.new.seat.number pass.old.seat.seats pass.new.seat.seats }
    ensures loaded { (pass.new.base ≡ pass.old.base) × (pass.new.in_use ≡ pass.old.in_use) }
    ensures known { Known store.now.sizes (view_of pass.new).store }
    ensures view { Ends (view_of pass.old) (view_of pass.new) head (names args.now) result }
    ensures told { Tells pass.new }
    ensures alone { IfErr result (λ _. store.now.sizes.seats ≡ 1
        → IsAbsent (view_of pass.old).store.entries (over head (names args.now))) }
    ensures all { IfErr result (λ _. store.now.sizes.seats ≡ 1
        → HoldsAll store.now.sizes.rows (view_of pass.old).store.entries) }
    ensures filled { IfErr result (λ _. (view_of pass.old).store.fresh ≡ true
        → WasFilled store.now.sizes pass.old.seat.number (view_of pass.old) head (names args.now)) }
    ensures cost { steps.new ≤ steps.old
        + (widest store.now.sizes + 8) * (store.now.sizes.rows + 2) }
{
    let symbol = symbol_word(head);
    let asked = Asked {
        store,
        head,
        args,
        symbol,
        base: pass.base,
        place: bucket_of(symbol, head, args, pass.in_use),
        first_row: store.first_row,
        row_size: store.row_size,
    };
    let word = bucket_word(&store.sizes, asked.place);
    steps.tick();
    let from = begin(&store.table, &mut pass.seat, word, head, args);
    create_from(&asked, pass, steps, from)
}

/// Creates a head over rows: gives the row that has it, or makes one where a row is free. `Full`
/// comes only where the chain in which the row would stand was read to its end without it, and the
/// claim was read or drawn as at least the free count; where the store has one pass, or the pass
/// has collected in its access, each row has a tree then, and none has the asked one. It needs
/// shared access, or exclusive access after a collection of it. Each atomic step on a word is a
/// tick of `steps`: with A the greater of the store's arity and 2, there are at most
/// (A + 8) * (rows + 2).
#[inline(always)]
pub fn create_counted<L: Ledger>(
    store: &Store,
    pass: &mut Pass,
    head: Head,
    args: &[Row],
    steps: &mut Steps<L>,
) -> Result<Row, Full>
    requires inside { IsInside store.now pass.old }
    requires access { MayCreateBy (view_of pass.old) }
    requires may { MayCreate store.now.sizes (view_of pass.old).store head (names args.now) }
    ensures inside { IsInside store.now pass.new }
    ensures same { IsSamePass pass.old pass.new }
    ensures only { view_of pass.new ≡ with_store (view_of pass.old) (view_of pass.new).store }
    ensures notes { IfOk result (λ row.
        NotesOne (view_of pass.old).store (view_of pass.new).store
        head (names args.now) row.0) }
    ensures gets { IfOk result (λ row.
        Gets (view_of pass.old).store (view_of pass.new).store
        head (names args.now) row.0) }
    ensures full_only_where_read_full { IfErr result (λ _.
        KeepsCause (view_of pass.old).store (view_of pass.new).store
        head (names args.now)) }
    ensures full_alone_only_where_absent { IfErr result (λ _. store.now.sizes.seats ≡ 1
        → IsAbsent (view_of pass.old).store.entries (over head (names args.now))) }
    ensures full_alone_only_where_all_rows_are_held { IfErr result (λ _. store.now.sizes.seats ≡ 1
        → HoldsAll store.now.sizes.rows (view_of pass.old).store.entries) }
    ensures full_after_collection_only_where_filled { IfErr result
        (λ _. (view_of pass.old).store.fresh ≡ true
        → WasFilled store.now.sizes pass.old.seat.number (view_of pass.old) head (names args.now)) }
    ensures full_gets_none { IfErr result
        (λ _. GetsNone (view_of pass.old).store (view_of pass.new).store) }
    ensures rest { KeepsRest (view_of pass.old).store (view_of pass.new).store }
    ensures bound { steps.new ≤ steps.old
        + (widest store.now.sizes + 8) * (store.now.sizes.rows + 2) }
{
    create_whole(store, pass, head, args, steps)
}

// Creates a head over rows with a count of its own, which nobody reads.
#[inline(always)]
fn create_uncounted<L: Ledger>(
    store: &Store,
    pass: &mut Pass,
    head: Head,
    args: &[Row],
    blank: Blank,
) -> Result<Row, Full>
    requires name { blank.name ≡ L.name }
    requires parts { (blank.parts ≡ L.parts) × (0 < L.parts) }
    requires inside { IsInside store.now pass.old }
    requires access { MayCreateBy (view_of pass.old) }
    requires may { MayCreate store.now.sizes (view_of pass.old).store head (names args.now) }
    ensures inside { IsInside store.now pass.new }
    ensures same { IsSamePass pass.old pass.new }
    ensures only { view_of pass.new ≡ with_store (view_of pass.old) (view_of pass.new).store }
    ensures notes { IfOk result (λ row.
        NotesOne (view_of pass.old).store (view_of pass.new).store
        head (names args.now) row.0) }
    ensures gets { IfOk result (λ row.
        Gets (view_of pass.old).store (view_of pass.new).store
        head (names args.now) row.0) }
    ensures full_only_where_read_full { IfErr result (λ _.
        KeepsCause (view_of pass.old).store (view_of pass.new).store
        head (names args.now)) }
    ensures full_alone_only_where_absent { IfErr result (λ _. store.now.sizes.seats ≡ 1
        → IsAbsent (view_of pass.old).store.entries (over head (names args.now))) }
    ensures full_alone_only_where_all_rows_are_held { IfErr result (λ _. store.now.sizes.seats ≡ 1
        → HoldsAll store.now.sizes.rows (view_of pass.old).store.entries) }
    ensures full_after_collection_only_where_filled { IfErr result
        (λ _. (view_of pass.old).store.fresh ≡ true
        → WasFilled store.now.sizes pass.old.seat.number (view_of pass.old) head (names args.now)) }
    ensures full_gets_none { IfErr result
        (λ _. GetsNone (view_of pass.old).store (view_of pass.new).store) }
    ensures rest { KeepsRest (view_of pass.old).store (view_of pass.new).store }
{
    create_counted(store, pass, head, args, &mut Steps::<L>::new(blank))
}

/// Creates a head over rows as `create_counted` does, and counts no step.
#[inline(always)]
pub fn create_inside(store: &Store, pass: &mut Pass, head: Head, args: &[Row]) -> Result<Row, Full>
    requires inside { IsInside store.now pass.old }
    requires access { MayCreateBy (view_of pass.old) }
    requires may { MayCreate store.now.sizes (view_of pass.old).store head (names args.now) }
    ensures inside { IsInside store.now pass.new }
    ensures same { IsSamePass pass.old pass.new }
    ensures only { view_of pass.new ≡ with_store (view_of pass.old) (view_of pass.new).store }
    ensures notes { IfOk result (λ row.
        NotesOne (view_of pass.old).store (view_of pass.new).store
        head (names args.now) row.0) }
    ensures gets { IfOk result (λ row.
        Gets (view_of pass.old).store (view_of pass.new).store
        head (names args.now) row.0) }
    ensures full_only_where_read_full { IfErr result (λ _.
        KeepsCause (view_of pass.old).store (view_of pass.new).store
        head (names args.now)) }
    ensures full_alone_only_where_absent { IfErr result (λ _. store.now.sizes.seats ≡ 1
        → IsAbsent (view_of pass.old).store.entries (over head (names args.now))) }
    ensures full_alone_only_where_all_rows_are_held { IfErr result (λ _. store.now.sizes.seats ≡ 1
        → HoldsAll store.now.sizes.rows (view_of pass.old).store.entries) }
    ensures full_after_collection_only_where_filled { IfErr result
        (λ _. (view_of pass.old).store.fresh ≡ true
        → WasFilled store.now.sizes pass.old.seat.number (view_of pass.old) head (names args.now)) }
    ensures full_gets_none { IfErr result
        (λ _. GetsNone (view_of pass.old).store (view_of pass.new).store) }
    ensures rest { KeepsRest (view_of pass.old).store (view_of pass.new).store }
{
    create_uncounted::<Brand>(store, pass, head, args, Blank::new(1))
}

/// Creates a head over rows in shared access, as `create_inside` does.
#[inline(always)]
pub fn create(store: &Store, pass: &mut Pass, head: Head, args: &[Row]) -> Result<Row, Full>
    requires inside { IsInside store.now pass.old }
    requires shared { (view_of pass.old).lock.phase ≡ Shared }
    requires may { MayCreate store.now.sizes (view_of pass.old).store head (names args.now) }
    ensures inside { IsInside store.now pass.new }
    ensures same { IsSamePass pass.old pass.new }
    ensures only { view_of pass.new ≡ with_store (view_of pass.old) (view_of pass.new).store }
    ensures notes { IfOk result (λ row.
        NotesOne (view_of pass.old).store (view_of pass.new).store
        head (names args.now) row.0) }
    ensures gets { IfOk result (λ row.
        Gets (view_of pass.old).store (view_of pass.new).store
        head (names args.now) row.0) }
    ensures full_only_where_read_full { IfErr result (λ _.
        KeepsCause (view_of pass.old).store (view_of pass.new).store
        head (names args.now)) }
    ensures full_alone_only_where_absent { IfErr result (λ _. store.now.sizes.seats ≡ 1
        → IsAbsent (view_of pass.old).store.entries (over head (names args.now))) }
    ensures full_alone_only_where_all_rows_are_held { IfErr result (λ _. store.now.sizes.seats ≡ 1
        → HoldsAll store.now.sizes.rows (view_of pass.old).store.entries) }
    ensures full_gets_none { IfErr result
        (λ _. GetsNone (view_of pass.old).store (view_of pass.new).store) }
    ensures rest { KeepsRest (view_of pass.old).store (view_of pass.new).store }
{
    create_inside(store, pass, head, args)
}
