// How a desk builds.
ghost use Rattle.std.specs.Prelude.{◌≡◌, ◌+◌, ◌≤◌, ◌++◌, OnOk, OnErr, All, true, length};
ghost use Rattle.terms_api.specs.Terms.{IsHeld, MayBuild, NeedsPlace, last};
ghost use Rattle.shared_desk.specs.Pass.{store, IsFilled};
ghost use Rattle.shared_desk.specs.Desk.{IsIn, IsAlone, IsReady, Passed, Creates, Outcome};

use crate::pass::SharedPass;
use row_stack::Stack;
use term_create::Full;
use term_model::{Head, Row};
use terms_api::BuildFault;

/// Creates over the last `n` places, in shared access.
#[inline(always)]
pub(crate) fn try_create<S: SharedPass>(
    pass: &mut S,
    places: &mut Stack,
    head: Head,
    n: u32,
) -> Result<(), Full>
    requires inside { IsIn (S.view pass.old) places.old }
    requires may { MayBuild (store (S.view pass.old) places.old.items) head n }
    requires place { NeedsPlace (store (S.view pass.old) places.old.items) n → ⊥ }
    ensures placed { OnOk result
        (Creates (S.view pass.old) (S.view pass.new) places.old.items places.new.items head n) }
    ensures unchanged { OnErr result (S.view pass.new ≡ S.view pass.old) }
    ensures stack { OnErr result (places.new ≡ places.old) }
    ensures inside { IsIn (S.view pass.new) places.new }
{
    match pass.create(head, places.last(n as usize)) {
        Ok(row) => {
            places.put(n as usize, row);
            Ok(())
        }
        Err(full) => Err(full),
    }
}

// Goes from shared to exclusive access.
fn go_alone<S: SharedPass>(pass: &mut S, places: &Stack)
    requires inside { IsIn (S.view pass.old) places.now }
    ensures ready { IsReady (S.view pass.new) places.now }
    ensures passed { Passed 0 (S.view pass.old) (S.view pass.new) places.now.items }
{
    let rows = places.rows();
    pass.store_roots(rows);
    pass.leave_shared(rows);
    pass.enter_exclusive();
}

// Goes from exclusive to shared access.
fn come_back<S: SharedPass>(pass: &mut S, places: &Stack)
    requires alone { IsAlone (S.view pass.old) places.now }
    ensures inside { IsIn (S.view pass.new) places.now }
    ensures passed { Passed 0 (S.view pass.old) (S.view pass.new) places.now.items }
    ensures crowd { (S.view pass.new).crowd ≡ (S.view pass.old).crowd }
    ensures hand { (S.view pass.new).hand ≡ (S.view pass.old).hand }
{
    pass.leave_exclusive(places.rows());
    pass.enter_shared();
}

// Creates over the last `n` places, in exclusive access, and protects the new stack.
fn create_alone<S: SharedPass>(
    pass: &mut S,
    places: &mut Stack,
    head: Head,
    n: u32,
) -> Result<(), Full>
    requires alone { IsAlone (S.view pass.old) places.old }
    requires fresh { (S.view pass.old).fresh ≡ true }
    requires may { MayBuild (store (S.view pass.old) places.old.items) head n }
    requires place { NeedsPlace (store (S.view pass.old) places.old.items) n → ⊥ }
    ensures placed { OnOk result
        (Creates (S.view pass.old) (S.view pass.new) places.old.items places.new.items head n) }
    ensures unchanged { OnErr result (S.view pass.new ≡ S.view pass.old) }
    ensures stack { OnErr result (places.new ≡ places.old) }
    ensures filled { OnErr result (IsFilled (S.view pass.old) head (last n places.old.items)) }
    ensures alone { IsAlone (S.view pass.new) places.new }
{
    match pass.create_exclusive(head, places.last(n as usize)) {
        Ok(row) => {
            places.put(n as usize, row);
            pass.store_roots(places.rows());
            Ok(())
        }
        Err(full) => Err(full),
    }
}

// Collects, and creates over the last `n` places.
fn sweep<S: SharedPass>(
    pass: &mut S,
    places: &mut Stack,
    head: Head,
    n: u32,
) -> Result<(), BuildFault>
    requires ready { IsReady (S.view pass.old) places.old }
    requires may { MayBuild (store (S.view pass.old) places.old.items) head n }
    requires place { NeedsPlace (store (S.view pass.old) places.old.items) n → ⊥ }
    ensures outcome { Outcome (S.view pass.old) (S.view pass.new) places.old.items places.new.items
        head n result }
    ensures inside { IsIn (S.view pass.new) places.new }
{
    match pass.collect() {
        Ok(_) => match create_alone(pass, places, head, n) {
            Ok(()) => {
                come_back(pass, places);
                Ok(())
            }
            Err(_) => {
                come_back(pass, places);
                Err(BuildFault::StoreFull)
            }
        },
        Err(_) => {
            come_back(pass, places);
            Err(BuildFault::Worn)
        }
    }
}

// In exclusive access: where another pass has collected meanwhile, goes back and creates once more.
fn try_again<S: SharedPass>(
    pass: &mut S,
    places: &mut Stack,
    head: Head,
    n: u32,
    before: u64,
) -> Result<(), Full>
    requires ready { IsReady (S.view pass.old) places.old }
    requires may { MayBuild (store (S.view pass.old) places.old.items) head n }
    requires place { NeedsPlace (store (S.view pass.old) places.old.items) n → ⊥ }
    ensures placed { OnOk result
        (Creates (S.view pass.old) (S.view pass.new) places.old.items places.new.items head n) }
    ensures inside { OnOk result (IsIn (S.view pass.new) places.new) }
    ensures passed { OnErr result (Passed 0 (S.view pass.old) (S.view pass.new) places.old.items) }
    ensures stack { OnErr result (places.new ≡ places.old) }
    ensures ready { OnErr result (IsReady (S.view pass.new) places.new) }
{
    if pass.base() == before {
        return Err(Full);
    }
    come_back(pass, places);
    match try_create(pass, places, head, n) {
        Ok(()) => Ok(()),
        Err(full) => {
            go_alone(pass, places);
            Err(full)
        }
    }
}

// Goes outside, and comes back.
fn go_round<S: SharedPass>(pass: &mut S, places: &Stack)
    requires inside { IsIn (S.view pass.old) places.now }
    ensures inside { IsIn (S.view pass.new) places.now }
    ensures passed { Passed 0 (S.view pass.old) (S.view pass.new) places.now.items }
{
    let rows = places.rows();
    pass.store_roots(rows);
    pass.leave_shared(rows);
    pass.enter_shared();
}

// Where the store was full: creates once more if another pass has collected meanwhile, and else
// collects and creates.
fn build_again<S: SharedPass>(
    pass: &mut S,
    places: &mut Stack,
    head: Head,
    n: u32,
) -> Result<(), BuildFault>
    requires inside { IsIn (S.view pass.old) places.old }
    requires may { MayBuild (store (S.view pass.old) places.old.items) head n }
    requires place { NeedsPlace (store (S.view pass.old) places.old.items) n → ⊥ }
    ensures outcome { Outcome (S.view pass.old) (S.view pass.new) places.old.items places.new.items
        head n result }
    ensures inside { IsIn (S.view pass.new) places.new }
{
    let before = pass.base();
    go_alone(pass, places);
    match try_again(pass, places, head, n, before) {
        Ok(()) => Ok(()),
        Err(_) => sweep(pass, places, head, n),
    }
}

// Where the store was full: lets another pass collect that is about to, and creates once more; and
// else builds again.
#[cold]
#[inline(never)]
fn build_late<S: SharedPass>(
    pass: &mut S,
    places: &mut Stack,
    head: Head,
    n: u32,
) -> Result<(), BuildFault>
    requires inside { IsIn (S.view pass.old) places.old }
    requires may { MayBuild (store (S.view pass.old) places.old.items) head n }
    requires place { NeedsPlace (store (S.view pass.old) places.old.items) n → ⊥ }
    ensures outcome { Outcome (S.view pass.old) (S.view pass.new) places.old.items places.new.items
        head n result }
    ensures inside { IsIn (S.view pass.new) places.new }
{
    if !pass.gives_way() {
        return build_again(pass, places, head, n);
    }
    go_round(pass, places);
    match try_create(pass, places, head, n) {
        Ok(()) => Ok(()),
        Err(_) => build_again(pass, places, head, n),
    }
}

/// Creates over the last `n` places; where the store is full, collects and creates.
#[inline(always)]
pub(crate) fn build_row<S: SharedPass>(
    pass: &mut S,
    places: &mut Stack,
    head: Head,
    n: u32,
) -> Result<(), BuildFault>
    requires inside { IsIn (S.view pass.old) places.old }
    requires may { MayBuild (store (S.view pass.old) places.old.items) head n }
    requires place { NeedsPlace (store (S.view pass.old) places.old.items) n → ⊥ }
    ensures outcome { Outcome (S.view pass.old) (S.view pass.new) places.old.items places.new.items
        head n result }
    ensures inside { IsIn (S.view pass.new) places.new }
{
    match try_create(pass, places, head, n) {
        Ok(()) => Ok(()),
        Err(_) => build_late(pass, places, head, n),
    }
}

// Where the store was full: puts the rows on the stack, and builds over them.
#[cold]
#[inline(never)]
fn build_pushed<S: SharedPass>(
    pass: &mut S,
    places: &mut Stack,
    head: Head,
    rows: &[Row],
) -> Result<(), BuildFault>
    requires inside { IsIn (S.view pass.old) places.old }
    requires held { All (IsHeld (store (S.view pass.old) places.old.items)) rows.now }
    requires room { length places.old.items + length rows.now ≤ (S.view pass.old).depth }
    requires may { MayBuild (store (S.view pass.old) (places.old.items ++ rows.now)) head
        (length rows.now) }
    requires place { NeedsPlace (store (S.view pass.old) (places.old.items ++ rows.now))
        (length rows.now) → ⊥ }
    ensures outcome { Outcome (S.view pass.old) (S.view pass.new) (places.old.items ++ rows.now)
        places.new.items head (length rows.now) result }
    ensures inside { IsIn (S.view pass.new) places.new }
{
    places.put_all(rows);
    build_late(pass, places, head, rows.len() as u32)
}

/// Creates over rows that needn't be on the stack, in shared access, and puts the row on it.
#[inline(always)]
pub(crate) fn try_create_over<S: SharedPass>(
    pass: &mut S,
    places: &mut Stack,
    head: Head,
    rows: &[Row],
) -> Result<(), Full>
    requires inside { IsIn (S.view pass.old) places.old }
    requires held { All (IsHeld (store (S.view pass.old) places.old.items)) rows.now }
    requires room { length places.old.items + length rows.now ≤ (S.view pass.old).depth }
    requires may { MayBuild (store (S.view pass.old) (places.old.items ++ rows.now)) head
        (length rows.now) }
    requires place { NeedsPlace (store (S.view pass.old) (places.old.items ++ rows.now))
        (length rows.now) → ⊥ }
    ensures placed { OnOk result (Creates (S.view pass.old) (S.view pass.new)
        (places.old.items ++ rows.now) places.new.items head (length rows.now)) }
    ensures unchanged { OnErr result (S.view pass.new ≡ S.view pass.old) }
    ensures stack { OnErr result (places.new ≡ places.old) }
    ensures inside { IsIn (S.view pass.new) places.new }
{
    match pass.create(head, rows) {
        Ok(row) => {
            places.put(0, row);
            Ok(())
        }
        Err(full) => Err(full),
    }
}

/// Creates over rows that needn't be on the stack, and puts the row on it. Where the store is full
/// it puts them there first, and collects and creates.
#[inline(always)]
pub(crate) fn build_over<S: SharedPass>(
    pass: &mut S,
    places: &mut Stack,
    head: Head,
    rows: &[Row],
) -> Result<(), BuildFault>
    requires inside { IsIn (S.view pass.old) places.old }
    requires held { All (IsHeld (store (S.view pass.old) places.old.items)) rows.now }
    requires room { length places.old.items + length rows.now ≤ (S.view pass.old).depth }
    requires may { MayBuild (store (S.view pass.old) (places.old.items ++ rows.now)) head
        (length rows.now) }
    requires place { NeedsPlace (store (S.view pass.old) (places.old.items ++ rows.now))
        (length rows.now) → ⊥ }
    ensures outcome { Outcome (S.view pass.old) (S.view pass.new) (places.old.items ++ rows.now)
        places.new.items head (length rows.now) result }
    ensures inside { IsIn (S.view pass.new) places.new }
{
    match try_create_over(pass, places, head, rows) {
        Ok(()) => Ok(()),
        Err(_) => build_pushed(pass, places, head, rows),
    }
}
