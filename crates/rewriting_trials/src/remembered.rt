//! Normalizing with a memory of results.

ghost use Rattle.std.specs.Prelude.{◌≡◌, ◌≤◌, None, Some, if◌then◌else◌, nat_eq, option_and_then, true};
ghost use Rattle.plain_store.specs.Contents.{store_of};
ghost use Rattle.innermost.specs.Machines.{IsFor};
ghost use Rattle.innermost.specs.Remembered.{AreRight};

use crate::adding::{ONE_AND_ONE, TWO, sums};
use crate::counting::Counting;
use crate::sight::is_on_top;
use crate::writing::{WIDEST, flat, tree};
use innermost::{Known, Machine, Memo, NoMemo, Normal};
use plain_rewriting::Term;
use rule_fitness::may_be_normalized;
use rule_match::Plan;
use std::alloc::Global;
use std::test::Fail;
use term_model::{Flat, Row};
use terms_api::Terms;

/// A memory of one result, the last that was kept.
#[derive(Clone, Copy)]
struct LastResult {
    kept: Option<(Row, Known)>,
}

impl Memo for LastResult {
    ghost map = { λ memo row. option_and_then (λ k. if nat_eq k.0.0 row.0 then Some k.1 else None) memo.kept };

    fn find(&mut self, row: Row) -> Option<Known> {
        let Some((kept, known)) = self.kept else {
            return None;
        };
        if kept.0 == row.0 { Some(known) } else { None }
    }

    fn keep(&mut self, row: Row, known: Known) {
        self.kept = Some((row, known));
    }

    fn forget(&mut self) {
        self.kept = None;
    }
}

/// Whether a term comes to the wanted value by two uses of rules, with a memory, on an empty stack,
/// which is empty again then.
fn comes_with<T: Terms, M: Memo>(
    machine: &mut Machine,
    plan: &Plan,
    term: &Flat,
    value: &Term,
    store: &mut T,
    memo: &mut M,
) -> bool
    requires inside { (T.store store.old).inside ≡ true }
    requires machine { IsFor plan.now machine.old }
    requires depth { machine.old.depth ≡ 6 }
    requires wide { plan.now.widest ≤ (T.store store.old).widest }
    requires memory { AreRight plan.now.rules (T.store store.old).built (T.store store.old)
        (M.map memo.old) }
    ensures inside { (T.store store.new).inside ≡ true }
    ensures wide { plan.now.widest ≤ (T.store store.new).widest }
    ensures memory { AreRight plan.now.rules (T.store store.new).built (T.store store.new)
        (M.map memo.new) }
    ensures machine { machine.new ≡ machine.old }
{
    let free = store.room() - store.depth();
    if free < 6 || !may_be_normalized(term, plan.widest()) {
        return false;
    }
    let answer = machine.normalize_with(plan, term, 2, store, memo);
    let is_right = is_on_top(value, store) && store.depth() == 1;
    store.keep(0, 0);
    is_right && answer == Ok(Normal::Value { left: 0 })
}

/// Whether a term comes to the wanted value four times so.
fn comes_four_times<T: Terms, M: Memo>(
    machine: &mut Machine,
    plan: &Plan,
    term: &Flat,
    value: &Term,
    store: &mut T,
    memo: &mut M,
) -> bool
    requires inside { (T.store store.old).inside ≡ true }
    requires machine { IsFor plan.now machine.old }
    requires depth { machine.old.depth ≡ 6 }
    requires wide { plan.now.widest ≤ (T.store store.old).widest }
    requires memory { AreRight plan.now.rules (T.store store.old).built (T.store store.old)
        (M.map memo.old) }
    ensures inside { (T.store store.new).inside ≡ true }
{
    let first = comes_with(machine, plan, term, value, store, memo);
    let second = comes_with(machine, plan, term, value, store, memo);
    let third = comes_with(machine, plan, term, value, store, memo);
    let fourth = comes_with(machine, plan, term, value, store, memo);
    first && second && third && fourth
}

/// The same by a new machine, how many trees were built, and the store's epoch then.
fn comes_anew<M: Memo>(
    alloc: Global,
    plan: &Plan,
    term: &Flat,
    value: &Term,
    store: &mut Counting,
    memo: &mut M,
) -> Result<(bool, u32, Option<u64>), Fail>
    requires inside { (store_of store.old.store).inside ≡ true }
    requires wide { plan.now.widest ≤ (store_of store.old.store).widest }
    requires memory { AreRight plan.now.rules (store_of store.old.store).built
        (store_of store.old.store) (M.map memo.old) }
{
    let mut machine = Machine::new(alloc, plan, 6)?;
    let all = comes_four_times(&mut machine, plan, term, value, store, memo);
    Ok((all, store.counts().builds, store.epoch()))
}

fn four_sums_by<M: Memo>(
    alloc: Global,
    plan: &Plan,
    term: &Flat,
    value: &Term,
    rows: u32,
    memo: &mut M,
) -> Result<(bool, u32, Option<u64>), Fail>
    requires { plan.now.widest ≤ 2 }
{
    let mut store = Counting::new(alloc, rows, 6, WIDEST)?;
    store.enter();
    memo.forget();
    comes_anew(alloc, plan, term, value, &mut store, memo)
}

/// Four sums of one and one by one memory, in a store of so many rows: whether each comes to two,
/// how many trees were built, and the store's epoch then.
fn four_sums<M: Memo>(
    alloc: Global,
    rows: u32,
    memo: &mut M,
) -> Result<(bool, u32, Option<u64>), Fail> {
    let value = tree(alloc, &TWO)?;
    let term = flat(alloc, &ONE_AND_ONE)?;
    let plan = sums(alloc)?;
    four_sums_by(alloc, &plan, &term, &value, rows, memo)
}

/// The answer for a term, with fuel for two uses of rules and a memory, on an empty stack, which is
/// empty again then.
fn answer_with<T: Terms, M: Memo>(
    machine: &mut Machine,
    depth: u32,
    plan: &Plan,
    term: &Flat,
    store: &mut T,
    memo: &mut M,
) -> Option<Normal>
    requires inside { (T.store store.old).inside ≡ true }
    requires machine { IsFor plan.now machine.old }
    requires depth { machine.old.depth ≡ depth }
    requires wide { plan.now.widest ≤ (T.store store.old).widest }
    requires memory { AreRight plan.now.rules (T.store store.old).built (T.store store.old)
        (M.map memo.old) }
    ensures inside { (T.store store.new).inside ≡ true }
    ensures wide { plan.now.widest ≤ (T.store store.new).widest }
    ensures memory { AreRight plan.now.rules (T.store store.new).built (T.store store.new)
        (M.map memo.new) }
{
    let free = store.room() - store.depth();
    if free < depth || !may_be_normalized(term, plan.widest()) {
        return None;
    }
    let answer = machine.normalize_with(plan, term, 2, store, memo);
    store.keep(0, 0);
    answer.ok()
}

/// The same by a new machine of so much room.
fn answer_in<T: Terms, M: Memo>(
    alloc: Global,
    depth: u32,
    plan: &Plan,
    term: &Flat,
    store: &mut T,
    memo: &mut M,
) -> Result<Option<Normal>, Fail>
    requires inside { (T.store store.old).inside ≡ true }
    requires wide { plan.now.widest ≤ (T.store store.old).widest }
    requires memory { AreRight plan.now.rules (T.store store.old).built (T.store store.old)
        (M.map memo.old) }
    ensures inside { (T.store store.new).inside ≡ true }
    ensures wide { plan.now.widest ≤ (T.store store.new).widest }
    ensures memory { AreRight plan.now.rules (T.store store.new).built (T.store store.new)
        (M.map memo.new) }
{
    let mut machine = Machine::new(alloc, plan, depth)?;
    Ok(answer_with(&mut machine, depth, plan, term, store, memo))
}

/// A term in rooms of 99, 6 and 5, by one memory: the answers, and how many trees were built up to
/// each of them.
fn answers_in_less<M: Memo>(
    alloc: Global,
    plan: &Plan,
    term: &Flat,
    store: &mut Counting,
    memo: &mut M,
) -> Result<([Option<Normal>; 3], [u32; 3]), Fail>
    requires inside { (store_of store.old.store).inside ≡ true }
    requires wide { plan.now.widest ≤ (store_of store.old.store).widest }
    requires memory { AreRight plan.now.rules (store_of store.old.store).built
        (store_of store.old.store) (M.map memo.old) }
{
    let wide = answer_in(alloc, 99, plan, term, store, memo)?;
    let first = store.counts().builds;
    let just = answer_in(alloc, 6, plan, term, store, memo)?;
    let second = store.counts().builds;
    let narrow = answer_in(alloc, 5, plan, term, store, memo)?;
    let third = store.counts().builds;
    Ok(([wide, just, narrow], [first, second, third]))
}

fn sums_in_less_by(
    alloc: Global,
    plan: &Plan,
    term: &Flat,
    memo: &mut LastResult,
) -> Result<([Option<Normal>; 3], [u32; 3]), Fail>
    requires { plan.now.widest ≤ 2 }
{
    let mut store = Counting::new(alloc, 9, 99, WIDEST)?;
    store.enter();
    memo.forget();
    answers_in_less(alloc, plan, term, &mut store, memo)
}

/// The same of the sum of one and one, by a memory that is empty at first.
fn sums_in_less(
    alloc: Global,
    memo: &mut LastResult,
) -> Result<([Option<Normal>; 3], [u32; 3]), Fail> {
    let term = flat(alloc, &ONE_AND_ONE)?;
    let plan = sums(alloc)?;
    sums_in_less_by(alloc, &plan, &term, memo)
}

/// The fuel and the room that are remembered.
fn known(memo: &LastResult) -> Option<(u64, u32)> {
    match memo.kept {
        Some((_, known)) => Some((known.fuel, known.depth)),
        None => None,
    }
}

#[test]
fn a_result_is_known_in_the_least_room(rt: HostRuntime) -> Result<(), Fail> {
    let mut memo = LastResult { kept: None };
    let (answers, builds) = sums_in_less(rt.alloc(), &mut memo)?;
    let value = Some(Normal::Value { left: 0 });
    assert_eq!(rt; answers, [value, value, Some(Normal::TooDeep)]);
    assert_eq!(rt; builds, [7, 12, 17]);
    assert_eq!(rt; known(&memo), Some((2, 6)));
    Ok(())
}

#[test]
fn a_known_sum_is_not_built_again(rt: HostRuntime) -> Result<(), Fail> {
    let alloc = rt.alloc();
    let mut memo = LastResult { kept: None };
    assert_eq!(rt; four_sums(alloc, 5, &mut memo)?, (true, 22, Some(0)));
    assert_eq!(rt; four_sums(alloc, 5, &mut NoMemo)?, (true, 28, Some(0)));
    Ok(())
}

#[test]
fn a_lost_row_is_forgotten(rt: HostRuntime) -> Result<(), Fail> {
    let alloc = rt.alloc();
    let mut memo = LastResult { kept: None };
    let (all, builds, epoch) = four_sums(alloc, 3, &mut memo)?;
    assert!(rt;
        all && builds == 28 && epoch > Some(0),
        "{builds} {epoch:?}"
    );
    Ok(())
}
