//! What a seat keeps over the collection of another.
use crate::driving::{Act, Driven};
use crate::next_steps::over;
use faults::Memory;
use history_core::Entry;
use lock_core::LockStep;
use std::alloc::Global;
use std::collections::LinkedList;
use std::test::Fail;
use store_core::{StoreState, replay};
use store_model::{KnownWord, Place, Sizes};
use term_model::{Head, Symbol};

// Six rows, one bucket, two seats, each with room for two protected rows.
const SIZES: Sizes = Sizes {
    rows: 6,
    buckets: 1,
    start: 1,
    seats: 2,
    depth: 2,
    arity: 2,
    first: 1,
};

// Seat 0 makes the constant 0 as row 0, the symbol 1 over it as row 1, the constant 2 as row 2 and
// the integer 2 as row 3; it protects rows 1 and 3, and leaves. Then seat 1 collects. The chain was
// row 3, 2, 1, 0; without row 2 the link of row 3 is to row 1, which is the word 2. The free places
// hold rows 2, 4 and 5. The claim was 4, so the base is 1 + 4 + 1. At last seat 0 enters again.
static KEPT: [(u32, Act); 23] = [
    (0, Act::Enter),
    (0, Act::Make(0)),
    (0, Act::MakeOver(1, 0)),
    (0, Act::Make(2)),
    (0, Act::MakeInteger(2)),
    (0, Act::Protect(0, 1)),
    (0, Act::Protect(1, 3)),
    (0, Act::Lock(LockStep::Lower)),
    (1, Act::Lock(LockStep::Take)),
    (1, Act::Lock(LockStep::Ask(0))),
    (1, Act::Lock(LockStep::Peek(0))),
    (1, Act::LoadEntry),
    (1, Act::LoadAll),
    (1, Act::Store(Place::Next(3), 2)),
    (1, Act::Store(Place::FreePlace(0), 2)),
    (1, Act::Store(Place::FreePlace(1), 4)),
    (1, Act::Store(Place::FreePlace(2), 5)),
    (1, Act::Store(Place::FreeCount, 3)),
    (1, Act::Store(Place::Base, 6)),
    (1, Act::Store(Place::Claim, 0)),
    (1, Act::Lock(LockStep::Unask(0))),
    (1, Act::Lock(LockStep::Give)),
    (0, Act::Enter),
];

// Whether seat 0 got exactly these rows, in order.
fn has_got(store: &StoreState, rows: &[u32]) -> bool {
    match store.view(0) {
        Some(view) => view.got.iter().eq(rows.iter()),
        None => false,
    }
}

// Whether seat 0 knows exactly these words of rows, in order, each given as its row, its place in
// the row, and its value.
fn knows(store: &StoreState, words: &[(u32, u32, u64)]) -> bool {
    match store.view(0) {
        Some(view) => are_words(&view.knows, words),
        None => false,
    }
}

fn are_words(known: &LinkedList<KnownWord>, words: &[(u32, u32, u64)]) -> bool {
    for (at, (row, word, value)) in known.iter().zip(words.iter()) {
        if at.row != *row || at.word != *word || at.value != *value {
            return false;
        }
    }
    known.len() == words.len()
}

// The first words of rows are 2 ^ 32 for an integer, and the symbol else; the count is next.
static KNOWN: [(u32, u32, u64); 8] = [
    (3, 0, 4294967296),
    (3, 1, 0),
    (3, 2, 2),
    (1, 0, 1),
    (1, 1, 1),
    (1, 2, 0),
    (0, 0, 0),
    (0, 1, 0),
];

// The rows 1 and 3 are protected, and row 0 is the argument of row 1. Row 2 is no argument: the 2
// in row 3 is an integer's value.
fn known(alloc: Global) -> Result<(u32, bool, bool), Memory> {
    let driven = Driven::after(alloc, SIZES, &KEPT)?;
    let store = &driven.store;
    Ok((
        driven.refused,
        has_got(store, &[1, 3, 0]),
        knows(store, &KNOWN),
    ))
}

#[test]
fn another_collection_leaves_what_protected_rows_lead_to(rt: HostRuntime) -> Result<(), Fail> {
    assert_eq!(rt; known(rt.alloc())?, (0, true, true));
    Ok(())
}

// Whether this is what seat 0 has noted last: the symbol 5 over row 0, which it hasn't read since,
// got the first free place, row 2, with the number of the base 6.
fn has_made_over(driven: &Driven) -> Result<bool, Memory> {
    let made = Entry::Make {
        number: 6,
        head: Head::App(Symbol(5)),
        args: over(driven.alloc, 5, 0)?.arguments,
        row: 2,
    };
    let Some(view) = driven.store.view(0) else {
        return Ok(false);
    };
    Ok(view.entries.back() == Some(&made))
}

// How many steps are out of place where such a term is made, whether it is, and whether all are in
// place in a list.
fn make_over(driven: &mut Driven) -> Result<(u32, bool, bool), Memory> {
    driven.acts(&[(0, Act::MakeOver(5, 0))])?;
    let is_made = has_made_over(driven)?;
    let replayed = replay(driven.alloc, SIZES, driven.steps.as_slice())?.is_some();
    Ok((driven.refused, is_made, replayed))
}

fn made_over(alloc: Global) -> Result<(u32, bool, bool), Memory> {
    let mut driven = Driven::after(alloc, SIZES, &KEPT)?;
    make_over(&mut driven)
}

#[test]
fn it_creates_over_such_a_row_without_reading_it_again(rt: HostRuntime) -> Result<(), Fail> {
    assert_eq!(rt; made_over(rt.alloc())?, (0, true, true));
    Ok(())
}

// Row 2 is gone, and no creation may be made over it. How many steps are out of place before that,
// and with it.
fn named(alloc: Global) -> Result<(u32, u32), Memory> {
    let mut driven = Driven::after(alloc, SIZES, &KEPT)?;
    let before = driven.refused;
    driven.acts(&[(0, Act::MakeOver(5, 2))])?;
    Ok((before, driven.refused))
}

#[test]
fn a_row_that_nothing_leads_to_may_not_be_named(rt: HostRuntime) -> Result<(), Fail> {
    assert_eq!(rt; named(rt.alloc())?, (0, 1));
    Ok(())
}
