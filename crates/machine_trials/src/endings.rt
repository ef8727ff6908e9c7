//! Collections that have stored these words: which of them may end.
use crate::collections::{LOADED as FLAT, stored};
use crate::driving::{Act, Driven};
use faults::Memory;
use lock_core::LockStep;
use std::alloc::Global;
use std::test::Fail;
use store_model::{Place, Sizes};

// Four rows, four buckets of which one is in use at first, two seats, each with room for one
// protected row.
const SIZES: Sizes = Sizes {
    rows: 4,
    buckets: 4,
    start: 1,
    seats: 2,
    depth: 1,
    arity: 2,
    first: 1,
};

// What is in the store before the collection. Flat: the constants 0, 1 and 2 in the rows 0, 1 and
// 2; row 0 and row 1 are protected, each by a seat. Nested: row 1 is the symbol 1 over row 0, and
// protected; the other two are constants.
#[derive(Clone, Copy)]
enum Rows {
    Flat,
    Nested,
}

// Row 0 and row 1 stay, in bucket 1 and bucket 0 of two; row 2 is freed, and its chain goes on
// without it. The base was 1 and the claim 3.
static SWEPT: [(Place, u64); 9] = [
    (Place::Base, 5),
    (Place::FreeCount, 2),
    (Place::InUse, 2),
    (Place::FreePlace(0), 2),
    (Place::FreePlace(1), 3),
    (Place::Bucket(0), 2),
    (Place::Bucket(1), 1),
    (Place::Next(1), 0),
    (Place::Next(2), 1),
];

// What is there, words that are stored in place of those, and whether the collection may end.
type Case = (&'static str, Rows, &'static [(Place, u64)], bool);

static CASES: [Case; 16] = [
    ("what is reached stays", Rows::Flat, &[], true),
    ("an argument stays", Rows::Nested, &[], true),
    (
        "nothing is freed",
        Rows::Flat,
        &[
            (Place::FreeCount, 1),
            (Place::FreePlace(0), 3),
            (Place::Bucket(1), 3),
        ],
        false,
    ),
    (
        "a seat's protected row is freed",
        Rows::Flat,
        &[
            (Place::FreeCount, 3),
            (Place::FreePlace(2), 1),
            (Place::Bucket(0), 0),
        ],
        false,
    ),
    (
        "an argument is freed",
        Rows::Nested,
        &[
            (Place::FreeCount, 3),
            (Place::FreePlace(2), 0),
            (Place::Bucket(1), 0),
        ],
        false,
    ),
    (
        "a row of a chain is lost",
        Rows::Flat,
        &[(Place::Bucket(0), 0)],
        false,
    ),
    (
        "a chain comes back",
        Rows::Flat,
        &[(Place::Next(0), 1)],
        false,
    ),
    (
        "a row stands in the chain of another bucket",
        Rows::Flat,
        &[(Place::Bucket(0), 0), (Place::Next(0), 2)],
        false,
    ),
    (
        "the buckets in use don't double",
        Rows::Flat,
        &[
            (Place::InUse, 1),
            (Place::Bucket(0), 2),
            (Place::Bucket(1), 0),
            (Place::Next(1), 1),
        ],
        false,
    ),
    (
        "the base doesn't pass the claim",
        Rows::Flat,
        &[(Place::Base, 4)],
        false,
    ),
    // A collection may store any number. One that is no row, count or base of the store ends
    // nothing, and isn't want of memory.
    (
        "no base of a store",
        Rows::Flat,
        &[(Place::Base, 1 << 62)],
        false,
    ),
    (
        "no count of free rows",
        Rows::Flat,
        &[(Place::FreeCount, 1 << 40)],
        false,
    ),
    (
        "no count of buckets",
        Rows::Flat,
        &[(Place::InUse, 1 << 40)],
        false,
    ),
    (
        "no free row",
        Rows::Flat,
        &[(Place::FreePlace(1), 1 << 40)],
        false,
    ),
    (
        "no head of a chain",
        Rows::Flat,
        &[(Place::Bucket(1), 1 << 40)],
        false,
    ),
    (
        "no link of a chain",
        Rows::Flat,
        &[(Place::Next(0), 1 << 40)],
        false,
    ),
];

// Seat 0 makes row 0 and protects nothing; seat 1 finds it, makes row 1 over it, which it protects,
// and row 2. Seat 0 is then in exclusive access, and has loaded all words.
static NESTED: [(u32, Act); 14] = [
    (0, Act::Enter),
    (0, Act::Make(0)),
    (0, Act::Lock(LockStep::Lower)),
    (1, Act::Enter),
    (1, Act::Make(0)),
    (1, Act::MakeOver(1, 0)),
    (1, Act::Protect(0, 1)),
    (1, Act::Make(2)),
    (1, Act::Lock(LockStep::Lower)),
    (0, Act::Lock(LockStep::Take)),
    (0, Act::Lock(LockStep::Ask(1))),
    (0, Act::Lock(LockStep::Peek(1))),
    (0, Act::LoadEntry),
    (0, Act::LoadAll),
];

fn driven_to(alloc: Global, rows: Rows) -> Result<Driven, Memory> {
    match rows {
        Rows::Flat => Driven::after(alloc, SIZES, &FLAT),
        Rows::Nested => Driven::after(alloc, SIZES, &NESTED),
    }
}

// How many steps were out of place, and whether the collection may end, where these words are other
// ones.
fn ends_with(alloc: Global, rows: Rows, words: &[(Place, u64)]) -> Result<(u32, bool), Memory> {
    let mut driven = driven_to(alloc, rows)?;
    driven.stores(&SWEPT)?;
    stored(&mut driven, words)
}

#[test]
fn collections_end_only_over_whole_chains_and_free_places(rt: HostRuntime) -> Result<(), Fail> {
    for (what, rows, words, ends) in &CASES {
        let found = ends_with(rt.alloc(), *rows, words)?;
        assert_eq!(rt; found, (0, *ends), "{what}");
    }
    Ok(())
}
