//! Collections step by step: which of them end, and what they keep.
use crate::driving::{Act, Driven, has_noted};
use faults::Memory;
use history_core::Entry;
use lock_core::LockStep;
use std::alloc::Global;
use std::collections::LinkedList;
use std::test::Fail;
use store_core::StoreState;
use store_model::{Place, Sizes};

// Four rows, one bucket, two seats, each with room for one protected row.
const ROOMS: Sizes = Sizes {
    rows: 4,
    buckets: 1,
    start: 1,
    seats: 2,
    depth: 1,
    arity: 2,
    first: 1,
};

/// Seat 0 protects row 0 and seat 1 row 1; row 2 is made and protected by nobody. Seat 0 is then in
/// exclusive access, and has loaded all words.
pub(crate) static LOADED: [(u32, Act); 14] = [
    (0, Act::Enter),
    (0, Act::Make(0)),
    (0, Act::Protect(0, 0)),
    (0, Act::Lock(LockStep::Lower)),
    (1, Act::Enter),
    (1, Act::Make(1)),
    (1, Act::Protect(0, 1)),
    (1, Act::Make(2)),
    (1, Act::Lock(LockStep::Lower)),
    (0, Act::Lock(LockStep::Take)),
    (0, Act::Lock(LockStep::Ask(1))),
    (0, Act::Lock(LockStep::Peek(1))),
    (0, Act::LoadEntry),
    (0, Act::LoadAll),
];

// The chain is row 2, row 1, row 0. Without row 2 its head is row 1, and the free places hold rows
// 2 and 3; the collection has the number 1 + 3, and the base is 5.
static KEPT: [(Place, u64); 4] = [
    (Place::Bucket(0), 2),
    (Place::FreePlace(0), 2),
    (Place::FreePlace(1), 3),
    (Place::FreeCount, 2),
];

static LEAVING: [(u32, Act); 3] = [
    (0, Act::Store(Place::Claim, 0)),
    (0, Act::Lock(LockStep::Unask(1))),
    (0, Act::Lock(LockStep::Give)),
];

// Whether such a collection might end before the base was stored, and with another claim; and at
// its end, how many other steps were out of place.
fn keep_both(driven: &mut Driven) -> Result<(bool, bool, u32), Memory> {
    driven.stores(&KEPT)?;
    let early = driven.ends(0)?;
    driven.stores(&[(Place::Base, 5)])?;
    let claimed = driven.ends(1)?;
    driven.acts(&LEAVING)?;
    Ok((early, claimed, driven.refused))
}

// Whether the third entry of seat 0 is such a collection.
fn has_kept_both(store: &StoreState, alloc: Global) -> Result<bool, Memory> {
    let mut kept = LinkedList::new(alloc);
    kept.push_back(0)?;
    kept.push_back(1)?;
    let collect = Entry::Collect { number: 4, kept };
    let Some(view) = store.view(0) else {
        return Ok(false);
    };
    Ok(view.entries.iter().nth(2) == Some(&collect))
}

type Kept = ((bool, bool, u32), bool);

fn both_kept(alloc: Global) -> Result<Kept, Memory> {
    let mut driven = Driven::after(alloc, ROOMS, &LOADED)?;
    let answers = keep_both(&mut driven)?;
    Ok((answers, has_kept_both(&driven.store, alloc)?))
}

#[test]
fn a_collection_keeps_the_protected_rows_of_both_seats(rt: HostRuntime) -> Result<(), Fail> {
    assert_eq!(rt; both_kept(rt.alloc())?, ((false, false, 0), true));
    Ok(())
}

// A collection that gives back row 1, which seat 1 protects.
static LAST_SKIPPED: [(Place, u64); 6] = [
    (Place::Bucket(0), 1),
    (Place::FreePlace(0), 1),
    (Place::FreePlace(1), 2),
    (Place::FreePlace(2), 3),
    (Place::FreeCount, 3),
    (Place::Base, 5),
];

// A collection that stores numbers which are none of the store's.
static ANY_NUMBERS: [(Place, u64); 3] = [
    (Place::FreeCount, 1 << 40),
    (Place::InUse, 1 << 40),
    (Place::Base, 5),
];

/// How many steps were out of place before and with these stores, and whether the collection may
/// end then.
pub(crate) fn stored(driven: &mut Driven, words: &[(Place, u64)]) -> Result<(u32, bool), Memory> {
    driven.stores(words)?;
    Ok((driven.refused, driven.ends(0)?))
}

fn ends_with(alloc: Global, words: &[(Place, u64)]) -> Result<(u32, bool), Memory> {
    let mut driven = Driven::after(alloc, ROOMS, &LOADED)?;
    stored(&mut driven, words)
}

#[test]
fn collections_that_store_other_words_do_not_end(rt: HostRuntime) -> Result<(), Fail> {
    let skipped = ends_with(rt.alloc(), &LAST_SKIPPED)?;
    let any = ends_with(rt.alloc(), &ANY_NUMBERS)?;
    assert_eq!(rt; [skipped, any], [(0, false), (0, false)]);
    Ok(())
}

// Two rows, one seat, and the first base at 2 ^ 62 - 4, so that no epoch is left.
const LATE: Sizes = Sizes {
    rows: 2,
    buckets: 1,
    start: 1,
    seats: 1,
    depth: 0,
    arity: 2,
    first: 4611686018427387900,
};

static BEGUN: [(u32, Act); 3] = [
    (0, Act::Lock(LockStep::Take)),
    (0, Act::LoadEntry),
    (0, Act::LoadFirst),
];

// How many steps of such a collection are out of place with a store of the free count, and whether
// nothing is noted.
fn wear(driven: &mut Driven) -> Result<(u32, bool), Memory> {
    let is_silent = has_noted(&driven.store, 0, &LinkedList::new(driven.alloc));
    driven.stores(&[(Place::FreeCount, 2)])?;
    Ok((driven.refused, is_silent))
}

fn worn(alloc: Global) -> Result<(u32, u32, bool), Memory> {
    let mut driven = Driven::after(alloc, LATE, &BEGUN)?;
    let before = driven.refused;
    let (refused, is_silent) = wear(&mut driven)?;
    Ok((before, refused, is_silent))
}

#[test]
fn a_collection_without_numbers_is_worn(rt: HostRuntime) -> Result<(), Fail> {
    assert_eq!(rt; worn(rt.alloc())?, (0, 1, true));
    Ok(())
}

// Four rows and four buckets, of which one is in use at first; one seat.
const GROWING: Sizes = Sizes {
    rows: 4,
    buckets: 4,
    start: 1,
    seats: 1,
    depth: 2,
    arity: 2,
    first: 1,
};

// Two constants as rows 0 and 1, both protected; then all words are loaded, and rows 2 and 3 are
// free.
static GROWN: [(u32, Act); 13] = [
    (0, Act::Enter),
    (0, Act::Make(0)),
    (0, Act::Protect(0, 0)),
    (0, Act::Make(1)),
    (0, Act::Protect(1, 1)),
    (0, Act::Lock(LockStep::Lower)),
    (0, Act::Lock(LockStep::Take)),
    (0, Act::LoadEntry),
    (0, Act::LoadAll),
    (0, Act::Store(Place::FreePlace(0), 2)),
    (0, Act::Store(Place::FreePlace(1), 3)),
    (0, Act::Store(Place::FreeCount, 2)),
    (0, Act::Store(Place::Base, 4)),
];

static DOUBLED: [(Place, u64); 4] = [
    (Place::Next(1), 0),
    (Place::Bucket(1), 1),
    (Place::InUse, 2),
    (Place::Claim, 0),
];

// The chain is row 1, row 0. Two rows stay, and twice as many are more than the one bucket in use:
// then two are. The hash of constant 0 is odd and that of constant 1 is even, so bucket 1 has row 0
// and bucket 0 has row 1. Whether one bucket is enough, how many other steps are out of place, and
// the buckets in use then.
fn double(driven: &mut Driven) -> Result<(bool, u32, u32), Memory> {
    let early = driven.ends(0)?;
    driven.stores(&DOUBLED)?;
    let in_use = match driven.store.view(0) {
        Some(view) => view.in_use,
        None => 0,
    };
    Ok((early, driven.refused, in_use))
}

fn doubled(alloc: Global) -> Result<(bool, u32, u32), Memory> {
    let mut driven = Driven::after(alloc, GROWING, &GROWN)?;
    double(&mut driven)
}

#[test]
fn the_buckets_in_use_double(rt: HostRuntime) -> Result<(), Fail> {
    assert_eq!(rt; doubled(rt.alloc())?, (false, 0, 2));
    Ok(())
}
