//! What a collection of constants loads and stores, in a store of two rows, one bucket and two
//! seats.
use std::collections::LinkedList;
use store_model::{Place, StoreStep};

// The words that a collection loads, in its order.
static PLACES: [Place; 23] = [
    Place::Base,
    Place::Claim,
    Place::FreeCount,
    Place::InUse,
    Place::Bucket(0),
    Place::FreePlace(0),
    Place::RowWord(0, 0),
    Place::RowWord(0, 1),
    Place::RowWord(0, 2),
    Place::RowWord(0, 3),
    Place::Birth(0),
    Place::Next(0),
    Place::FreePlace(1),
    Place::RowWord(1, 0),
    Place::RowWord(1, 1),
    Place::RowWord(1, 2),
    Place::RowWord(1, 3),
    Place::Birth(1),
    Place::Next(1),
    Place::RootCount(0),
    Place::Root(0, 0),
    Place::RootCount(1),
    Place::Root(1, 0),
];

// What was loaded from a place.
fn loaded(loads: &LinkedList<(Place, u64)>, place: Place) -> u64 {
    for (at, word) in loads {
        if *at == place {
            return *word;
        }
    }
    0
}

fn protects(loads: &LinkedList<(Place, u64)>, seat: u32, row: u32) -> bool {
    loaded(loads, Place::RootCount(seat)) > 0
        && loaded(loads, Place::Root(seat, 0)) == u64::from(row)
}

fn is_protected(loads: &LinkedList<(Place, u64)>, row: u32) -> bool {
    protects(loads, 0, row) || protects(loads, 1, row)
}

// Of the first rows, the head of a chain of the protected ones, and how many are free.
fn parted(loads: &LinkedList<(Place, u64)>, rows: u32) -> (u64, u32) {
    let mut head = 0;
    let mut free = 0u32;
    for row in 0..rows {
        if is_protected(loads, row) {
            head = u64::from(row) + 1;
        } else {
            free = free.wrapping_add(1);
        }
    }
    (head, free)
}

// A protected row stands before the earlier ones in the chain, and any other in the next free
// place.
fn row_store(loads: &LinkedList<(Place, u64)>, row: u32) -> StoreStep {
    let (head, free) = parted(loads, row);
    if is_protected(loads, row) {
        StoreStep::StoreNext { row, value: head }
    } else {
        StoreStep::StoreFreePlace {
            index: free,
            value: u64::from(row),
        }
    }
}

// The number of the next base.
fn next_base(loads: &LinkedList<(Place, u64)>) -> u64 {
    loaded(loads, Place::Base)
        .wrapping_add(loaded(loads, Place::Claim))
        .wrapping_add(1)
}

/// The store of this number: those of the rows, and then the chain, the free count, the next base,
/// the bucket in use and the claim.
pub(crate) fn nth_store(loads: &LinkedList<(Place, u64)>, n: usize) -> Option<StoreStep> {
    let (head, free) = parted(loads, 2);
    match n {
        0 => Some(row_store(loads, 0)),
        1 => Some(row_store(loads, 1)),
        2 => Some(StoreStep::StoreBucket {
            bucket: 0,
            value: head,
        }),
        3 => Some(StoreStep::StoreFreeCount(u64::from(free))),
        4 => Some(StoreStep::StoreBase(next_base(loads))),
        5 => Some(StoreStep::StoreInUse(1)),
        6 => Some(StoreStep::StoreClaim(0)),
        _ => None,
    }
}

/// The next load, or the first store.
pub(crate) fn load_or_store(loads: &LinkedList<(Place, u64)>) -> Option<StoreStep> {
    match PLACES.get(loads.len()) {
        Some(place) => Some(StoreStep::LoadAny(*place)),
        None => nth_store(loads, 0),
    }
}
