//! How a course ends.
use crate::courses::{COLLECTOR, CREATOR, Course, Play};
use crate::driving::has_noted;
use faults::Memory;
use history_core::Entry;
use std::alloc::Global;
use std::collections::LinkedList;
use store_model::View;
use term_model::{Head, Symbol};

/// How many orders end in each way. In a sweep: the term is made before the collection, after it;
/// the other seat is in the way of the creator, of the collector, of each. Else they are good. The
/// last ones go wrong.
pub(crate) type Tally = [u32; 6];

const BEFORE: usize = 0;

const AFTER: usize = 1;

const CREATOR_KEPT_OUT: usize = 2;

const COLLECTOR_KEPT_OUT: usize = 3;

const BOTH_KEPT_OUT: usize = 4;

pub(crate) const GOOD: usize = 0;

pub(crate) const BAD: usize = 5;

pub(crate) fn add(tally: &mut Tally, way: usize, orders: u32) {
    if let Some(count) = tally.get_mut(way) {
        *count = count.wrapping_add(orders);
    }
}

/// The way in which a course has ended. Each step has to have been in place.
pub(crate) fn ended(course: &Course) -> Result<usize, Memory> {
    if course.driven.refused > 0 {
        return Ok(BAD);
    }
    match course.play {
        Play::Creations(one, other) => Ok(raced(course, one.0 == other.0, false)),
        Play::Leaving(one, other) => Ok(raced(course, one == other, true)),
        Play::Sweeping => swept(course),
    }
}

// As a set of one thread would have it: equal constants have one name, different ones have two.
// Each seat has noted its creation, and where both leave, that it protects nothing.
fn raced(course: &Course, same: bool, leave: bool) -> usize {
    let store = &course.driven.store;
    let (Some(one), Some(other)) = (store.view(0), store.view(1)) else {
        return BAD;
    };
    let good = if same {
        makes_for(one, other) || makes_for(other, one)
    } else {
        both_make(one, other)
    };
    if good && is_complete(one, leave) && is_complete(other, leave) {
        GOOD
    } else {
        BAD
    }
}

// Whether a seat has noted one entry; or where it leaves, two, of which the second is under the
// number of the first, and protects nothing.
fn is_complete(view: &View, leaves: bool) -> bool {
    if leaves {
        view.entries.len() == 2 && protects_nothing(view)
    } else {
        view.entries.len() == 1
    }
}

fn protects_nothing(view: &View) -> bool {
    match (view.entries.front(), view.entries.back()) {
        (Some(first), Some(Entry::Roots { after, rows })) => {
            *after == first.key() && rows.is_empty()
        }
        _ => false,
    }
}

// The number and the row of a creation that made, and of one that found.
fn made(view: &View) -> Option<(u64, u32)> {
    match view.entries.front() {
        Some(Entry::Make { number, row, .. }) => Some((*number, *row)),
        _ => None,
    }
}

fn found(view: &View) -> Option<(u64, u32)> {
    match view.entries.front() {
        Some(Entry::Find { after, row, .. }) => Some((*after, *row)),
        _ => None,
    }
}

// One creation made the row, and the other found it, after that.
fn makes_for(maker: &View, finder: &View) -> bool {
    match (made(maker), found(finder)) {
        (Some((number, row)), Some((after, again))) => row == again && number <= after,
        _ => false,
    }
}

// Both made a row, under different names and numbers.
fn both_make(one: &View, other: &View) -> bool {
    match (made(one), made(other)) {
        (Some((number, row)), Some((later, another))) => number != later && row != another,
        _ => false,
    }
}

fn names(alloc: Global, row: Option<u32>) -> Result<LinkedList<u32>, Memory> {
    let mut names = LinkedList::new(alloc);
    if let Some(row) = row {
        names.push_back(row)?;
    }
    Ok(names)
}

// A constant is made in a row, and then its seat leaves with this row protected.
fn push_made(
    entries: &mut LinkedList<Entry>,
    alloc: Global,
    (symbol, number, row): (u32, u64, u32),
    root: Option<u32>,
) -> Result<(), Memory> {
    entries.push_back(Entry::Make {
        number,
        head: Head::App(Symbol(symbol)),
        args: LinkedList::new(alloc),
        row,
    })?;
    push_roots(entries, number, names(alloc, root)?)
}

fn push_roots(
    entries: &mut LinkedList<Entry>,
    after: u64,
    rows: LinkedList<u32>,
) -> Result<(), Memory> {
    entries.push_back(Entry::Roots { after, rows })?;
    Ok(())
}

// A collection of this number kept this row, and then its seat leaves.
fn push_collected(
    entries: &mut LinkedList<Entry>,
    alloc: Global,
    number: u64,
    row: Option<u32>,
) -> Result<(), Memory> {
    let kept = names(alloc, row)?;
    entries.push_back(Entry::Collect { number, kept })?;
    push_roots(entries, number, LinkedList::new(alloc))
}

// Whether the creator made constant 0 in this row under this number, and left with it protected.
fn creator_made(course: &Course, number: u64, row: u32) -> Result<bool, Memory> {
    let alloc = course.driven.alloc;
    let mut entries = LinkedList::new(alloc);
    push_made(&mut entries, alloc, (0, number, row), Some(row))?;
    Ok(has_noted(&course.driven.store, CREATOR, &entries))
}

fn creator_made_nothing(course: &Course) -> bool {
    let entries = LinkedList::new(course.driven.alloc);
    has_noted(&course.driven.store, CREATOR, &entries)
}

// Whether the collector, which has made constant 1 in row 0 and left, has collected then, under
// this number, and kept this row; or hasn't collected.
fn collector_kept(course: &Course, collection: Option<(u64, Option<u32>)>) -> Result<bool, Memory> {
    let alloc = course.driven.alloc;
    let mut entries = LinkedList::new(alloc);
    push_made(&mut entries, alloc, (1, 1, 0), None)?;
    if let Some((number, kept)) = collection {
        push_collected(&mut entries, alloc, number, kept)?;
    }
    Ok(has_noted(&course.driven.store, COLLECTOR, &entries))
}

// A creation before the collection draws the second place: it makes row 1 under number 1 + 1, and
// the collection has the number 1 + 2. A collection that comes first has the number 1 + 1; the base
// is then 3 and both rows are free, so the creation makes row 0 under number 3.
fn swept(course: &Course) -> Result<usize, Memory> {
    let before = creator_made(course, 2, 1)?;
    let after = creator_made(course, 3, 0)?;
    let kept_one = collector_kept(course, Some((3, Some(1))))?;
    let kept_nothing = collector_kept(course, Some((2, None)))?;
    let not_collected = collector_kept(course, None)?;
    let nothing = creator_made_nothing(course);
    Ok(if before && kept_one {
        BEFORE
    } else if after && kept_nothing {
        AFTER
    } else if nothing && kept_nothing {
        CREATOR_KEPT_OUT
    } else if before && not_collected {
        COLLECTOR_KEPT_OUT
    } else if nothing && not_collected {
        BOTH_KEPT_OUT
    } else {
        BAD
    })
}
