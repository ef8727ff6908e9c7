//! Every order of the turns of two seats.
use crate::courses::{Course, Play, started};
use crate::outcomes::{BAD, Tally, add, ended};
use crate::states::text_of;
use faults::Memory;
use std::alloc::Global;

/// The orders of turns that lead to one state: one of them, and how many there are. Since the state
/// decides how a course goes on, they go on alike.
#[derive(Drop)]
struct Way {
    turns: Vec<u32>,
    state: String,
    orders: u32,
}

// The course after these turns.
fn replayed(alloc: Global, play: Play, turns: &[u32]) -> Result<Course, Memory> {
    let mut course = started(alloc, play)?;
    replay(&mut course, turns)?;
    Ok(course)
}

fn replay(course: &mut Course, turns: &[u32]) -> Result<(), Memory> {
    for seat in turns {
        course.turn(*seat)?;
    }
    Ok(())
}

// These turns, and one more.
fn longer(alloc: Global, turns: &[u32], seat: u32) -> Result<Vec<u32>, Memory> {
    let mut longer = Vec::new(alloc);
    longer.extend_from_slice(turns)?;
    longer.push(seat)?;
    Ok(longer)
}

fn find(ways: &[Way], state: &str) -> Option<usize> {
    for (index, way) in ways.iter().enumerate() {
        if way.state.as_str() == state {
            return Some(index);
        }
    }
    None
}

// The ways with these turns too, which led to this state.
fn put(
    ways: &mut Vec<Way>,
    alloc: Global,
    way: &Way,
    seat: u32,
    state: String,
) -> Result<(), Memory> {
    if let Some(index) = find(ways, state.as_str())
        && let Some(known) = ways.get_mut(index)
    {
        known.orders = known.orders.wrapping_add(way.orders);
        return Ok(());
    }
    ways.push(Way {
        turns: longer(alloc, way.turns.as_slice(), seat)?,
        state,
        orders: way.orders,
    })?;
    Ok(())
}

// The ways with one more turn of this seat; false where it has come to its end.
fn go_on(ways: &mut Vec<Way>, course: &mut Course, way: &Way, seat: u32) -> Result<bool, Memory> {
    if !course.turn(seat)? {
        return Ok(false);
    }
    let state = text_of(course)?;
    put(ways, course.driven.alloc, way, seat, state)?;
    Ok(true)
}

fn reach(
    ways: &mut Vec<Way>,
    alloc: Global,
    play: Play,
    way: &Way,
    seat: u32,
) -> Result<bool, Memory> {
    let mut course = replayed(alloc, play, way.turns.as_slice())?;
    go_on(ways, &mut course, way, seat)
}

// The ways with one more turn of either seat; where both have come to their ends, these orders are
// counted.
fn part(
    ways: &mut Vec<Way>,
    tally: &mut Tally,
    alloc: Global,
    play: Play,
    way: &Way,
) -> Result<(), Memory> {
    let one = reach(ways, alloc, play, way, 0)?;
    let other = reach(ways, alloc, play, way, 1)?;
    if one || other {
        return Ok(());
    }
    add(tally, end(alloc, play, way)?, way.orders);
    Ok(())
}

// How these orders end.
fn end(alloc: Global, play: Play, way: &Way) -> Result<usize, Memory> {
    let course = replayed(alloc, play, way.turns.as_slice())?;
    ended(&course)
}

// One turn more of all these ways.
fn advance(
    ways: &mut Vec<Way>,
    tally: &mut Tally,
    alloc: Global,
    play: Play,
) -> Result<(), Memory> {
    let mut next = Vec::new(alloc);
    for way in ways.iter() {
        part(&mut next, tally, alloc, play, way)?;
    }
    *ways = next;
    Ok(())
}

/// How many orders of at most so many turns end in each way; one that goes on longer is bad.
pub(crate) fn explored(alloc: Global, play: Play, turns: u32) -> Result<Tally, Memory> {
    let mut tally = [0; 6];
    let mut ways = Vec::new(alloc);
    ways.push(Way {
        turns: Vec::new(alloc),
        state: String::new(alloc),
        orders: 1,
    })?;
    for _turn in 0..turns {
        advance(&mut ways, &mut tally, alloc, play)?;
    }
    for way in ways.iter() {
        add(&mut tally, BAD, way.orders);
    }
    Ok(tally)
}
