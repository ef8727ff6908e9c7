//! Steps out of place, and two seats that race for a term.
use crate::driving::{Act, Driven, SMALL, has_noted, phase_of};
use faults::Memory;
use history_core::Entry;
use lock_core::{LockStep, Phase};
use std::alloc::Global;
use std::collections::LinkedList;
use std::test::Fail;
use store_core::{StoreState, replay};
use term_model::{Head, Symbol};

// A constant that a seat has made or found: the number, the symbol and the row.
#[derive(Clone, Copy)]
enum Noted {
    Makes(u64, u32, u32),
    Finds(u64, u32, u32),
}

fn entry_of(alloc: Global, noted: Noted) -> Entry {
    let args = LinkedList::new(alloc);
    match noted {
        Noted::Makes(number, symbol, row) => Entry::Make {
            number,
            head: Head::App(Symbol(symbol)),
            args,
            row,
        },
        Noted::Finds(after, symbol, row) => Entry::Find {
            after,
            head: Head::App(Symbol(symbol)),
            args,
            row,
        },
    }
}

// Whether a seat has noted this, and then that it has left with nothing protected, after this
// number.
fn has_left(
    store: &StoreState,
    alloc: Global,
    seat: u32,
    (noted, after): (Noted, u64),
) -> Result<bool, Memory> {
    let mut list = LinkedList::new(alloc);
    list.push_back(entry_of(alloc, noted))?;
    let rows = LinkedList::new(alloc);
    list.push_back(Entry::Roots { after, rows })?;
    Ok(has_noted(store, seat, &list))
}

// Two seats load one head; the first makes constant 0, and then the other goes on.
fn race(alloc: Global, other: u32) -> Result<Driven, Memory> {
    let acts = [
        (0, Act::Enter),
        (1, Act::Enter),
        (0, Act::Begin(0)),
        (1, Act::Begin(other)),
        (0, Act::Go(8)),
        (1, Act::Go(8)),
        (0, Act::Go(1)),
        (1, Act::Go(6)),
        (0, Act::Lock(LockStep::Lower)),
        (1, Act::Lock(LockStep::Lower)),
    ];
    Driven::after(alloc, SMALL, &acts)
}

// How many steps were out of place; whether seat 0 has made constant 0 under 1 and left after 1,
// and seat 1 has noted this and left after that number; and whether the steps are in place in a
// list.
fn outcome(driven: &Driven, second: (Noted, u64)) -> Result<(u32, bool, bool, bool), Memory> {
    let alloc = driven.alloc;
    let winner = has_left(&driven.store, alloc, 0, (Noted::Makes(1, 0, 0), 1))?;
    let loser = has_left(&driven.store, alloc, 1, second)?;
    let replayed = replay(alloc, SMALL, driven.steps.as_slice())?.is_some();
    Ok((driven.refused, winner, loser, replayed))
}

fn raced(
    alloc: Global,
    other: u32,
    second: (Noted, u64),
) -> Result<(u32, bool, bool, bool), Memory> {
    let driven = race(alloc, other)?;
    outcome(&driven, second)
}

// Both draw; the first publishes row 0 under 1. The other loses its exchange, walks the new part of
// the chain and finds row 0.
#[test]
fn of_two_seats_that_race_for_one_term_one_makes_and_the_other_finds(
    rt: HostRuntime,
) -> Result<(), Fail> {
    assert_eq!(rt;
        raced(rt.alloc(), 0, (Noted::Finds(1, 0, 0), 1))?,
        (0, true, true, true)
    );
    Ok(())
}

// The other's term isn't in the new part: it links its row 1 to row 0, and publishes again, under
// 2.
#[test]
fn a_lost_exchange_walks_the_new_part_and_makes(rt: HostRuntime) -> Result<(), Fail> {
    assert_eq!(rt;
        raced(rt.alloc(), 1, (Noted::Makes(2, 1, 1), 2))?,
        (0, true, true, true)
    );
    Ok(())
}

// Steps of the lock, each of a seat; whether all are in place; and then the phase of seat 0.
type Locking = (&'static str, &'static [(u32, Act)], bool, Phase);

static LOCKINGS: [Locking; 3] = [
    (
        "a lower of a seat that is out is out of place",
        &[(0, Act::Lock(LockStep::Lower))],
        false,
        Phase::Out,
    ),
    (
        "raise and look share",
        &[
            (0, Act::Lock(LockStep::Raise)),
            (0, Act::Lock(LockStep::Look)),
        ],
        true,
        Phase::Shared,
    ),
    (
        "a seat that is not there makes no step",
        &[(2, Act::Lock(LockStep::Raise))],
        false,
        Phase::Out,
    ),
];

// Whether the steps of a store are in place one by one, and the phase of seat 0 then; and that
// phase where they are in place in a list.
fn phases(driven: &Driven) -> Result<(bool, Phase, Option<Phase>), Memory> {
    let phase = match replay(driven.alloc, SMALL, driven.steps.as_slice())? {
        Some(store) => Some(phase_of(&store, 0)),
        None => None,
    };
    Ok((driven.refused == 0, phase_of(&driven.store, 0), phase))
}

fn locked(alloc: Global, acts: &[(u32, Act)]) -> Result<(bool, Phase, Option<Phase>), Memory> {
    let driven = Driven::after(alloc, SMALL, acts)?;
    phases(&driven)
}

#[test]
fn steps_of_the_lock_are_made_where_they_are_in_place(rt: HostRuntime) -> Result<(), Fail> {
    for (what, acts, made, phase) in &LOCKINGS {
        let replayed = if *made { Some(*phase) } else { None };
        assert_eq!(rt;
            locked(rt.alloc(), acts)?,
            (*made, *phase, replayed),
            "{what}"
        );
    }
    Ok(())
}
