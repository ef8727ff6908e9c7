//! A course's state as a text.
use crate::courses::Course;
use crate::driving::Driven;
use faults::Memory;
use lock_core::LockState;
use store_model::{Place, Sizes};

// A part of the words of a store: what is there once, with the buckets; a row, with a free place;
// and what a seat protects.
#[derive(Clone, Copy)]
enum Part {
    Heads,
    Row(u32),
    Seat(u32),
}

// How many words a part has. A row has a symbol, a count, and room for two arguments or more.
fn length_of(part: Part, sizes: &Sizes) -> u32 {
    match part {
        Part::Heads => sizes.buckets.saturating_add(4),
        Part::Row(_) => sizes.arity.max(2).saturating_add(5),
        Part::Seat(_) => sizes.depth.saturating_add(1),
    }
}

// Word k of a part.
fn place_of(part: Part, k: u32) -> Place {
    match (part, k) {
        (Part::Heads, 0) => Place::Base,
        (Part::Heads, 1) => Place::FreeCount,
        (Part::Heads, 2) => Place::Claim,
        (Part::Heads, 3) => Place::InUse,
        (Part::Heads, _) => Place::Bucket(k.saturating_sub(4)),
        (Part::Row(row), 0) => Place::FreePlace(row),
        (Part::Row(row), 1) => Place::Birth(row),
        (Part::Row(row), 2) => Place::Next(row),
        (Part::Row(row), _) => Place::RowWord(row, k.saturating_sub(3)),
        (Part::Seat(seat), 0) => Place::RootCount(seat),
        (Part::Seat(seat), _) => Place::Root(seat, k.saturating_sub(1)),
    }
}

fn write_part(text: &mut String, driven: &Driven, part: Part) -> Result<(), Memory> {
    for k in 0..length_of(part, &driven.sizes) {
        write!(text, "{} ", driven.store.word(place_of(part, k)))?;
    }
    Ok(())
}

fn write_words(text: &mut String, driven: &Driven) -> Result<(), Memory> {
    write_part(text, driven, Part::Heads)?;
    for row in 0..driven.sizes.rows {
        write_part(text, driven, Part::Row(row))?;
    }
    for seat in 0..driven.sizes.seats {
        write_part(text, driven, Part::Seat(seat))?;
    }
    Ok(())
}

// The seats of the lock.
fn write_seats(text: &mut String, lock: &LockState) -> Result<(), Memory> {
    for seat in 0..lock.count() {
        write!(text, "{:?} ", lock.seat(seat))?;
    }
    Ok(())
}

// What the seats know.
fn write_views(text: &mut String, driven: &Driven) -> Result<(), Memory> {
    for seat in 0..driven.sizes.seats {
        write!(text, "{:?} ", driven.store.view(seat))?;
    }
    Ok(())
}

fn write_all(text: &mut String, course: &Course) -> Result<(), Memory> {
    let driven = &course.driven;
    let lock = driven.store.lock();
    write_words(text, driven)?;
    write_seats(text, lock)?;
    write_views(text, driven)?;
    write!(
        text,
        "{:?} {:?} {}",
        lock.mutex(),
        course.progress,
        driven.refused
    )?;
    Ok(())
}

/// All that decides how a course of a play goes on and ends: the words, the lock, what the seats
/// know, how far they have come, and how many steps were refused.
pub(crate) fn text_of(course: &Course) -> Result<String, Memory> {
    let mut text = String::new(course.driven.alloc);
    write_all(&mut text, course)?;
    Ok(text)
}
