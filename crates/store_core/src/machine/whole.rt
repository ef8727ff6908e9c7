//! Whether a collection has loaded all words.
ghost use Rattle.std.specs.Prelude.{◌≡◌, ◌↔◌, ℕ, ◌<◌, IfOk, IsTrue, MatchBool};
ghost use Rattle.store_model.specs.Steps.{value_at, IsWhole};
ghost use Rattle.store_model.specs.Shown.{shown};
ghost use Rattle.store_model.specs.declared.view.Place.TheVariants.{Base, Claim, FreeCount, InUse, RootCount};
ghost use Rattle.store_core.specs.Lines.{place_on, IsLoadedRight, LoadsLine};
ghost use Rattle.store_core.specs.declared.machine.whole.Line.TheVariants.{FreePlaces, Buckets, Births, Nexts, RootCounts, Words, Roots};

use crate::machine::acting::same_place;
use crate::machine::beginning::widest_of;
use crate::machine::moves::narrow;
use crate::machine::table::Table;
use faults::Memory;
use store_model::Place;

/// Words that stand side by side.
#[derive(Clone, Copy, Drop)]
pub(crate) enum Line {
    FreePlaces,
    Buckets,
    Births,
    Nexts,
    RootCounts,
    /// The words of a row.
    Words(u32),
    /// The protected rows of a seat.
    Roots(u32),
}

// The k-th place on a line.
fn place_on(line: &Line, k: u32) -> Place
    ensures { result ≡ place_on line.now k }
{
    match line {
        Line::FreePlaces => Place::FreePlace(k),
        Line::Buckets => Place::Bucket(k),
        Line::Births => Place::Birth(k),
        Line::Nexts => Place::Next(k),
        Line::RootCounts => Place::RootCount(k),
        Line::Words(row) => Place::RowWord(*row, k),
        Line::Roots(seat) => Place::Root(*seat, k),
    }
}

/// What was loaded first from a place.
pub(crate) fn first_loaded(place: &Place, loads: &[(Place, u64)]) -> Option<u64>
    ensures { result ≡ value_at place.now loads.now }
{
    for (from, value) in loads.iter() {
        if same_place(from, place) {
            return Some(*value);
        }
    }
    None
}

// Whether the present word of a place was loaded from it first.
fn is_loaded(table: &Table, loads: &[(Place, u64)], place: &Place) -> bool
    ensures { IsTrue result
        ↔ IsLoadedRight (shown table.now.sizes table.now.words.items) loads.now place.now }
{
    match first_loaded(place, loads) {
        Some(value) => value == table.load(place),
        None => false,
    }
}

// Whether so many words of a line were loaded.
fn is_line_loaded(table: &Table, loads: &[(Place, u64)], line: &Line, count: u32) -> bool
    ensures { MatchBool result
        (LoadsLine (shown table.now.sizes table.now.words.items) loads.now line.now count)
        (LoadsLine (shown table.now.sizes table.now.words.items) loads.now line.now count → ⊥) }
{
    for k in 0..count {
        if !is_loaded(table, loads, &place_on(line, k)) {
            return false;
        }
    }
    true
}

// Whether the words of all rows were loaded.
fn are_words_loaded(table: &Table, loads: &[(Place, u64)], width: u32) -> bool
    ensures { MatchBool result ((r : ℕ) → r < table.now.sizes.rows
        → LoadsLine (shown table.now.sizes table.now.words.items) loads.now (Words r) width)
        (((r : ℕ) → r < table.now.sizes.rows
        → LoadsLine (shown table.now.sizes table.now.words.items) loads.now (Words r) width) → ⊥) }
{
    for row in 0..table.sizes.rows {
        if !is_line_loaded(table, loads, &Line::Words(row), width) {
            return false;
        }
    }
    true
}

// Whether the protected rows of all seats were loaded.
fn are_roots_loaded(table: &Table, loads: &[(Place, u64)]) -> Result<bool, Memory>
    ensures { IfOk result
        (λ b. MatchBool b ((j : ℕ) → j < table.now.sizes.seats
        → LoadsLine (shown table.now.sizes table.now.words.items) loads.now (Roots j)
        (shown table.now.sizes table.now.words.items (RootCount j)))
        (((j : ℕ) → j < table.now.sizes.seats
        → LoadsLine (shown table.now.sizes table.now.words.items) loads.now (Roots j)
        (shown table.now.sizes table.now.words.items (RootCount j))) → ⊥)) }
{
    for seat in 0..table.sizes.seats {
        let count = narrow(table.load(&Place::RootCount(seat)))?;
        if !is_line_loaded(table, loads, &Line::Roots(seat), count) {
            return Ok(false);
        }
    }
    Ok(true)
}

/// Whether a collection has loaded all words.
pub(crate) fn is_whole(table: &Table, loads: &[(Place, u64)]) -> Result<bool, Memory>
    ensures { IfOk result
        (λ b. IsTrue b
        ↔ IsWhole table.now.sizes (shown table.now.sizes table.now.words.items) loads.now) }
{
    let count = narrow(table.load(&Place::FreeCount))?;
    let width = narrow(widest_of(&table.sizes) + 2)?;
    Ok(
        are_singles_loaded(table, loads)
            && are_lines_loaded(table, loads, count)
            && are_words_loaded(table, loads, width)
            && are_roots_loaded(table, loads)?,
    )
}

fn are_singles_loaded(table: &Table, loads: &[(Place, u64)]) -> bool
    ensures { IsTrue result
        ↔ IsLoadedRight (shown table.now.sizes table.now.words.items) loads.now Base
        × IsLoadedRight (shown table.now.sizes table.now.words.items) loads.now Claim
        × IsLoadedRight (shown table.now.sizes table.now.words.items) loads.now FreeCount
        × IsLoadedRight (shown table.now.sizes table.now.words.items) loads.now InUse }
{
    is_loaded(table, loads, &Place::Base)
        && is_loaded(table, loads, &Place::Claim)
        && is_loaded(table, loads, &Place::FreeCount)
        && is_loaded(table, loads, &Place::InUse)
}

fn are_lines_loaded(table: &Table, loads: &[(Place, u64)], count: u32) -> bool
    ensures { IsTrue result
        ↔ LoadsLine (shown table.now.sizes table.now.words.items) loads.now FreePlaces count
        × LoadsLine (shown table.now.sizes table.now.words.items) loads.now Buckets
        table.now.sizes.buckets
        × LoadsLine (shown table.now.sizes table.now.words.items) loads.now Births
        table.now.sizes.rows
        × LoadsLine (shown table.now.sizes table.now.words.items) loads.now Nexts
        table.now.sizes.rows
        × LoadsLine (shown table.now.sizes table.now.words.items) loads.now RootCounts
        table.now.sizes.seats }
{
    is_line_loaded(table, loads, &Line::FreePlaces, count)
        && is_line_loaded(table, loads, &Line::Buckets, table.sizes.buckets)
        && is_line_loaded(table, loads, &Line::Births, table.sizes.rows)
        && is_line_loaded(table, loads, &Line::Nexts, table.sizes.rows)
        && is_line_loaded(table, loads, &Line::RootCounts, table.sizes.seats)
}
