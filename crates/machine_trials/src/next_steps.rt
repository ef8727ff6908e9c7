//! The next step of a creation, by what its seat knows.
use faults::Memory;
use std::alloc::Global;
use std::collections::LinkedList;
use store_model::{Call, Content, StoreStep, View};
use term_model::{Head, Symbol};

/// A symbol over nothing.
pub(crate) fn constant(alloc: Global, symbol: u32) -> Content {
    Content {
        head: Head::App(Symbol(symbol)),
        arguments: LinkedList::new(alloc),
    }
}

/// A symbol over a row.
pub(crate) fn over(alloc: Global, symbol: u32, row: u32) -> Result<Content, Memory> {
    let mut content = constant(alloc, symbol);
    content.arguments.push_back(row)?;
    Ok(content)
}

pub(crate) fn integer(alloc: Global, value: u64) -> Content {
    Content {
        head: Head::Int(value),
        arguments: LinkedList::new(alloc),
    }
}

// Word k of a row of a symbol or of an integer, by a rule of its own: the symbol or 2 ^ 32, the
// count of arguments, and the arguments or the integer.
fn word_of(content: &Content, k: u32) -> u64 {
    match (content.head, k) {
        (Head::App(symbol), 0) => u64::from(symbol.0),
        (_, 0) => 1 << 32,
        (_, 1) => content.arguments.len() as u64,
        (Head::Int(value), _) => value,
        _ => argument(content, k.saturating_sub(2)),
    }
}

fn argument(content: &Content, k: u32) -> u64 {
    match content.arguments.iter().nth(k as usize) {
        Some(row) => u64::from(*row),
        None => 0,
    }
}

/// The next step of a creation in this bucket, in a table of rows for two arguments.
pub(crate) fn next_step(view: &View, bucket: u32) -> Option<StoreStep> {
    match &view.call {
        Call::Idle | Call::Loading(_) | Call::Storing(_, _) => None,
        Call::Comparing(_, _, _, _, at, k) => Some(load_row(at.saturating_sub(1), *k)),
        Call::Passing(_, _, _, _, at, _) => Some(load_row(at.saturating_sub(1), 5)),
        Call::Finding(_, _, row) => Some(load_row(*row, 4)),
        Call::Ended(_, _) => Some(StoreStep::LoadClaim),
        Call::Counting(_, _, _) => Some(StoreStep::LoadFreeCount),
        Call::Drawing(_, _, _) => Some(StoreStep::Draw),
        Call::Placing(_, _, i) => Some(StoreStep::LoadFreePlace(*i)),
        Call::Filling(content, _, _, row, k) => Some(drawn(*row, *k, word_of(content, *k))),
        Call::Numbering(_, _, i, row) => {
            Some(drawn(*row, 4, view.base.wrapping_add(u64::from(*i))))
        }
        Call::Linking(_, from, _, row) => Some(drawn(*row, 5, u64::from(*from))),
        Call::Publishing(_, from, _, row) => Some(StoreStep::Publish {
            bucket,
            old: *from,
            new: row.wrapping_add(1),
        }),
    }
}

fn load_row(row: u32, word: u32) -> StoreStep {
    StoreStep::LoadRow { row, word }
}

fn drawn(row: u32, word: u32, value: u64) -> StoreStep {
    StoreStep::StoreDrawn { row, word, value }
}
