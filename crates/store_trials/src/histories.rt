//! Worked histories, and each way in which an entry is no step.

ghost use Rattle.std.specs.Prelude.{◌<◌, All, IfOk};

use faults::Memory;
use history_core::{Entry, legal_entries};
use std::alloc::Global;
use std::collections::LinkedList;
use std::test::Fail;
use term_model::{Head, Symbol};

/// An entry, with its rows as a slice.
#[derive(Clone, Copy)]
enum Written {
    Make(u64, Head, &'static [u32], u32),
    Find(u64, Head, &'static [u32], u32),
    Roots(u64, &'static [u32]),
    Collect(u64, &'static [u32]),
}

fn names(alloc: Global, rows: &[u32]) -> Result<LinkedList<u32>, Memory> {
    let mut list = LinkedList::new(alloc);
    for row in rows {
        list.push_back(*row)?;
    }
    Ok(list)
}

fn entry(alloc: Global, written: Written) -> Result<Entry, Memory> {
    Ok(match written {
        Written::Make(number, head, args, row) => Entry::Make {
            number,
            head,
            args: names(alloc, args)?,
            row,
        },
        Written::Find(after, head, args, row) => Entry::Find {
            after,
            head,
            args: names(alloc, args)?,
            row,
        },
        Written::Roots(after, rows) => Entry::Roots {
            after,
            rows: names(alloc, rows)?,
        },
        Written::Collect(number, kept) => Entry::Collect {
            number,
            kept: names(alloc, kept)?,
        },
    })
}

/// [] under 5, 7 under 2, a cell of both under 9, 8 under 0, and the cell is protected: each with
/// its caller.
static BEFORE: [(u32, Written); 5] = [
    (0, Written::Make(1, Head::Nil, &[], 5)),
    (1, Written::Make(2, Head::Int(7), &[], 2)),
    (1, Written::Make(3, Head::Cons, &[2, 5], 9)),
    (0, Written::Make(4, Head::Int(8), &[], 0)),
    (1, Written::Roots(4, &[9])),
];

/// That history, of callers 0 and 1 (`% 2` changes none of them).
fn history(alloc: Global) -> Result<Vec<(u32, Entry)>, Memory>
    ensures { IfOk result (λ history. All (λ x. x.0 < 2) history.items) }
{
    let mut history = Vec::new(alloc);
    for (caller, written) in BEFORE {
        history.push((caller % 2, entry(alloc, written)?))?;
    }
    Ok(history)
}

/// How many entries are legal where this one stands behind that history.
fn legal_with(alloc: Global, last: Written) -> Result<usize, Memory> {
    let mut history = history(alloc)?;
    history.push((0, entry(alloc, last)?))?;
    legal_entries(alloc, 10, 2, &history)
}

/// The first of some entries, by its number, with which not so many are legal.
fn first_other(alloc: Global, entries: &[Written], legal: usize) -> Result<Option<usize>, Memory> {
    for (number, last) in entries.iter().enumerate() {
        if legal_with(alloc, *last)? != legal {
            return Ok(Some(number));
        }
    }
    Ok(None)
}

const F: Head = Head::App(Symbol(3));

static STEPS: [Written; 4] = [
    Written::Make(5, F, &[9, 9, 0], 1),
    Written::Find(4, Head::Cons, &[2, 5], 9),
    Written::Roots(4, &[0, 5]),
    Written::Collect(5, &[2, 5, 9]),
];

#[test]
fn steps_are_answered_so(rt: HostRuntime) -> Result<(), Fail> {
    assert_eq!(rt; first_other(rt.alloc(), &STEPS, 6)?, None);
    Ok(())
}

static NO_MAKES: [Written; 6] = [
    // No name of the store.
    Written::Make(5, F, &[], 10),
    // The name is taken.
    Written::Make(5, F, &[], 9),
    // The tree is there.
    Written::Make(5, Head::Int(7), &[], 1),
    // An argument isn't held.
    Written::Make(5, F, &[1], 1),
    // An integer over one.
    Written::Make(5, Head::Int(9), &[2], 1),
    // No list behind.
    Written::Make(5, Head::Cons, &[5, 2], 1),
];

#[test]
fn a_make_is_no_step(rt: HostRuntime) -> Result<(), Fail> {
    assert_eq!(rt; first_other(rt.alloc(), &NO_MAKES, 5)?, None);
    Ok(())
}

static NO_STEPS: [Written; 5] = [
    // Another row.
    Written::Find(4, Head::Int(7), &[], 0),
    // A name isn't held.
    Written::Roots(4, &[9, 1]),
    // One too many, one too few, and not ascending.
    Written::Collect(5, &[0, 2, 5, 9]),
    Written::Collect(5, &[5, 9]),
    Written::Collect(5, &[2, 9, 5]),
];

#[test]
fn another_entry_is_no_step(rt: HostRuntime) -> Result<(), Fail> {
    assert_eq!(rt; first_other(rt.alloc(), &NO_STEPS, 5)?, None);
    Ok(())
}
