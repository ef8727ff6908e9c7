//! What a seat knows after it has entered, read a row, or left.
ghost use Rattle.std.specs.Prelude.{◌≡◌, ◌+◌, ◌==◌, if◌then◌else◌, IfOk, OnOk};
ghost use Rattle.store_model.specs.Machine as machine;
ghost use Rattle.store_model.specs.Machine.{rows_kept, words_kept};

use crate::machine::staying::keep;
use faults::Memory;
use history_core::Entry;
use std::collections::LinkedList;
use store_model::{Call, KnownWord, Stay, View};

/// A word as the number of a row, or of a row and 1. Rows have numbers of 32 bits, so every word
/// that is one fits.
pub(crate) fn narrow(word: u64) -> Result<u32, Memory>
    ensures { IfOk result (λ n. n ≡ word) }
{
    match u32::try_from(word) {
        Ok(number) => Ok(number),
        Err(_) => Err(Memory),
    }
}

/// The sum of two numbers.
pub(crate) fn sum(m: u64, n: u32) -> Result<u64, Memory>
    ensures { IfOk result (λ k. k ≡ m + n) }
{
    match m.checked_add(u64::from(n)) {
        Some(sum) => Ok(sum),
        None => Err(Memory),
    }
}

/// Another call is under way.
pub(crate) fn set_call(view: &mut View, call: Call)
    ensures { view.new ≡ machine.with_call view.old call }
{
    view.call = call;
}

// What the view keeps is left of it, where this base is another than its own.
fn keep_for(view: &mut View, base: u64) -> Result<(), Memory>
    ensures { OnOk result
        (view.new ≡ record view.old {
          got = if base == view.old.base then view.old.got else rows_kept view.old;
          knows = if base == view.old.base
              then view.old.knows else words_kept view.old;
        }) }
{
    if base == view.base {
        return Ok(());
    }
    keep(view)
}

/// The base was loaded: another value than before begins an epoch.
pub(crate) fn base_on(view: &mut View, base: u64) -> Result<(), Memory>
    ensures { OnOk result (view.new ≡ machine.based view.old base) }
{
    keep_for(view, base)?;
    view.stay = Stay::Based;
    view.base = base;
    view.seen = view.seen.max(base.saturating_sub(1));
    view.fresh = false;
    Ok(())
}

/// A row was got.
pub(crate) fn add_got(view: &mut View, row: u32) -> Result<(), Memory>
    ensures { OnOk result (view.new ≡ machine.with_got view.old row) }
{
    view.got.push_front(row)?;
    Ok(())
}

/// A word of a row was read.
pub(crate) fn know(view: &mut View, row: u32, word: u32, value: u64) -> Result<(), Memory>
    ensures { OnOk result (view.new ≡ machine.knowing view.old row word value) }
{
    view.knows.push_front(KnownWord { row, word, value })?;
    Ok(())
}

/// The number of buckets in use was loaded.
pub(crate) fn make_ready(view: &mut View, in_use: u32)
    ensures { view.new ≡ machine.ready view.old in_use }
{
    view.stay = Stay::Ready;
    view.in_use = in_use;
}

/// The end of an exclusive access has begun.
pub(crate) fn begin_leaving(view: &mut View)
    ensures { view.new ≡ machine.leaving view.old }
{
    view.stay = Stay::Leaving;
    view.fresh = false;
}

/// An access has ended, with these rows protected.
pub(crate) fn leave_with(view: &mut View, rows: LinkedList<u32>) -> Result<(), Memory>
    ensures { OnOk result (view.new ≡ machine.left view.old rows) }
{
    view.entries.push_back(Entry::Roots {
        after: view.seen,
        rows,
    })?;
    view.stay = Stay::Away;
    view.fresh = false;
    Ok(())
}
