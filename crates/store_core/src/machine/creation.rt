//! The next atomic action of a creation.
ghost use Rattle.std.specs.Prelude.{◌≡◌, suc, ◌==◌, if◌then◌else◌, IfOk, OnOk};
ghost use Rattle.store_model.specs.Machine as machine;

use crate::machine::contents::{bucket_of, word_at, words_of};
use crate::machine::gaining::{after_counted, after_drawn, after_found, after_published};
use crate::machine::moves::{set_call, sum};
use crate::machine::stages::{after_compared, after_filled, after_passed, after_placed};
use faults::Memory;
use std::mem;
use store_model::{Call, Place, View};

/// The word that the action is on.
pub(crate) fn place_of(view: &View) -> Result<Place, Memory>
    ensures { IfOk result (λ p. p ≡ (machine.action view.now view.now.call).place) }
{
    match &view.call {
        Call::Idle | Call::Loading(_) | Call::Storing(_, _) => Ok(Place::Base),
        Call::Comparing(_, _, _, _, at, k) => Ok(Place::RowWord(at.saturating_sub(1), *k)),
        Call::Passing(_, _, _, _, at, _) => Ok(Place::Next(at.saturating_sub(1))),
        Call::Finding(_, _, row) => Ok(Place::Birth(*row)),
        Call::Ended(_, _) | Call::Drawing(_, _, _) => Ok(Place::Claim),
        Call::Counting(_, _, _) => Ok(Place::FreeCount),
        Call::Placing(_, _, index) => Ok(Place::FreePlace(*index)),
        Call::Filling(_, _, _, row, k) => Ok(Place::RowWord(*row, *k)),
        Call::Numbering(_, _, _, row) => Ok(Place::Birth(*row)),
        Call::Linking(_, _, _, row) => Ok(Place::Next(*row)),
        Call::Publishing(content, _, _, _) => Ok(Place::Bucket(bucket_of(content, view.in_use)?)),
    }
}

/// What the word becomes.
pub(crate) fn written(view: &View, word: u64) -> Result<u64, Memory>
    ensures { IfOk result (λ n. n ≡ (machine.action view.now view.now.call).written word) }
{
    match &view.call {
        Call::Drawing(_, _, _) => sum(word, 1),
        Call::Filling(content, _, _, _, k) => Ok(word_at(words_of(content)?.as_slice(), *k)),
        Call::Numbering(_, _, index, _) => sum(view.base, *index),
        Call::Linking(_, from, _, _) => Ok(u64::from(*from)),
        Call::Publishing(_, from, _, row) => exchanged(word, *from, *row),
        _ => Ok(word),
    }
}

// What a bucket becomes by the exchange of its head for a row.
fn exchanged(word: u64, from: u32, row: u32) -> Result<u64, Memory>
    ensures { IfOk result (λ n. n ≡ (if word == from then suc row else word)) }
{
    if word == u64::from(from) {
        sum(1, row)
    } else {
        Ok(word)
    }
}

/// What the seat knows after the action, which found this word.
pub(crate) fn move_on(view: &mut View, word: u64) -> Result<(), Memory>
    ensures { OnOk result (view.new ≡ (machine.action view.old view.old.call).moved word) }
{
    let call = mem::replace(&mut view.call, Call::Idle);
    match call {
        Call::Idle | Call::Loading(_) | Call::Storing(_, _) => {
            set_call(view, call);
            Ok(())
        }
        Call::Comparing(c, drawn, from, old, at, k) => after_compared(
            view, c, drawn, from, old, at, k, word,
        ),
        Call::Passing(c, drawn, from, old, at, differs) => after_passed(
            view, c, drawn, from, old, at, differs, word,
        ),
        Call::Finding(c, _, row) => after_found(view, c, row, word),
        Call::Ended(c, from) => {
            set_call(view, Call::Counting(c, from, word));
            Ok(())
        }
        Call::Counting(c, from, claim) => after_counted(view, c, from, claim, word),
        Call::Drawing(c, from, count) => after_drawn(view, c, from, count, word),
        Call::Placing(c, from, index) => after_placed(view, c, from, index, word),
        Call::Filling(c, from, index, row, k) => after_filled(view, c, from, index, row, k),
        Call::Numbering(c, from, index, row) => {
            set_call(view, Call::Linking(c, from, index, row));
            Ok(())
        }
        Call::Linking(c, from, index, row) => {
            set_call(view, Call::Publishing(c, from, index, row));
            Ok(())
        }
        Call::Publishing(c, from, index, row) => after_published(view, c, from, index, row, word),
    }
}
