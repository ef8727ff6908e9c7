//! Marking of the names that can be reached from others.

ghost use Rattle.std.specs.Prelude.{◌≡◌, ◌<◌, ◌↔◌, ℕ, IsTrue, Contains, length, replicate, false};
ghost use Rattle.mark_phase.specs.Reachable.{IsClosed};
ghost use Rattle.history_core.specs.Slots.{children};
ghost use Rattle.history_core.specs.Marking.{AddsAll, ArgsWithin, joined, marked_names};

use crate::slots::Slots;
use mark_phase::{Marks, mark};
use std::collections::LinkedList;
use term_model::Row;

/// Marks what can be reached from these names.
fn mark_names(slots: &mut Slots, names: &LinkedList<u32>, marks: &mut Marks)
    requires size { length marks.old ≡ length slots.old }
    requires args { ArgsWithin slots.old }
    requires within { (n : ℕ) → Contains names.now n → n < length slots.old }
    requires closed { IsClosed (children slots.old) marks.old }
    ensures same { slots.new ≡ slots.old }
    ensures marked { AddsAll (children slots.old) names.now marks.old marks.new }
{
    for name in names.iter() {
        mark(slots, Row(*name), marks);
    }
}

/// Marks what can be reached from the names of these lists, and nothing else.
pub(crate) fn mark_all(slots: &mut Slots, roots: &[LinkedList<u32>], marks: &mut Marks)
    requires size { length marks.old ≡ length slots.old }
    requires args { ArgsWithin slots.old }
    requires within { (n : ℕ) → Contains (joined roots.now) n → n < length slots.old }
    ensures same { slots.new ≡ slots.old }
    ensures marked { AddsAll (children slots.old) (joined roots.now)
        (replicate (length marks.old) false) marks.new }
{
    marks.clear();
    for names in roots {
        mark_names(slots, names, marks);
    }
}

/// Whether these are the names that are marked, ascending.
pub(crate) fn are_marked(names: &LinkedList<u32>, marks: &Marks, bound: u32) -> bool
    requires { length marks.now ≡ bound }
    ensures { IsTrue result ↔ (names.now ≡ marked_names 0 marks.now) }
{
    let mut left = names.iter();
    for name in 0..bound {
        if marks.has(Row(name)) {
            let Some(next) = left.next() else {
                return false;
            };
            if *next != name {
                return false;
            }
        }
    }
    left.next().is_none()
}
