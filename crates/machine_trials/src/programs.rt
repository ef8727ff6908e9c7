//! The next step of a seat, by what it knows and how far it has come.
use crate::courses::{COLLECTOR, CREATOR, Progress};
use crate::driving::{Driven, phase_of};
use crate::next_steps::{constant, next_step};
use crate::sweeping::{load_or_store, nth_store};
use history_core::Entry;
use lock_core::{LockStep, Phase, Standing};
use std::alloc::Global;
use store_core::StoreState;
use store_model::{Call, Place, Stay, StoreStep, View};

/// Of a seat that creates a constant in a bucket.
pub(crate) fn creates(driven: &Driven, seat: u32, term: (u32, u32)) -> Option<StoreStep> {
    let view = driven.store.view(seat)?;
    let (symbol, bucket) = term;
    if view.entries.is_empty() && matches!(view.call, Call::Idle) {
        let content = constant(driven.alloc, symbol);
        return Some(StoreStep::LoadBucket { bucket, content });
    }
    next_step(view, bucket)
}

/// Of a seat that ends a creation, and leaves.
pub(crate) fn leaves(driven: &Driven, seat: u32) -> Option<StoreStep> {
    if phase_of(&driven.store, seat) == Phase::Out {
        return None;
    }
    match next_step(driven.store.view(seat)?, 0) {
        None => Some(StoreStep::Lock(LockStep::Lower)),
        step => step,
    }
}

/// Raise, look, and what the creator does in shared access.
pub(crate) fn creators_next(driven: &Driven, progress: Progress) -> Option<StoreStep> {
    match phase_of(&driven.store, CREATOR) {
        Phase::Out if progress.left => None,
        Phase::Out => Some(StoreStep::Lock(LockStep::Raise)),
        Phase::Raised => Some(StoreStep::Lock(LockStep::Look)),
        _ => {
            let view = driven.store.view(CREATOR)?;
            match entering(view) {
                None => shared(driven.alloc, view, progress.rooting),
                step => step,
            }
        }
    }
}

// Creates constant 0, protects it, and leaves.
fn shared(alloc: Global, view: &View, rooting: u32) -> Option<StoreStep> {
    if let Some(step) = next_step(view, 0) {
        return Some(step);
    }
    let Some(row) = row_noted(view) else {
        let content = constant(alloc, 0);
        return Some(StoreStep::LoadBucket { bucket: 0, content });
    };
    Some(match rooting {
        0 => StoreStep::StoreRoot { place: 0, row },
        1 => StoreStep::StoreRootCount(1),
        _ => StoreStep::Lock(LockStep::Lower),
    })
}

/// Take, ask, peek, and what the collector does in exclusive access.
pub(crate) fn collectors_next(driven: &Driven, progress: Progress) -> Option<StoreStep> {
    match phase_of(&driven.store, COLLECTOR) {
        Phase::Out if progress.gone => return None,
        Phase::Out => return Some(StoreStep::Lock(LockStep::Take)),
        _ => {}
    }
    match standing_of(&driven.store, CREATOR) {
        Standing::Free if progress.leaving => Some(StoreStep::Lock(LockStep::Give)),
        Standing::Free => Some(StoreStep::Lock(LockStep::Ask(CREATOR))),
        Standing::Asked => Some(StoreStep::Lock(LockStep::Peek(CREATOR))),
        _ => collects(driven.store.view(COLLECTOR)?),
    }
}

// Collects, and begins to leave.
fn collects(view: &View) -> Option<StoreStep> {
    if let Some(step) = entering(view) {
        return Some(step);
    }
    match &view.call {
        Call::Loading(loads) => load_or_store(loads),
        Call::Storing(loads, stores) => nth_store(loads, stores.len()),
        _ if view.fresh => Some(StoreStep::Lock(LockStep::Unask(CREATOR))),
        _ => Some(StoreStep::LoadAny(Place::Base)),
    }
}

// The loads that begin a granted access.
fn entering(view: &View) -> Option<StoreStep> {
    match view.stay {
        Stay::Away => Some(StoreStep::LoadBase),
        Stay::Based => Some(StoreStep::LoadInUse),
        _ => None,
    }
}

// The row that the seat's first creation gave.
fn row_noted(view: &View) -> Option<u32> {
    match view.entries.front() {
        Some(Entry::Make { row, .. } | Entry::Find { row, .. }) => Some(*row),
        _ => None,
    }
}

fn standing_of(store: &StoreState, seat: u32) -> Standing {
    if seat < store.lock().count() {
        store.lock().seat(seat).standing
    } else {
        Standing::Free
    }
}
