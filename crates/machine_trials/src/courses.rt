//! What two seats do in turn, from a new store on.
use crate::driving::{Act, Driven, SMALL};
use crate::histories::is_sound;
use crate::programs::{collectors_next, creates, creators_next, leaves};
use faults::Memory;
use lock_core::LockStep;
use std::alloc::Global;
use store_model::{Sizes, StoreStep};

// Four rows, two buckets.
const WIDE: Sizes = Sizes {
    rows: 4,
    buckets: 2,
    start: 2,
    seats: 2,
    depth: 2,
    arity: 1,
    first: 1,
};

/// Two rows, one bucket, two seats, each with room for one protected row.
pub(crate) const TWO: Sizes = Sizes {
    rows: 2,
    buckets: 1,
    start: 1,
    seats: 2,
    depth: 1,
    arity: 1,
    first: 1,
};

pub(crate) const CREATOR: u32 = 0;

pub(crate) const COLLECTOR: u32 = 1;

/// What the two seats do.
#[derive(Clone, Copy)]
pub(crate) enum Play {
    /// Both have entered, and each creates a constant, given with its bucket of two.
    Creations((u32, u32), (u32, u32)),
    /// In one bucket, each has entered, loaded the head, drawn, and loaded its free place; it ends
    /// the creation of its constant, and leaves.
    Leaving(u32, u32),
    /// The collector has made constant 1 in row 0, protects nothing, and is out. The creator
    /// enters, creates constant 0, protects it and leaves, and the collector enters, collects and
    /// leaves.
    Sweeping,
}

/// How far the two programs of a sweep have come: how many stores of its protected rows the creator
/// has made, and whether it has left; whether the collector has begun to leave, and has left.
#[derive(Clone, Copy, Debug)]
pub(crate) struct Progress {
    pub(crate) rooting: u32,
    pub(crate) left: bool,
    pub(crate) leaving: bool,
    pub(crate) gone: bool,
}

/// A store, and how far the two seats have come.
#[derive(Drop)]
pub(crate) struct Course {
    pub(crate) driven: Driven,
    pub(crate) progress: Progress,
    pub(crate) play: Play,
}

// A store, and what comes before the first turn.
fn driven_for(alloc: Global, play: Play) -> Result<Driven, Memory> {
    match play {
        Play::Creations(_, _) => Driven::after(alloc, WIDE, &ENTERED),
        Play::Leaving(one, other) => Driven::after(
            alloc,
            SMALL,
            &[
                (0, Act::Enter),
                (1, Act::Enter),
                (0, Act::Begin(one)),
                (1, Act::Begin(other)),
                (0, Act::Go(4)),
                (1, Act::Go(4)),
            ],
        ),
        Play::Sweeping => Driven::after(alloc, TWO, &MADE),
    }
}

static ENTERED: [(u32, Act); 2] = [(0, Act::Enter), (1, Act::Enter)];

static MADE: [(u32, Act); 3] = [
    (COLLECTOR, Act::Enter),
    (COLLECTOR, Act::Make(1)),
    (COLLECTOR, Act::Lock(LockStep::Lower)),
];

/// A course before its first turn.
pub(crate) fn started(alloc: Global, play: Play) -> Result<Course, Memory> {
    Ok(Course {
        driven: driven_for(alloc, play)?,
        progress: Progress {
            rooting: 0,
            left: false,
            leaving: false,
            gone: false,
        },
        play,
    })
}

impl Course {
    /// A seat's next step; false, and none, where it has come to its end. In a sweep the entries of
    /// both have to be a legal history after it, and leave the set that the words show.
    pub(crate) fn turn(&mut self, seat: u32) -> Result<bool, Memory> {
        let Some(step) = self.next(seat) else {
            return Ok(false);
        };
        self.make(seat, step)?;
        if matches!(self.play, Play::Sweeping)
            && !is_sound(self.driven.alloc, &self.driven.store)?
        {
            self.driven.refuse();
        }
        Ok(true)
    }

    // Where the lock hasn't let a seat in, its load of the base is out of place: then it clears its
    // flag, and gives up. Any other step has to be in place.
    fn make(&mut self, seat: u32, step: StoreStep) -> Result<(), Memory> {
        if !matches!(step, StoreStep::LoadBase) {
            self.note(seat, &step);
            return self.driven.unlisted(seat, step);
        }
        if self.driven.store.apply(seat, step)? {
            return Ok(());
        }
        let flag = if seat == CREATOR {
            LockStep::Lower
        } else {
            LockStep::Unask(CREATOR)
        };
        let step = StoreStep::Lock(flag);
        self.note(seat, &step);
        self.driven.unlisted(seat, step)
    }

    // How far the programs have come with this step.
    fn note(&mut self, seat: u32, step: &StoreStep) {
        let progress = &mut self.progress;
        match step {
            StoreStep::StoreRoot { .. } | StoreStep::StoreRootCount(_) => {
                progress.rooting = progress.rooting.wrapping_add(1);
            }
            StoreStep::Lock(LockStep::Lower) if seat == CREATOR => progress.left = true,
            StoreStep::Lock(LockStep::Unask(_)) => progress.leaving = true,
            StoreStep::Lock(LockStep::Give) => progress.gone = true,
            _ => {}
        }
    }

    // A seat's next step; None at its end.
    fn next(&self, seat: u32) -> Option<StoreStep> {
        match self.play {
            Play::Creations(one, other) => {
                creates(&self.driven, seat, if seat == 0 { one } else { other })
            }
            Play::Leaving(_, _) => leaves(&self.driven, seat),
            Play::Sweeping if seat == CREATOR => creators_next(&self.driven, self.progress),
            Play::Sweeping => collectors_next(&self.driven, self.progress),
        }
    }
}
