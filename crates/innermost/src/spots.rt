//! The way to the position that is tried.

use term_model::Row;

/// A tree that no rule matches, with a number of arguments that were begun, in a room. All of them
/// stay the same but for the last one, which is on the way to the next spot.
#[derive(Clone, Copy)]
pub(crate) struct Spot {
    pub row: Row,
    pub argument: u32,
    pub room: u32,
}

/// What a walk came to.
#[derive(Clone, Copy)]
pub(crate) enum Walk {
    /// It goes on with the next argument of the last spot.
    On,
    /// No rule matches anywhere.
    Same,
    /// An argument has no room.
    TooDeep,
    /// A rule matches, in a room.
    Found(u32, u32),
}
