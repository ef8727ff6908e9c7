//! What a seat sees of a store, and what a step of it changes.
ghost use Rattle.std.specs.Prelude.{◌≡◌};

use crate::machine::table::Table;
use lock_core::LockState;
use store_model::{Place, View};

/// What one seat sees: the words, the lock, and its own view.
#[derive(Drop)]
pub(crate) struct Sight<'a> {
    pub(crate) table: &'a Table,
    pub(crate) lock: &'a LockState,
    pub(crate) view: &'a View,
    pub(crate) seat: u32,
}

/// What a step changes beside the own view: the lock, and one word.
#[derive(Drop)]
pub(crate) struct Change {
    pub(crate) lock: Option<LockState>,
    pub(crate) stored: Option<(Place, u64)>,
}

impl Change {
    /// Nothing beside the own view.
    pub(crate) fn of_nothing() -> Change
        ensures { result ≡ record { lock = None; stored = None } }
    {
        Change {
            lock: None,
            stored: None,
        }
    }

    /// A word.
    pub(crate) fn of_word(place: Place, word: u64) -> Change
        ensures { result ≡ record { lock = None; stored = Some (place, word) } }
    {
        Change {
            lock: None,
            stored: Some((place, word)),
        }
    }

    /// The lock.
    pub(crate) fn of_lock(lock: LockState) -> Change
        ensures { result ≡ record { lock = Some lock; stored = None } }
    {
        Change {
            lock: Some(lock),
            stored: None,
        }
    }
}
