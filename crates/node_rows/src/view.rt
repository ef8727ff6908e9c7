//! What a seat knows.
use busy_forbidden::LockView;
use std::collections::LinkedList;
use store_model::{Sizes, View};
use term_model::Flat;

/// What is known of a seat that was joined into another: its number, what it knew of the store, and
/// its crowd.
pub struct JoinedSeat {
    pub seat: u32,
    pub store: View,
    pub crowd: LinkedList<Flat>,
}

/// What a seat knows of the lock and of the store. No value of it is made.
pub struct NodeView {
    pub lock: LockView,
    /// At the first seat, how many seats were split off.
    pub made: u32,
    pub sizes: Sizes,
    pub store: View,
    /// The crowd: the trees of the rows that its last collection kept, in the order of these.
    pub crowd: LinkedList<Flat>,
    /// The seats that were joined into this one, the last one first.
    pub joined: LinkedList<JoinedSeat>,
}
