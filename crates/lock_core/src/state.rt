// The lock as a value.
ghost use Rattle.std.specs.Prelude.{◌≡◌, ◌<◌, ◌≤◌, length, set};
ghost use Rattle.lock_core.specs.Lock.{at_start, seat_of, with_seat};

use crate::parts::{Phase, SeatState, Standing};
use std::marker::Model;

/// A lock of 1 to 16 seats. Contracts see it as plain data: who has the mutex, and the seats in
/// order.
#[derive(Drop)]
pub struct LockState {
    count: u32,
    mutex: Option<u32>,
    seats: [SeatState; 16],
}

impl Model for LockState {
    ghost use Rattle.std.specs.Prelude.{◌≤◌, length, take};
    ghost use Rattle.lock_core.specs.Lock.{Lock};

    ghost Value = { Lock };

    ghost view = { λ s. record { mutex = s.mutex; seats = take s.count s.seats } };

    ghost invariant = { λ s. (s.count ≤ 16) × (s.count ≤ length s.seats) };
}

const IDLE: SeatState = SeatState {
    phase: Phase::Out,
    busy: false,
    forbidden: false,
    standing: Standing::Free,
};

impl LockState {
    /// The lock at the start: every seat is out and free, all flags are clear, and the mutex is
    /// free.
    pub fn new(seats: u32) -> LockState
        requires { (1 ≤ seats) × (seats ≤ 16) }
        ensures { result ≡ at_start seats }
    {
        LockState {
            count: seats,
            mutex: None,
            seats: [IDLE; 16],
        }
    }

    /// The number of seats.
    pub fn count(&self) -> u32
        ensures { result ≡ length self.now.seats }
    {
        self.count
    }

    /// The seat that has the mutex.
    pub fn mutex(&self) -> Option<u32>
        ensures { result ≡ self.now.mutex }
    {
        self.mutex
    }

    /// Seat i.
    pub fn seat(&self, i: u32) -> SeatState
        requires { i < length self.now.seats }
        ensures { result ≡ seat_of self.now i }
    {
        self.seats[i as usize]
    }

    // The same lock with another mutex and another seat i.
    pub(crate) fn changed(&self, mutex: Option<u32>, i: u32, seat: SeatState) -> LockState
        requires { i < length self.now.seats }
        ensures { result ≡ record { mutex = mutex; seats = set self.now.seats i seat } }
    {
        let mut seats = self.seats;
        seats[i as usize] = seat;
        LockState {
            count: self.count,
            mutex,
            seats,
        }
    }

    // The same lock with another seat i.
    pub(crate) fn with_seat(&self, i: u32, seat: SeatState) -> LockState
        requires { i < length self.now.seats }
        ensures { result ≡ with_seat self.now i seat }
    {
        self.changed(self.mutex, i, seat)
    }
}
