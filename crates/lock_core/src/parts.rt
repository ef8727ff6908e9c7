// What the machine is made of.

/// Where a seat is with respect to the lock.
#[derive(Clone, Copy, Debug, PartialEq, Eq)]
pub enum Phase {
    /// In no access, and asking for none.
    Out,
    /// Busy is set, and the seat has not looked yet.
    Raised,
    /// In shared access.
    Shared,
    /// Busy is set, but the seat found itself forbidden.
    Blocked,
    /// It has the mutex.
    Holder,
}

/// How a seat stands with the holder of the mutex.
#[derive(Clone, Copy, Debug, PartialEq, Eq)]
pub enum Standing {
    /// Not asked.
    Free,
    /// Its forbidden flag is set, and its busy flag was not read yet.
    Asked,
    /// It was asked, and its busy flag was read as set.
    Seen,
    /// It was asked, and its busy flag was read as clear.
    Held,
}

/// One atomic step of a seat. `Ask`, `Peek` and `Unask` name another seat.
#[derive(Clone, Copy, Debug, PartialEq, Eq)]
pub enum LockStep {
    /// Sets the own busy flag.
    Raise,
    /// Reads the own forbidden flag: the seat is then blocked or shared.
    Look,
    /// Clears the own busy flag.
    Lower,
    /// Takes the mutex, where it is free.
    Take,
    /// Sets a seat's forbidden flag.
    Ask(u32),
    /// Reads an asked seat's busy flag: that seat is then seen or held.
    Peek(u32),
    /// Clears a seat's forbidden flag.
    Unask(u32),
    /// Gives the mutex back.
    Give,
}

/// A seat: its phase, its two flags, and how it stands with the holder.
#[derive(Clone, Copy, Debug, PartialEq, Eq)]
pub struct SeatState {
    pub phase: Phase,
    pub busy: bool,
    pub forbidden: bool,
    pub standing: Standing,
}
