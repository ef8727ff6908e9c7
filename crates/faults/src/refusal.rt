//! Why and where an input is refused.

/// An input is refused: the kind, one of `kinds`, and the place, a byte counted from 0 or, of an
/// input of lines, a line counted from 1.
#[derive(Clone, Copy, Debug, PartialEq, Eq)]
pub struct Refusal {
    pub kind: u8,
    pub place: u64,
}
