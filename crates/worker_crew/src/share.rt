// What a worker has of its own.
use crate::{Seat, Traced};
use line_ends::LineStop;

/// The line of a term with its events, and with the term's number.
#[derive(Drop)]
pub struct Numbered {
    pub number: u32,
    pub line: Traced,
}

/// What a worker has of its own: its number, its seat in the draws, the lines that it made, in
/// order, and how it ended.
#[derive(Drop)]
pub struct Share {
    pub worker: u32,
    pub seat: Seat,
    pub lines: Vec<Numbered>,
    pub end: Result<(), LineStop>,
}
