// The lines of the terms, and the events that lead to their values.
use line_ends::LineKind;
use rewrite_model::Event;

/// The line of a term.
#[derive(Drop)]
pub struct Line {
    /// What the line has.
    pub kind: LineKind,
    /// Its text, without the end of the line.
    pub text: Vec<u8>,
    /// The fuel that a value took, and 0 at any other kind of line.
    pub spent: u64,
    /// The worker that drew the term, from 0.
    pub worker: u32,
}

/// The lines of all terms, one for each term, in the order of the terms.
#[derive(Drop)]
pub struct Lines {
    pub list: Vec<Line>,
    /// Beside each line the events that lead to its value, where they are asked; else none.
    pub traces: Vec<Vec<Event>>,
}

/// The line of a term, and the events that lead to its value.
#[derive(Drop)]
pub struct Traced {
    pub line: Line,
    pub events: Vec<Event>,
}
