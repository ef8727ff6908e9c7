//! One record of a file.

/// What stands at the root of a record: a symbol by its number, an integer, the empty list or a
/// cell.
#[derive(Clone, Copy, Debug, PartialEq, Eq, Hash)]
pub enum Kind {
    Call(u32),
    Integer(u64),
    Empty,
    Cell,
}

/// A head over records, which are given by their numbers.
#[derive(Debug, PartialEq, Eq, Hash, Drop)]
pub struct Record {
    pub kind: Kind,
    pub arguments: Vec<u32>,
}
