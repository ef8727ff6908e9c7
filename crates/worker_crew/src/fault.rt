// Why the terms aren't all rewritten.

/// Why the terms aren't all rewritten. Of several causes the last of these is told.
#[derive(Clone, Copy, Debug, PartialEq, Eq)]
pub enum AllFault {
    /// Every row of a worker's store has a tree that is still protected.
    StoreFull,
    /// The numbers of a worker's store are used up.
    Worn,
    /// There is no memory.
    Memory,
}
