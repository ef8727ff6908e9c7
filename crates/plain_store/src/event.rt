// What happens to a store.
use term_model::{Head, Row};

/// One thing that happens, for contracts alone.
#[derive(Clone, Copy)]
pub(crate) enum Event {
    /// The row has the tree of this head over the last places of the stack.
    Built(Head, u32, Row),
    /// The rows that couldn't be reached from the stack were freed.
    Swept,
    /// All rows could be reached from the stack, and another was asked for.
    Refused,
}
