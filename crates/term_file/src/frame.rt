//! Where a walk stands.

/// A record that is being visited, and how many of its arguments were visited.
#[derive(Clone, Copy)]
pub(crate) struct Frame {
    pub(crate) number: usize,
    pub(crate) done: usize,
}
