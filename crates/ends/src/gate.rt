// What is told round each term.

/// Is told when the work on a term begins and when it has ended. It is shared by all threads of a
/// run, and decides nothing: whatever it does, the answers are the same.
pub trait Gate: Sync {
    /// The work on the term with this number, from 0, is about to begin.
    fn before(&self, term: u32);

    /// The work on the term with this number has ended.
    fn after(&self, term: u32);
}

/// The gate that does nothing.
#[derive(Clone, Copy, Debug)]
pub struct OpenGate;

impl Gate for OpenGate {
    fn before(&self, _term: u32) {}

    fn after(&self, _term: u32) {}
}
