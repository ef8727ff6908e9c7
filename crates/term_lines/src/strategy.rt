// How terms are rewritten.

/// Which position of a term is rewritten first, of those that a rule matches.
#[derive(Clone, Copy, Debug, PartialEq, Eq)]
pub enum Strategy {
    /// The leftmost one whose arguments have none.
    Innermost,
    /// The leftmost one of those that are in no other.
    Outermost,
}
