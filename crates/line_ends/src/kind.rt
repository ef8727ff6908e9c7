// What a line has.

/// What a line has.
#[derive(Clone, Copy, Debug, PartialEq, Eq)]
pub enum LineKind {
    /// The text of a value, or its sizes.
    Value,
    /// `out of fuel`.
    OutOfFuel,
    /// `too deep`.
    TooDeep,
    /// `too large`: the text of the value would be.
    TooLarge,
}
