//! Events of a derivation.

/// A move of a cursor that begins at the root of a term, or a replacement where the cursor stands.
#[derive(Clone, Copy, Debug, PartialEq, Eq)]
pub enum Event {
    /// To an argument, the first being 1.
    Down(u32),
    /// To the position above.
    Up,
    /// The rule with this number, the first being 0, replaces the tree at the cursor.
    Rule(u32),
}
