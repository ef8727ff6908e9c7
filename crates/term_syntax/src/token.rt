//! What term text is cut into.

/// What stands between names and numbers.
#[derive(Clone, Copy, Debug, PartialEq, Eq)]
pub enum Mark {
    Open,
    Close,
    OpenList,
    CloseList,
    Comma,
}

/// What a token is: a plain name, a name in quotes, a number or a mark. What it says stands in the
/// text.
#[derive(Clone, Copy)]
pub enum Shape {
    Word,
    Quoted,
    Number,
    At(Mark),
}

/// A token: its shape, and the place of its first byte, in bytes from 0.
#[derive(Clone, Copy)]
pub struct Token {
    pub shape: Shape,
    pub place: usize,
}
