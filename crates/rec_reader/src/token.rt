//! What the bytes are cut into.
ghost use Rattle.std.specs.Prelude.{◌≡◌};
ghost use Rattle.rec_reader.specs.Refusal.{place_of};
ghost use Rattle.rec_reader.specs.Few.{IsShort};

use std::marker::Model;

/// A name of the input: its bytes stand from `start` up to `end`, places in bytes from 0.
#[derive(Clone, Copy, Debug, PartialEq, Eq)]
pub struct Name {
    pub start: usize,
    pub end: usize,
}

/// A reserved word or a mark.
#[derive(Clone, Copy, Debug, PartialEq, Eq)]
pub enum Sign {
    RecSpec,
    Sorts,
    Cons,
    Opns,
    Vars,
    Rules,
    Eval,
    EndSpec,
    If,
    AndIf,
    /// `-><-`
    Joins,
    /// `->/<-`
    Parts,
    /// `->`
    Arrow,
    Colon,
    Comma,
    Open,
    Close,
    /// `=`
    Equal,
    /// `<>`
    Unequal,
}

/// A name, or a sign with its place in bytes from 0.
#[derive(Clone, Copy, Debug, PartialEq, Eq)]
pub enum Token {
    Named(Name),
    At(Sign, usize),
}

impl Token {
    /// The place of its first byte.
    pub fn place(&self) -> usize
        ensures { result ≡ place_of self.now }
    {
        match *self {
            Token::Named(name) => name.start,
            Token::At(_, at) => at,
        }
    }
}

/// The tokens of an input, which they borrow: in its bytes the names stand.
#[derive(Drop)]
pub struct Tokens<'a> {
    pub(crate) text: &'a [u8],
    pub(crate) items: Vec<Token>,
}

impl<'a> Model for Tokens<'a> {
    ghost use Rattle.rec_reader.specs.Scanned.{Scanned};

    ghost Value = { Scanned };

    ghost use Rattle.rec_reader.specs.Few.{IsShort};

    ghost view = { λ t. record { bytes = t.text.now; tokens = t.items.items } };

    ghost invariant = { λ t. IsShort t.text.now t.items.items };
}

impl<'a> Tokens<'a> {
    /// The input's bytes.
    pub fn text(&self) -> &'a [u8]
        ensures { result.now ≡ self.now.bytes }
    {
        self.text
    }

    /// The tokens in order. They are at most as many as the bytes, which are fewer than 2^32.
    pub fn as_slice(&self) -> &[Token]
        ensures tokens { result.now ≡ self.now.tokens }
        ensures short { IsShort self.now.bytes self.now.tokens }
    {
        self.items.as_slice()
    }
}
