//! A memory of results of reductions.

ghost use Rattle.std.specs.Prelude.{◌≡◌, Option, None};
ghost use Rattle.term_model.specs.declared.Row.{Row as Rows};
ghost use Rattle.innermost.specs.Remembered.{Map, IsPartWith};

use term_model::Row;

/// The row of a value, how much fuel the reduction to it takes, and the least room in which it
/// does.
#[derive(Clone, Copy, Debug, PartialEq, Eq)]
pub struct Known {
    pub value: Row,
    pub fuel: u64,
    pub depth: u32,
}

/// A memory of the results of reductions, by the rows of the trees that are reduced. It may forget
/// at any `keep`.
pub trait Memo {
    /// What is remembered of each row.
    ghost map: { Self → Map };

    /// What is remembered of a row.
    fn find(&mut self, row: Row) -> Option<Known>
        ensures found { result ≡ map self.old row }
        ensures same { (other : Rows) → map self.new other ≡ map self.old other };

    /// Remembers a result, or doesn't, and may forget others.
    fn keep(&mut self, row: Row, known: Known)
        ensures part { IsPartWith (map self.old) row known (map self.new) };

    /// Forgets all.
    fn forget(&mut self)
        ensures empty { (row : Rows) → map self.new row ≡ None };
}

/// The memory that remembers nothing.
#[derive(Clone, Copy, Debug)]
pub struct NoMemo;

impl Memo for NoMemo {
    ghost map = { λ memo row. None };

    fn find(&mut self, _row: Row) -> Option<Known> {
        None
    }

    fn keep(&mut self, _row: Row, _known: Known) {}

    fn forget(&mut self) {}
}
