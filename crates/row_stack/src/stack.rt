//! A stack of rows whose places were all taken before.
ghost use Rattle.std.specs.Prelude.{◌≡◌, ◌+◌, ◌-◌, ◌<◌, ◌≤◌, ◌++◌, [], ◌∷◌, Some, IfOk, length, slice_get, take};
ghost use Rattle.terms_api.specs.Terms.{last, but_last};

use faults::Memory;
use std::alloc::Global;
use std::marker::Model;
use term_model::Row;

/// A stack of rows with so many places. Contracts see the rows of those in use.
#[derive(Drop)]
pub struct Stack {
    rows: Vec<Row>,
    used: usize,
}

impl Model for Stack {
    ghost use Rattle.std.specs.Prelude.{◌≤◌, length, take};
    ghost use Rattle.row_stack.specs.Places.{Places};

    ghost Value = { Places };

    ghost view = { λ s. record { items = take s.used s.rows.items; room = length s.rows.items } };

    ghost invariant = { λ s. s.used ≤ length s.rows.items };
}

impl Stack {
    /// So many places, none of them in use.
    pub fn new(alloc: Global, room: u32) -> Result<Stack, Memory>
        ensures empty { IfOk result (λ stack. stack.items ≡ []) }
        ensures room { IfOk result (λ stack. stack.room ≡ room) }
    {
        Ok(Stack {
            rows: vec![in alloc; Row(0); room as usize]?,
            used: 0,
        })
    }

    /// How many places are in use.
    pub fn len(&self) -> usize
        ensures length { result ≡ length self.now.items }
        ensures room { result ≤ self.now.room }
    {
        self.used
    }

    /// The row at a place, the lowest being 0.
    pub fn at(&self, place: usize) -> Row
        requires { place < length self.now.items }
        ensures { slice_get self.now.items place ≡ Some result }
    {
        self.rows[place]
    }

    /// The rows of the places in use.
    pub fn rows(&self) -> &[Row]
        ensures { result.now ≡ self.now.items }
    {
        &self.rows[..self.used]
    }

    /// The rows of the last `n`.
    pub fn last(&self, n: usize) -> &[Row]
        requires { n ≤ length self.now.items }
        ensures { result.now ≡ last n self.now.items }
    {
        &self.rows[self.used - n..self.used]
    }

    /// Puts a row in the place of the last `n`.
    pub fn put(&mut self, n: usize, row: Row)
        requires some { n ≤ length self.old.items }
        requires room { length self.old.items - n < self.old.room }
        ensures items { self.new.items ≡ but_last n self.old.items ++ row ∷ [] }
        ensures room { self.new.room ≡ self.old.room }
    {
        let at = self.used - n;
        self.rows[at] = row;
        self.used = at + 1;
    }

    /// Puts rows on top, one after another.
    pub fn put_all(&mut self, rows: &[Row])
        requires room { length self.old.items + length rows.now ≤ self.old.room }
        ensures items { self.new.items ≡ self.old.items ++ rows.now }
        ensures room { self.new.room ≡ self.old.room }
    {
        for row in rows {
            self.put(0, *row);
        }
    }

    /// Leaves the lowest `from` places and the last `top`.
    pub fn keep_ends(&mut self, from: usize, top: usize)
        requires { from + top ≤ length self.old.items }
        ensures items { self.new.items ≡ take from self.old.items ++ last top self.old.items }
        ensures room { self.new.room ≡ self.old.room }
    {
        self.used = self.move_last(from, top);
    }

    /// Writes the last `top` rows from a place on, and says which place is behind them.
    fn move_last(&mut self, from: usize, top: usize) -> usize
        requires { from + top ≤ length self.old.items }
        ensures items { take (from + top) self.new.items
            ≡ take from self.old.items ++ last top self.old.items }
        ensures behind { result ≡ from + top }
        ensures len { length self.new.items ≡ length self.old.items }
        ensures room { self.new.room ≡ self.old.room }
    {
        let last = self.used - top;
        let behind = from + top;
        match top {
            0 => {}
            1 => self.rows[from] = self.rows[last],
            _ => self.rows.copy_within(last..self.used, from),
        }
        behind
    }
}
