// Which rows are marked.
ghost use Rattle.std.specs.Prelude.{◌≡◌, ◌↔◌, ◌<◌, IfOk, IsTrue, false, length, replicate};
ghost use Rattle.mark_phase.specs.Reachable.{IsMarked};

use faults::Memory;
use std::alloc::Global;
use std::marker::Model;
use term_model::Row;

/// A mark for each of so many rows, and the room that marking needs. Contracts see the marks.
#[derive(Drop)]
pub struct Marks {
    pub(crate) marked: Vec<bool>,
    pub(crate) waiting: Vec<Row>,
}

impl Model for Marks {
    ghost use Rattle.std.specs.Prelude.{◌≡◌, Bool, List, length};

    ghost Value = { List Bool };

    ghost view = { λ m. m.marked.items };

    ghost invariant = { λ m. length m.waiting.items ≡ length m.marked.items };
}

impl Marks {
    /// No mark at any of so many rows. All the memory that marking needs is taken here.
    pub fn new(alloc: Global, rows: u32) -> Result<Marks, Memory>
        ensures { IfOk result (λ marks. marks ≡ replicate rows false) }
    {
        let marked = vec![in alloc; false; rows as usize]?;
        let waiting = vec![in alloc; Row(0); rows as usize]?;
        Ok(Marks { marked, waiting })
    }

    /// Whether a row is marked.
    pub fn has(&self, row: Row) -> bool
        requires { row.0 < length self.now }
        ensures { IsTrue result ↔ IsMarked self.now row }
    {
        self.marked[row.0 as usize]
    }

    /// Takes every mark away.
    pub fn clear(&mut self)
        ensures { self.new ≡ replicate (length self.old) false }
    {
        self.marked.fill(false);
    }
}
