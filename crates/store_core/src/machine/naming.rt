//! The rows that a seat may name.
ghost use Rattle.std.specs.Prelude.{◌≡◌, ◌↔◌, ◌<◌, ℕ, List, [], ◌∷◌, false, get_or, IfOk, OnOk, replicate};
ghost use Rattle.store_model.specs.declared.view.Place.TheVariants.{RootCount, Root};
ghost use Rattle.store_model.specs.Machine.{Each, MayName};
ghost use Rattle.store_model.specs.Shown.{shown};
ghost use Rattle.store_core.specs.Naming.{IsMarked, Halfway, Visits};

use crate::machine::moves::narrow;
use crate::machine::rows::rows_of;
use crate::machine::table::Table;
use faults::Memory;
use std::alloc::Global;
use store_model::{Place, View};

/// Marked rows, and those of them whose arguments are still to be marked.
#[derive(Drop)]
pub(crate) struct Naming {
    marks: Vec<bool>,
    waiting: Vec<u32>,
}

/// The rows that a seat may name, marked.
pub(crate) fn named_rows(table: &Table, seat: u32, view: &View) -> Result<Vec<bool>, Memory>
    ensures { IfOk result
        (λ marks. (r : ℕ)
        → IsMarked marks.items r
        ↔ MayName (shown table.now.sizes table.now.words.items) seat view.now r) }
{
    let alloc = *view.got.allocator();
    let mut naming = Naming::new(alloc, table.sizes.rows)?;
    naming.mark_got(table, seat, view)?;
    naming.mark_protected(table, seat, view)?;
    while let Some(row) = naming.waiting.pop() {
        naming.mark_arguments(table, seat, view, row)?;
    }
    Ok(naming.marks)
}

/// Whether a row is marked.
pub(crate) fn is_named(marks: &[bool], row: u64) -> bool
    ensures { result ≡ get_or marks.now row false }
{
    if row < marks.len() as u64 {
        marks[row as usize]
    } else {
        false
    }
}

fn no_marks(alloc: Global, rows: u32) -> Result<Vec<bool>, Memory>
    ensures { IfOk result (λ marks. marks.items ≡ replicate rows false) }
{
    Ok(vec![in alloc; false; rows as usize]?)
}

impl Naming {
    fn new(alloc: Global, rows: u32) -> Result<Naming, Memory>
        ensures marks { IfOk result (λ n. (r : ℕ) → IsMarked n.marks.items r → ⊥) }
        ensures waiting { IfOk result (λ n. n.waiting.items ≡ []) }
    {
        let marks = no_marks(alloc, rows)?;
        Ok(Naming {
            marks,
            waiting: Vec::new(alloc),
        })
    }

    // Marks a row, and lets it wait, unless it is marked.
    fn visit(&mut self, table: &Table, seat: u32, view: &View, row: u64) -> Result<(), Memory>
        requires { MayName (shown table.now.sizes table.now.words.items) seat view.now row }
        ensures marked { OnOk result (IsMarked self.new.marks.items row) }
        ensures visits { OnOk result
            (Visits self.old.marks.items self.new.marks.items self.old.waiting.items
            self.new.waiting.items) }
        ensures halfway { OnOk result ((here : List ℕ)
            → Halfway (shown table.now.sizes table.now.words.items) seat view.now
            self.old.marks.items self.old.waiting.items here
            → Halfway (shown table.now.sizes table.now.words.items) seat view.now
            self.new.marks.items self.new.waiting.items here) }
    {
        let row = narrow(row)?;
        if row as usize >= self.marks.len() {
            return Err(Memory);
        }
        if self.marks[row as usize] {
            return Ok(());
        }
        self.marks[row as usize] = true;
        self.waiting.push(row)?;
        Ok(())
    }

    // Marks the rows that the seat got.
    #[tactic(auto, using(crate::proofs::Naming::each_marked))]
    fn mark_got(&mut self, table: &Table, seat: u32, view: &View) -> Result<(), Memory>
        ensures marked { OnOk result (Each (IsMarked self.new.marks.items) view.now.got) }
        ensures halfway { OnOk result
            (Halfway (shown table.now.sizes table.now.words.items) seat view.now
            self.old.marks.items self.old.waiting.items []
            → Halfway (shown table.now.sizes table.now.words.items) seat view.now
            self.new.marks.items self.new.waiting.items []) }
    {
        let rows = rows_of(&view.got)?;
        for k in 0..rows.len() {
            self.visit(table, seat, view, u64::from(rows[k]))?;
        }
        Ok(())
    }

    // Marks the rows that the seat has protected.
    fn mark_protected(&mut self, table: &Table, seat: u32, view: &View) -> Result<(), Memory>
        ensures kept { OnOk result ((r : ℕ) → IsMarked self.old.marks.items r
            → IsMarked self.new.marks.items r) }
        ensures marked { OnOk result ((k : ℕ)
            → k < shown table.now.sizes table.now.words.items (RootCount seat)
            → IsMarked self.new.marks.items
            (shown table.now.sizes table.now.words.items (Root seat k))) }
        ensures halfway { OnOk result
            (Halfway (shown table.now.sizes table.now.words.items) seat view.now
            self.old.marks.items self.old.waiting.items []
            → Halfway (shown table.now.sizes table.now.words.items) seat view.now
            self.new.marks.items self.new.waiting.items []) }
    {
        let count = narrow(table.load(&Place::RootCount(seat)))?;
        for k in 0..count {
            let row = table.load(&Place::Root(seat, k));
            self.visit(table, seat, view, row)?;
        }
        Ok(())
    }

    // Marks the arguments of a row.
    fn mark_arguments(
        &mut self,
        table: &Table,
        seat: u32,
        view: &View,
        row: u32,
    ) -> Result<(), Memory>
        requires { MayName (shown table.now.sizes table.now.words.items) seat view.now row }
        ensures visits { OnOk result
            (Visits self.old.marks.items self.new.marks.items self.old.waiting.items
            self.new.waiting.items) }
        ensures halfway { OnOk result
            (Halfway (shown table.now.sizes table.now.words.items) seat view.now
            self.old.marks.items self.old.waiting.items (row ∷ [])
            → Halfway (shown table.now.sizes table.now.words.items) seat view.now
            self.new.marks.items self.new.waiting.items []) }
    {
        let count = narrow(table.load(&Place::RowWord(row, 1)))?;
        if count > u32::MAX - 2 {
            return Err(Memory);
        }
        for k in 0..count {
            let argument = table.load(&Place::RowWord(row, k + 2));
            self.visit(table, seat, view, argument)?;
        }
        Ok(())
    }
}
