// The rows of a store, each tree of which is found by its hash.
ghost use Rattle.std.specs.Prelude.{◌≡◌, ◌+◌, ◌<◌, ◌≤◌, ◌^◌, Option, Some, None, IfOk, IfSome, IfNone, true, false, length, []};
ghost use Rattle.std.specs.Option.{option_map};
ghost use Rattle.plain_store.specs.Slots.{free_slots, slot_at, children, with_slot, some_count, HasNone, IsFull, AreSwept, FreesRow};
ghost use Rattle.plain_store.specs.Index.{HasRoom, IsFront, IsIndexed, IsIndexedTo};
ghost use Rattle.plain_store.specs.Hash.{hash};
ghost use Rattle.plain_store.specs.Looks.{Looks};

use crate::adding::{add, make_places};
use crate::hashing::hash_pair;
use crate::index::{Index, VACANT};
use crate::pairs::pair_of;
use crate::table::Table;
use faults::Memory;
use mark_phase::{Graph, Marks};
use std::alloc::Global;
use std::marker::Model;
use term_model::{Head, Row};

/// Rows with room for so many arguments each. Contracts see what each row has.
#[derive(Drop)]
pub(crate) struct Nodes {
    table: Table,
    index: Index,
    // how many rows were ever in use: they are the first
    fresh: u32,
}

impl Model for Nodes {
    ghost use Rattle.plain_store.specs.Slots.{Slots};
    ghost use Rattle.plain_store.specs.Index.{IsIndexedTo};

    ghost Value = { Slots };

    ghost view = { λ s. s.table };

    ghost invariant = { λ s. IsIndexedTo s.fresh s.table.slots s.index };
}

/// What a look at the place of a hash tells.
pub(crate) enum Look {
    /// This row is the one.
    Found(Row),
    /// The row isn't there, by the hash of what was looked for.
    Missed(u64),
    /// There are more than two arguments, and none was looked at.
    Many,
}

// Gives the last of the freed rows a head and arguments, if there is one.
fn reuse(
    table: &mut Table,
    index: &mut Index,
    fresh: u32,
    head: Head,
    arguments: &[Row],
    hashed: u64,
) -> Option<Row>
    requires room { length arguments.now ≤ table.old.widest }
    requires hashed { hashed ≡ hash head arguments.now }
    requires indexed { IsIndexedTo fresh table.old.slots index.old }
    ensures free { IfSome result (λ row. slot_at table.old row ≡ None) }
    ensures below { IfSome result (λ row. row.0 < length table.old.slots) }
    ensures made { IfSome result
        (λ row. table.new ≡ with_slot table.old row (Some (head, arguments.now))) }
    ensures none { IfNone result (index.old.free ≡ []) }
    ensures unchanged { IfNone result ((table.new ≡ table.old) × (index.new ≡ index.old)) }
    ensures indexed { IsIndexedTo fresh table.new.slots index.new }
{
    let row = index.take_free()?;
    table.set(row, head, arguments);
    index.link(hashed, row);
    Some(row)
}

// Gives the first row that was never in use a head and arguments, if there is one.
fn take_fresh(
    table: &mut Table,
    index: &mut Index,
    fresh: &mut u32,
    head: Head,
    arguments: &[Row],
    hashed: u64,
) -> Option<Row>
    requires room { length arguments.now ≤ table.old.widest }
    requires hashed { hashed ≡ hash head arguments.now }
    requires none { index.old.free ≡ [] }
    requires indexed { IsIndexedTo fresh.old table.old.slots index.old }
    ensures free { IfSome result (λ row. slot_at table.old row ≡ None) }
    ensures below { IfSome result (λ row. row.0 < length table.old.slots) }
    ensures made { IfSome result
        (λ row. table.new ≡ with_slot table.old row (Some (head, arguments.now))) }
    ensures full { IfNone result (IsFull table.old) }
    ensures unchanged { IfNone result (table.new ≡ table.old) }
    ensures indexed { IsIndexedTo fresh.new table.new.slots index.new }
{
    let row = Row(*fresh);
    if row.0 == table.len() {
        return None;
    }
    make_places(table, index, row.0);
    table.set(row, head, arguments);
    index.link(hashed, row);
    *fresh += 1;
    Some(row)
}

// Frees the rows that aren't marked, of those that were ever in use, puts the others where they are
// looked for, and says whether there were any to free.
fn sweep_rows(table: &mut Table, index: &mut Index, fresh: u32, marks: &Marks) -> bool
    requires marks { length marks.now ≡ length table.old.slots }
    requires room { HasRoom index.old (length table.old.slots) }
    requires places { fresh < length index.old.words }
    requires front { IsFront fresh table.old.slots }
    requires none { IsIndexed [] index.old }
    ensures swept { AreSwept marks.now table.old table.new }
    ensures none { result ≡ false → table.new ≡ table.old }
    ensures some { result ≡ true → FreesRow table.old table.new }
    ensures indexed { IsIndexedTo fresh table.new.slots index.new }
{
    let mut lost = false;
    for i in 0..fresh {
        let kept = marks.has(Row(i));
        let freed = table.keep_if(Row(i), kept);
        add(table, index, Row(i));
        lost = lost || freed;
    }
    lost
}

// How many rows are in use.
fn count_used(table: &Table) -> u32
    ensures { result ≡ some_count table.now.slots }
{
    let mut used: u32 = 0;
    for i in 0..table.len() {
        if table.head(Row(i)).is_some() {
            used += 1;
        }
    }
    used
}

impl Nodes {
    /// So many free rows. All their memory is taken here.
    pub(crate) fn new(alloc: Global, rows: u32, widest: u32) -> Result<Nodes, Memory>
        ensures { IfOk result (λ nodes. nodes ≡ free_slots rows widest) }
    {
        let table = Table::new(alloc, rows, widest)?;
        let index = Index::new(alloc, rows)?;
        Ok(Nodes {
            table,
            index,
            fresh: 0,
        })
    }

    /// Looks for the row that has this head over these rows at the place of their hash, if they are
    /// at most two. Most rows are found so.
    #[inline(always)]
    pub(crate) fn find_first(&self, head: Head, arguments: &[Row]) -> Look
        ensures { Looks self.now head arguments.now result }
    {
        let Some(pair) = pair_of(arguments) else {
            return Look::Many;
        };
        let hashed = hash_pair(head, pair);
        let word = self.index.word(self.index.home(hashed));
        let row = Row(word.wrapping_sub(self.index.tag(hashed)));
        if !self.table.is_pair(row, head, pair, arguments.len() as u32) {
            return Look::Missed(hashed);
        }
        Look::Found(row)
    }

    /// The row that has this head over these rows, of this hash.
    pub(crate) fn find(&self, head: Head, arguments: &[Row], hashed: u64) -> Option<Row>
        requires hashed { hashed ≡ hash head arguments.now }
        ensures found { IfSome result (λ row. slot_at self.now row ≡ Some (head, arguments.now)) }
        ensures absent { IfNone result (HasNone self.now (Some (head, arguments.now))) }
    {
        let tag = self.index.tag(hashed);
        let mut place = self.index.home(hashed);
        for passed in 0..self.index.len() {
            let _ = passed;
            let word = self.index.word(place);
            if word == VACANT {
                return None;
            }
            let row = Row(word.wrapping_sub(tag));
            if self.table.is(row, head, arguments) {
                return Some(row);
            }
            place = self.index.after(place);
        }
        None
    }

    /// Gives a free row a head and arguments, of this hash, if there is one.
    pub(crate) fn make(&mut self, head: Head, arguments: &[Row], hashed: u64) -> Option<Row>
        requires room { length arguments.now ≤ self.old.widest }
        requires hashed { hashed ≡ hash head arguments.now }
        ensures free { IfSome result (λ row. slot_at self.old row ≡ None) }
        ensures below { IfSome result (λ row. row.0 < length self.old.slots) }
        ensures made { IfSome result
            (λ row. self.new ≡ with_slot self.old row (Some (head, arguments.now))) }
        ensures full { IfNone result (IsFull self.old) }
        ensures unchanged { IfNone result (self.new ≡ self.old) }
    {
        let made = reuse(
            &mut self.table,
            &mut self.index,
            self.fresh,
            head,
            arguments,
            hashed,
        );
        if let Some(row) = made {
            return Some(row);
        }
        take_fresh(
            &mut self.table,
            &mut self.index,
            &mut self.fresh,
            head,
            arguments,
            hashed,
        )
    }

    /// Frees the rows that aren't marked, and says whether there were any.
    pub(crate) fn sweep(&mut self, marks: &Marks) -> bool
        requires { length marks.now ≡ length self.old.slots }
        ensures swept { AreSwept marks.now self.old self.new }
        ensures none { result ≡ false → self.new ≡ self.old }
        ensures some { result ≡ true → FreesRow self.old self.new }
    {
        self.index.clear();
        sweep_rows(&mut self.table, &mut self.index, self.fresh, marks)
    }

    /// How many rows are in use.
    pub(crate) fn used(&self) -> u32
        ensures { result ≡ some_count self.now.slots }
    {
        if self.index.has_free() {
            count_used(&self.table)
        } else {
            self.fresh
        }
    }

    /// The head of a row, which a free row doesn't have.
    pub(crate) fn head(&self, row: Row) -> Option<Head>
        requires { row.0 < length self.now.slots }
        ensures { result ≡ option_map (λ n. n.0) (slot_at self.now row) }
    {
        self.table.head(row)
    }

    /// The rows of a row's arguments, none of a free row.
    pub(crate) fn arguments(&self, row: Row) -> &[Row]
        requires { row.0 < length self.now.slots }
        ensures arguments { result.now ≡ children self.now row }
        ensures fits { length result.now < 2 ^ 32 }
    {
        self.table.arguments(row)
    }
}

impl Graph for Nodes {
    ghost use Rattle.std.specs.Prelude.{◌≡◌, ◌<◌, length, refl};
    ghost use Rattle.std.proofs.Common.{◌∙◌, ap, subst, sym};
    ghost use Rattle.term_model.specs.declared.Row.{Row};
    ghost use Rattle.plain_store.specs.Slots.{Slots, children};

    ghost children = { children };

    ghost may_read = { λ g r. r.0 < length g.slots };

    ghost same = { λ g h. h ≡ g };

    ghost same_as_itself = { λ g. refl };

    ghost same_in_turn = { λ g h i e f. f ∙ e };

    ghost same_children = { λ g h e r. ap (λ (s : Slots). children s r) e };

    ghost same_reading = { λ g h e r may. subst (λ (s : Slots). r.0 < length s.slots) (sym e) may };

    fn count(&mut self, row: Row) -> u32 {
        self.arguments(row).len() as u32
    }

    fn child(&mut self, row: Row, j: u32) -> Row {
        self.arguments(row)[j as usize]
    }
}
