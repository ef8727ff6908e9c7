//! The term set of one thread as a program keeps it, which tells of each entry whether it is a
//! step.

ghost use Rattle.std.specs.Prelude.{◌≡◌, ◌<◌, ◌↔◌, ℕ, [], Some, None, IfOk, OnErr, IsTrue, length, replicate};
ghost use Rattle.history_core.specs.Entry.{Entry};
ghost use Rattle.history_core.specs.declared.entry.Entry.TheVariants.{Make, Find, Roots, Collect};
ghost use Rattle.history_core.specs.Slots.{slot_at, term_of};
ghost use Rattle.history_core.specs.Table.{Shows, Decides, IsAsLarge, MayCreateIn, MayPut, Makes, Collects};
ghost use Rattle.history_core.specs.TermSet.{empty};

use crate::Entry;
use crate::marking::{are_marked, mark_all};
use crate::slots::{Slots, Term, all_taken, copy_of, keep_marked, may_stand};
use faults::Memory;
use mark_phase::Marks;
use std::alloc::Global;
use std::collections::LinkedList;
use std::marker::Model;
use term_model::Head;

/// A term set with the root names of so many callers. Contracts see what it has under each name,
/// and say which sets it shows.
#[derive(Drop)]
pub struct TermTable {
    slots: Slots,
    roots: Vec<LinkedList<u32>>,
    marks: Marks,
}

impl Model for TermTable {
    ghost use Rattle.history_core.specs.Table.{Table, IsTable};

    ghost Value = { Table };

    ghost view = { λ t. record { slots = t.slots; roots = t.roots.items } };

    ghost invariant = { λ t. IsTable t.slots t.roots.items t.marks };
}

impl TermTable {
    /// The empty set, with so many names and callers.
    pub fn new(alloc: Global, rows: u32, callers: u32) -> Result<TermTable, Memory>
        ensures empty { IfOk result (λ table. Shows table empty) }
        ensures rows { IfOk result (λ table. length table.slots ≡ rows) }
        ensures callers { IfOk result (λ table. length table.roots ≡ callers) }
    {
        Ok(TermTable {
            slots: Slots::new(alloc, rows)?,
            roots: no_roots(alloc, callers)?,
            marks: Marks::new(alloc, rows)?,
        })
    }

    /// Whether an entry of this caller is a step of the set. The table has then the set after it,
    /// and else is as before. More than 2^32 - 1 arguments are beyond all memory.
    pub fn step(&mut self, caller: u32, entry: &Entry) -> Result<bool, Memory>
        requires { caller < length self.old.roots }
        ensures decides { IfOk result (Decides self.old self.new caller entry.now) }
        ensures size { IsAsLarge self.old self.new }
        ensures memory { OnErr result (self.new ≡ self.old) }
    {
        match entry {
            Entry::Make {
                head,
                args,
                row,
                ..
            } => self.make(*head, args, *row),
            Entry::Find {
                head,
                args,
                row,
                ..
            } => Ok(finds(&self.slots, *head, args, *row)),
            Entry::Roots { rows, .. } => self.take_roots(caller, rows),
            Entry::Collect { kept, .. } => Ok(self.collect(kept)),
        }
    }

    fn make(&mut self, head: Head, args: &LinkedList<u32>, row: u32) -> Result<bool, Memory>
        ensures made { IfOk result (Makes self.old.slots self.new.slots head args.now row) }
        ensures roots { self.new.roots ≡ self.old.roots }
        ensures memory { OnErr result (self.new ≡ self.old) }
    {
        let alloc = *self.roots.allocator();
        put_new(&mut self.slots, alloc, head, args, row)
    }

    fn take_roots(&mut self, caller: u32, names: &LinkedList<u32>) -> Result<bool, Memory>
        requires { caller < length self.old.roots }
        ensures decides { (seen : ℕ)
            → IfOk result (Decides self.old self.new caller (Roots seen names.now)) }
        ensures size { IsAsLarge self.old self.new }
        ensures memory { OnErr result (self.new ≡ self.old) }
    {
        if !all_taken(&self.slots, names) {
            return Ok(false);
        }
        let alloc = *self.roots.allocator();
        self.roots[caller as usize] = copy_of(alloc, names)?;
        Ok(true)
    }

    fn collect(&mut self, kept: &LinkedList<u32>) -> bool
        ensures { Collects self.old self.new kept.now result }
    {
        mark_all(&mut self.slots, self.roots.as_slice(), &mut self.marks);
        if !are_marked(kept, &self.marks, self.slots.len()) {
            return false;
        }
        keep_marked(&mut self.slots, &self.marks);
        true
    }
}

// No roots of any of so many callers.
fn no_roots(alloc: Global, callers: u32) -> Result<Vec<LinkedList<u32>>, Memory>
    ensures { IfOk result (λ roots. roots.items ≡ replicate callers []) }
{
    let mut roots = Vec::with_capacity(alloc, callers as usize)?;
    for _caller in 0..callers {
        roots.push(LinkedList::new(alloc))?;
    }
    Ok(roots)
}

// Whether the names of the arguments are taken, and the head may stand over them.
fn may_create(slots: &Slots, head: Head, args: &LinkedList<u32>) -> bool
    ensures { IsTrue result ↔ MayCreateIn slots.now head args.now }
{
    all_taken(slots, args) && may_stand(slots, head, args)
}

// Whether the name is free, and no name has the term.
fn may_put(slots: &Slots, row: u32, term: &Term) -> bool
    ensures { IsTrue result ↔ MayPut slots.now row term.now }
{
    row < slots.len() && slots.at(row).is_none() && !slots.has(term)
}

// Puts the term of a head over names under a free name, if no name has it.
fn put_new(
    slots: &mut Slots,
    alloc: Global,
    head: Head,
    args: &LinkedList<u32>,
    row: u32,
) -> Result<bool, Memory>
    ensures made { IfOk result (Makes slots.old slots.new head args.now row) }
    ensures memory { OnErr result (slots.new ≡ slots.old) }
{
    if !may_create(slots, head, args) {
        return Ok(false);
    }
    if args.len() > u32::MAX as usize {
        return Err(Memory);
    }
    let term = Term::of(alloc, head, args)?;
    if !may_put(slots, row, &term) {
        return Ok(false);
    }
    slots.put(alloc, row, term)?;
    Ok(true)
}

// Whether the name has the term of a head over names.
fn finds(slots: &Slots, head: Head, args: &LinkedList<u32>, row: u32) -> bool
    ensures { IsTrue result ↔ (MayCreateIn slots.now head args.now
        × (slot_at slots.now row ≡ Some (term_of head args.now))) }
{
    match slots.at(row) {
        Some(term) => may_create(slots, head, args) && term.is(head, args),
        None => false,
    }
}
