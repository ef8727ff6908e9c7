//! Terms under names, each found by its root and the names of its arguments.

ghost use Rattle.std.specs.Prelude.{◌≡◌, ◌<◌, ◌↔◌, ◌≢◌, ℕ, Option, Some, None, IfOk, IfSome, OnOk, OnErr, IsTrue, length, replicate, slice_set, slice_get, ◌^◌};
ghost use Rattle.std.specs.Option.{option_copied};
ghost use Rattle.history_core.specs.Slots.{slot_at, root_of, term_of, is_list, is_none, second_is_list, stands_over, are_taken, kept_if, is_marked};

use faults::Memory;
use mark_phase::{Graph, Marks};
use std::alloc::Global;
use std::collections::{HashMap, LinkedList};
use std::marker::Model;
use term_model::{Head, Row};

/// What stands at the root of a term. It can be hashed, as a `Head` can't.
#[derive(Clone, Copy, Debug, PartialEq, Eq, Hash)]
pub(crate) enum Root {
    App(u32),
    Int(u64),
    Nil,
    Cons,
}

impl Root {
    fn of(head: Head) -> Root
        ensures { result ≡ root_of head }
    {
        match head {
            Head::App(symbol) => Root::App(symbol.0),
            Head::Int(value) => Root::Int(value),
            Head::Nil => Root::Nil,
            Head::Cons => Root::Cons,
        }
    }
}

/// A root over the names of its arguments.
#[derive(Debug, PartialEq, Eq, Hash, Drop)]
pub(crate) struct Term {
    pub root: Root,
    pub args: LinkedList<u32>,
}

impl Term {
    /// The term of this head over these names.
    pub(crate) fn of(alloc: Global, head: Head, args: &LinkedList<u32>) -> Result<Term, Memory>
        ensures { IfOk result (λ term. term ≡ term_of head args.now) }
    {
        Ok(Term {
            root: Root::of(head),
            args: copy_of(alloc, args)?,
        })
    }

    /// Whether it is the term of this head over these names.
    pub(crate) fn is(&self, head: Head, args: &LinkedList<u32>) -> bool
        ensures { IsTrue result ↔ (self.now ≡ term_of head args.now) }
    {
        self.root == Root::of(head) && self.args == *args
    }

    /// The same term once more.
    fn copy(&self, alloc: Global) -> Result<Term, Memory>
        ensures { IfOk result (λ term. term ≡ self.now) }
    {
        Ok(Term {
            root: self.root,
            args: copy_of(alloc, &self.args)?,
        })
    }
}

/// The same list once more.
pub(crate) fn copy_of(alloc: Global, list: &LinkedList<u32>) -> Result<LinkedList<u32>, Memory>
    ensures { IfOk result (λ copy. copy ≡ list.now) }
{
    let mut copy = LinkedList::new(alloc);
    for name in list.iter() {
        copy.push_back(*name)?;
    }
    Ok(copy)
}

/// Names below a bound, each free or with a term that no other has. Contracts see them in order.
#[derive(Drop)]
pub(crate) struct Slots {
    terms: Vec<Option<Term>>,
    names: HashMap<Term, u32>,
}

impl Model for Slots {
    ghost use Rattle.history_core.specs.Slots.{Slots};
    ghost use Rattle.history_core.specs.Named.{IsKept};

    ghost Value = { Slots };

    ghost view = { λ s. s.terms.items };

    ghost invariant = { λ s. IsKept s.terms.items s.names };
}

impl Slots {
    /// So many free names.
    pub(crate) fn new(alloc: Global, names: u32) -> Result<Slots, Memory>
        ensures { IfOk result (λ slots. slots ≡ replicate names None) }
    {
        let mut terms = Vec::with_capacity(alloc, names as usize)?;
        for name in 0..names {
            terms.push(None)?;
        }
        Ok(Slots {
            terms,
            names: HashMap::new(alloc),
        })
    }

    /// How many names there are.
    pub(crate) fn len(&self) -> u32
        ensures { result ≡ length self.now }
    {
        self.terms.len() as u32
    }

    /// The term under a name, if it has one.
    pub(crate) fn at(&self, name: u32) -> Option<&Term>
        ensures term { option_copied result ≡ slot_at self.now name }
        ensures short { IfSome result (λ term. length term.now.args < 2 ^ 32) }
    {
        match self.terms.get(name as usize) {
            Some(slot) => slot.as_ref(),
            None => None,
        }
    }

    /// Whether some name has this term.
    pub(crate) fn has(&self, term: &Term) -> bool
        ensures { IsTrue result ↔ ((n : ℕ) × slot_at self.now n ≡ Some term.now) }
    {
        self.names.contains_key(term)
    }

    /// Puts a term that no name has under a free name.
    pub(crate) fn put(&mut self, alloc: Global, name: u32, term: Term) -> Result<(), Memory>
        requires below { name < length self.old }
        requires free { slot_at self.old name ≡ None }
        requires absent { (n : ℕ) → slot_at self.old n ≢ Some term }
        requires short { length term.args < 2 ^ 32 }
        ensures put { OnOk result (self.new ≡ slice_set self.old name (Some term)) }
        ensures unchanged { OnErr result (self.new ≡ self.old) }
    {
        let key = term.copy(alloc)?;
        self.names.insert(key, name)?;
        self.terms[name as usize] = Some(term);
        Ok(())
    }

    /// Frees a name.
    pub(crate) fn free(&mut self, name: u32)
        requires { name < length self.old }
        ensures { self.new ≡ slice_set self.old name None }
    {
        if let Some(term) = self.terms[name as usize].take() {
            self.names.remove(&term);
        }
    }
}

impl Graph for Slots {
    ghost use Rattle.std.specs.Prelude.{◌≡◌, refl, ⊤};
    ghost use Rattle.std.proofs.Common.{◌∙◌, ap};
    ghost use Rattle.term_model.specs.declared.Row.{Row};
    ghost use Rattle.history_core.specs.Slots.{Slots, children};

    ghost children = { children };

    ghost may_read = { λ _ _. ⊤ };

    ghost same = { λ g h. h ≡ g };

    ghost same_as_itself = { λ g. refl };

    ghost same_in_turn = { λ g h i e f. f ∙ e };

    ghost same_children = { λ g h e r. ap (λ (s : Slots). children s r) e };

    ghost same_reading = { λ g h e r may. may };

    fn count(&mut self, row: Row) -> u32 {
        match self.at(row.0) {
            Some(term) => term.args.len() as u32,
            None => 0,
        }
    }

    fn child(&mut self, row: Row, j: u32) -> Row {
        match self.at(row.0) {
            Some(term) => Row(name_at(&term.args, j)),
            None => unreachable!(),
        }
    }
}

/// The name with this index.
fn name_at(list: &LinkedList<u32>, index: u32) -> u32
    requires { index < length list.now }
    ensures { slice_get list.now index ≡ Some result }
{
    let mut left = index;
    for name in list.iter() {
        if left == 0 {
            return *name;
        }
        left -= 1;
    }
    unreachable!()
}

/// Frees the names that aren't marked.
pub(crate) fn keep_marked(slots: &mut Slots, marks: &Marks)
    requires { length marks.now ≡ length slots.old }
    ensures size { length slots.new ≡ length slots.old }
    ensures kept { (n : ℕ)
        → slot_at slots.new n ≡ kept_if (is_marked marks.now n) (slot_at slots.old n) }
{
    for name in 0..slots.len() {
        if !marks.has(Row(name)) {
            slots.free(name);
        }
    }
}

/// Whether these names are taken.
pub(crate) fn all_taken(slots: &Slots, names: &LinkedList<u32>) -> bool
    ensures { result ≡ are_taken slots.now names.now }
{
    for name in names.iter() {
        if slots.at(*name).is_none() {
            return false;
        }
    }
    true
}

/// Whether the term under a name is a list.
fn names_list(slots: &Slots, name: u32) -> bool
    ensures { result ≡ is_list (slot_at slots.now name) }
{
    match slots.at(name) {
        Some(term) => matches!(term.root, Root::Nil | Root::Cons),
        None => false,
    }
}

fn is_pair_with_list(slots: &Slots, args: &LinkedList<u32>) -> bool
    ensures { result ≡ second_is_list slots.now args.now }
{
    let mut names = args.iter();
    match (names.next(), names.next(), names.next()) {
        (Some(_), Some(second), None) => names_list(slots, *second),
        _ => false,
    }
}

/// Whether a head may stand over the terms of these names.
pub(crate) fn may_stand(slots: &Slots, head: Head, args: &LinkedList<u32>) -> bool
    ensures { result ≡ stands_over slots.now head args.now }
{
    match head {
        Head::App(_) => true,
        Head::Int(_) | Head::Nil => args.is_empty(),
        Head::Cons => is_pair_with_list(slots, args),
    }
}
