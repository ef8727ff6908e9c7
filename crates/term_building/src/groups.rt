//! Names, and the groups that are open.
ghost use Rattle.std.specs.Prelude.{◌≡◌, ◌<◌, ◌∷◌, [], OnOk, IfOk, vec_len, vec_capacity};
ghost use Rattle.sequences.specs.Lists.{first_of, is_nil};
ghost use Rattle.term_building.specs.Groups.{under};

use crate::given_up::GivenUp;
use std::alloc::{AllocError, Global};
use std::marker::Model;

/// A name: where it begins and ends in the text, and whether it stands in quotes.
#[derive(Clone, Copy)]
pub(crate) struct Heading {
    pub(crate) place: u32,
    pub(crate) end: u32,
    pub(crate) quoted: bool,
}

/// A place of the text in 32 bits. A text in which it has more is given up.
#[inline(always)]
pub(crate) fn in_32_bits(place: usize) -> Result<u32, GivenUp>
    ensures { IfOk result (λ n. n ≡ place) }
{
    if place > u32::MAX as usize {
        return Err(GivenUp::Otherwise);
    }
    Ok(place as u32)
}

/// Parentheses behind a name, or brackets, that are open, and how many whole terms stand before
/// those in them.
#[derive(Clone, Copy)]
pub(crate) struct Group {
    pub(crate) heading: Option<Heading>,
    pub(crate) base: u32,
}

// Takes memory for more groups.
#[inline(never)]
fn make_room(items: &mut Vec<Group>) -> Result<(), AllocError>
    ensures items { items.new.items ≡ items.old.items }
    ensures room { OnOk result (vec_len items.new < vec_capacity items.new) }
{
    items.reserve(1)
}

// Sees to it that there is room for one more group.
#[inline(always)]
fn have_room(items: &mut Vec<Group>) -> Result<(), AllocError>
    ensures items { items.new.items ≡ items.old.items }
    ensures room { OnOk result (vec_len items.new < vec_capacity items.new) }
{
    if items.len() < items.capacity() {
        Ok(())
    } else {
        make_room(items)
    }
}

/// Open groups, which contracts see as a list with the innermost first.
#[derive(Drop)]
pub(crate) struct Groups {
    items: Vec<Group>,
}

impl Model for Groups {
    ghost use Rattle.std.specs.Prelude.{List, reverse};
    ghost use Rattle.term_building.specs.declared.groups.Group.{Group};

    ghost Value = { List Group };

    ghost view = { λ s. reverse s.items.items };
}

impl Groups {
    /// No group. Takes no memory.
    pub(crate) fn new(alloc: Global) -> Self
        ensures { result ≡ [] }
    {
        Groups {
            items: Vec::new(alloc),
        }
    }

    /// The innermost group.
    #[inline(always)]
    pub(crate) fn innermost(&self) -> Option<Group>
        ensures { result ≡ first_of self.now }
    {
        self.items.last().copied()
    }

    /// Whether no group is open.
    #[inline(always)]
    pub(crate) fn is_empty(&self) -> bool
        ensures { result ≡ is_nil self.now }
    {
        self.items.is_empty()
    }

    /// Opens a group within the innermost.
    #[inline(always)]
    pub(crate) fn open(&mut self, group: Group) -> Result<(), AllocError>
        ensures { OnOk result (self.new ≡ group ∷ self.old) }
    {
        have_room(&mut self.items)?;
        self.items.push_reserved(group);
        Ok(())
    }

    /// Closes the innermost group, if one is open.
    #[inline(always)]
    pub(crate) fn close(&mut self)
        ensures { self.new ≡ under self.old }
    {
        let _ = self.items.pop();
    }
}
