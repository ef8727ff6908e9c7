//! The groups that are open.
ghost use Rattle.std.specs.Prelude.{◌≡◌, ◌∷◌, [], OnOk};
ghost use Rattle.sequences.specs.Lists.{first_of, is_nil};
ghost use Rattle.term_syntax.specs.Few.{AreCountsFew};
ghost use Rattle.term_syntax.specs.Groups.{under, one_more};

use crate::machine::Group;
use sequences::Stack;
use std::alloc::{AllocError, Global};
use std::marker::Model;

/// Open groups, which contracts see as a list with the innermost first. That one stands apart from
/// the others, since most tokens look at it, and each whole term is counted in it.
#[derive(Drop)]
pub(crate) struct Groups {
    innermost: Option<Group>,
    others: Stack<Group>,
}

impl Model for Groups {
    ghost use Rattle.std.specs.Prelude.{List};
    ghost use Rattle.term_syntax.specs.declared.machine.Group.{Group};
    ghost use Rattle.term_syntax.specs.Groups.{all_open, NoneIsLeft};

    ghost Value = { List Group };

    ghost view = { λ s. all_open s.innermost s.others };

    ghost invariant = { λ s. NoneIsLeft s.innermost s.others };
}

impl Groups {
    /// No group. Takes no memory.
    pub(crate) fn new(alloc: Global) -> Self
        ensures { result ≡ [] }
    {
        Groups {
            innermost: None,
            others: Stack::new(alloc),
        }
    }

    /// The innermost group.
    #[inline(always)]
    pub(crate) fn innermost(&self) -> Option<Group>
        ensures { result ≡ first_of self.now }
    {
        self.innermost
    }

    /// Whether no group is open.
    #[inline(always)]
    pub(crate) fn is_empty(&self) -> bool
        ensures { result ≡ is_nil self.now }
    {
        self.innermost.is_none()
    }

    /// Opens a group within the innermost. An `Err` changes nothing.
    #[inline(always)]
    pub(crate) fn open(&mut self, group: Group) -> Result<(), AllocError>
        ensures { OnOk result (self.new ≡ group ∷ self.old) }
    {
        match self.innermost {
            Some(outer) => self.others.push(outer)?,
            None => {}
        }
        self.innermost = Some(group);
        Ok(())
    }

    /// Closes the innermost group, if one is open.
    #[inline(always)]
    pub(crate) fn close(&mut self)
        ensures { self.new ≡ under self.old }
    {
        self.innermost = self.others.pop();
    }

    /// Counts one more term in the innermost group, if one is open.
    #[inline(always)]
    pub(crate) fn count_one(&mut self)
        requires { AreCountsFew 1 self.old }
        ensures { self.new ≡ one_more self.old }
    {
        if let Some(group) = &mut self.innermost {
            group.count += 1;
        }
    }
}
