//! The parts of an input.
ghost use Rattle.std.specs.Prelude.{◌≡◌, ◌++◌, ◌∷◌, [], length, OnOk, OnErr};
ghost use Rattle.term_syntax.specs.Counts.{counted};

use crate::machine::Entry;
use std::alloc::{AllocError, Global};
use std::marker::Model;

/// Parts in the order of the text, which contracts see as a list.
#[derive(Drop)]
pub(crate) struct Parts {
    items: Vec<Entry>,
}

impl Model for Parts {
    ghost use Rattle.std.specs.Prelude.{List};
    ghost use Rattle.term_syntax.specs.declared.machine.Entry.{Entry};

    ghost Value = { List Entry };

    ghost view = { λ s. s.items.items };
}

impl Parts {
    pub(crate) fn new(alloc: Global) -> Self
        ensures { result ≡ [] }
    {
        Parts {
            items: Vec::new(alloc),
        }
    }

    pub(crate) fn len(&self) -> usize
        ensures { result ≡ length self.now }
    {
        self.items.len()
    }

    pub(crate) fn as_slice(&self) -> &[Entry]
        ensures { result.now ≡ self.now }
    {
        self.items.as_slice()
    }

    pub(crate) fn push(&mut self, entry: Entry) -> Result<(), AllocError>
        ensures ok { OnOk result (self.new ≡ self.old ++ entry ∷ []) }
        ensures err { OnErr result (self.new ≡ self.old) }
    {
        self.items.push(entry)?;
        Ok(())
    }

    // Tells how many terms stand in the part of this number.
    pub(crate) fn set_count(&mut self, part: usize, count: u32)
        ensures { self.new ≡ counted self.old part count }
    {
        if part < self.items.len() {
            self.items[part].count = count;
        }
    }
}
