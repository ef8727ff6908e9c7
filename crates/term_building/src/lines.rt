//! Canonical lines, copied from a text.
ghost use Rattle.std.specs.Prelude.{◌≡◌, ◌++◌, ◌∷◌, ◌+◌, ◌<◌, ◌≤◌, [], length, IfOk, OnOk};
ghost use Rattle.term_building.specs.Copying.{copied};

use std::alloc::{AllocError, Global};
use std::mem;

/// What was written so far. It goes on with the bytes of the text from a place on, which are copied
/// together where something else comes.
#[derive(Drop)]
pub(crate) struct Lines {
    pub(crate) written: Vec<u8>,
    pub(crate) from: usize,
}

impl Lines {
    /// Nothing, and room for as many bytes as the text has.
    pub(crate) fn new(alloc: Global, text: &[u8]) -> Result<Self, AllocError>
        ensures written { IfOk result (λ lines. lines.written.items ≡ []) }
        ensures from { IfOk result (λ lines. lines.from ≡ 0) }
    {
        Ok(Lines {
            written: Vec::with_capacity(alloc, text.len())?,
            from: 0,
        })
    }

    /// Copies the bytes up to a place.
    #[inline(always)]
    fn copy_to(&mut self, text: &[u8], to: usize) -> Result<(), AllocError>
        requires { to ≤ length text.now }
        ensures written { OnOk result
            (self.new.written.items ≡ copied text.now to self.old.written.items self.old.from) }
        ensures from { OnOk result (self.new.from ≡ to) }
    {
        let start = self.from.min(to);
        self.written.extend_from_slice(&text[start..to])?;
        self.from = to;
        Ok(())
    }

    /// Leaves out the byte at a place.
    #[inline(always)]
    pub(crate) fn leave_out(&mut self, text: &[u8], at: usize) -> Result<(), AllocError>
        requires { at < length text.now }
        ensures written { OnOk result
            (self.new.written.items ≡ copied text.now at self.old.written.items self.old.from) }
        ensures from { OnOk result (self.new.from ≡ at + 1) }
    {
        self.copy_to(text, at)?;
        self.from = at + 1;
        Ok(())
    }

    /// Writes a name in place of the bytes between two places.
    pub(crate) fn put(
        &mut self,
        text: &[u8],
        at: usize,
        name: &[u8],
        end: usize,
    ) -> Result<(), AllocError>
        requires { at ≤ length text.now }
        ensures written { OnOk result (self.new.written.items
            ≡ copied text.now at self.old.written.items self.old.from ++ name.now) }
        ensures from { OnOk result (self.new.from ≡ end) }
    {
        self.copy_to(text, at)?;
        self.written.extend_from_slice(name)?;
        self.from = end;
        Ok(())
    }

    /// Ends a line at a place.
    #[inline(always)]
    pub(crate) fn end_line(&mut self, text: &[u8], at: usize) -> Result<(), AllocError>
        requires { at ≤ length text.now }
        ensures written { OnOk result (self.new.written.items
            ≡ copied text.now at self.old.written.items self.old.from ++ 10 ∷ []) }
        ensures from { OnOk result (self.new.from ≡ at) }
    {
        self.copy_to(text, at)?;
        self.written.push(b'\n')?;
        Ok(())
    }

    /// Takes out what was written, with all bytes up to the end of the text.
    pub(crate) fn whole(&mut self, alloc: Global, text: &[u8]) -> Result<Vec<u8>, AllocError>
        ensures { IfOk result (λ lines. lines.items
            ≡ copied text.now (length text.now) self.old.written.items self.old.from) }
    {
        self.copy_to(text, text.len())?;
        Ok(mem::replace(&mut self.written, Vec::new(alloc)))
    }
}
