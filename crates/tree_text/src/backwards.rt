//! A text that is written from its end.
ghost use Rattle.std.specs.Prelude.{◌≡◌, ◌++◌, ◌∷◌, [], IfOk, OnOk, OnErr};

use crate::room::Room;
use std::alloc::{AllocError, Global};
use std::marker::Model;

/// A text that grows at its front. Contracts see it alone.
#[derive(Drop)]
pub(crate) struct Backwards {
    room: Room,
}

impl Model for Backwards {
    ghost use Rattle.std.specs.Prelude.{List, ℕ};

    ghost Value = { List ℕ };

    ghost view = { λ s. s.room.text };
}

impl Backwards {
    /// No text, and room for so many bytes. It grows where they don't suffice.
    pub(crate) fn new(alloc: Global, size: usize) -> Result<Self, AllocError>
        ensures { IfOk result (λ text. text ≡ []) }
    {
        let room = Room::new(alloc, size)?;
        Ok(Backwards { room })
    }

    /// Puts a byte before the text.
    #[inline(always)]
    pub(crate) fn put_byte(&mut self, byte: u8) -> Result<(), AllocError>
        ensures { OnOk result (self.new ≡ byte ∷ self.old) }
    {
        self.room.make_room(1)?;
        self.room.put_byte(byte);
        Ok(())
    }

    /// Puts bytes before the text.
    #[inline(always)]
    pub(crate) fn put(&mut self, bytes: &[u8]) -> Result<(), AllocError>
        ensures { OnOk result (self.new ≡ bytes.now ++ self.old) }
    {
        self.room.make_room(bytes.len())?;
        self.room.put(bytes);
        Ok(())
    }

    /// Puts the text behind what `out` has. An `Err` changes nothing.
    pub(crate) fn append_to(self, out: &mut Vec<u8>) -> Result<(), AllocError>
        ensures ok { OnOk result (out.new.items ≡ out.old.items ++ self) }
        ensures err { OnErr result (out.new.items ≡ out.old.items) }
    {
        out.extend_from_slice(self.room.text())?;
        Ok(())
    }
}
