//! Room for a text that is written from its end.
ghost use Rattle.std.specs.Prelude.{◌≡◌, ◌++◌, ◌∷◌, ◌≤◌, ◌<◌, [], length, IfOk, OnOk};

use std::alloc::{AllocError, Global};
use std::marker::Model;

/// The least room that is taken where a text grows.
const LEAST: usize = 64;

/// Bytes, of which the first are free, and the others are a text. Contracts see the text, and how
/// many are free.
#[derive(Drop)]
pub(crate) struct Room {
    bytes: Vec<u8>,
    free: usize,
}

impl Model for Room {
    ghost use Rattle.std.specs.Prelude.{◌≤◌, length, drop};
    ghost use Rattle.tree_text.specs.Room.{Room};

    ghost Value = { Room };

    ghost view = { λ s. record { text = drop s.free s.bytes.items; free = s.free } };

    ghost invariant = { λ s. s.free ≤ length s.bytes.items };
}

impl Room {
    /// So many free bytes, and no text.
    pub(crate) fn new(alloc: Global, size: usize) -> Result<Room, AllocError>
        ensures { IfOk result (λ room. room.text ≡ []) }
    {
        let bytes = vec![in alloc; 0u8; size]?;
        Ok(Room { bytes, free: size })
    }

    /// The text.
    pub(crate) fn text(&self) -> &[u8]
        ensures { result.now ≡ self.now.text }
    {
        &self.bytes[self.free..]
    }

    // More room with the same text, before which so many bytes are free.
    fn longer(&self, count: usize) -> Result<Room, AllocError>
        ensures text { IfOk result (λ room. room.text ≡ self.now.text) }
        ensures free { IfOk result (λ room. count ≤ room.free) }
    {
        let text = self.text();
        let needed = text.len().saturating_add(count);
        let size = needed.saturating_add(needed).max(LEAST);
        let mut bytes = vec![in *self.bytes.allocator(); 0u8; size]?;
        let free = size - text.len();
        bytes[free..].copy_from_slice(text);
        Ok(Room { bytes, free })
    }

    /// Makes so many bytes free, and keeps the text.
    #[inline(always)]
    pub(crate) fn make_room(&mut self, count: usize) -> Result<(), AllocError>
        ensures text { OnOk result (self.new.text ≡ self.old.text) }
        ensures free { OnOk result (count ≤ self.new.free) }
    {
        if self.free < count {
            *self = self.longer(count)?;
        }
        Ok(())
    }

    /// Puts a byte before the text.
    #[inline(always)]
    pub(crate) fn put_byte(&mut self, byte: u8)
        requires { 0 < self.old.free }
        ensures { self.new.text ≡ byte ∷ self.old.text }
    {
        let free = self.free - 1;
        self.bytes[free] = byte;
        self.free = free;
    }

    /// Puts bytes before the text.
    #[inline(always)]
    pub(crate) fn put(&mut self, bytes: &[u8])
        requires { length bytes.now ≤ self.old.free }
        ensures { self.new.text ≡ bytes.now ++ self.old.text }
    {
        let free = self.free - bytes.len();
        let place = &mut self.bytes[free..self.free];
        place.copy_from_slice(bytes);
        self.free = free;
    }
}
