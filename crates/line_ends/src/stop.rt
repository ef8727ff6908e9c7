// Why the line of a term isn't made.
ghost use Rattle.std.specs.Prelude.{◌≡◌};
ghost use Rattle.line_ends.specs.declared.stop.LineStop.TheVariants.{StoreFull, Worn, Memory};

use std::alloc::AllocError;

/// Why the line of a term isn't made.
#[derive(Clone, Copy, Debug, PartialEq, Eq)]
pub enum LineStop {
    /// Every row of the store has a tree that is still protected.
    StoreFull,
    /// The numbers of the store are used up.
    Worn,
    /// There is no memory.
    Memory,
}

impl From<AllocError> for LineStop {
    ghost from_gives = { λ _ e. e ≡ Memory };

    fn from(_: AllocError) -> Self {
        LineStop::Memory
    }
}

impl From<faults::Memory> for LineStop {
    ghost from_gives = { λ _ e. e ≡ Memory };

    fn from(_: faults::Memory) -> Self {
        LineStop::Memory
    }
}
