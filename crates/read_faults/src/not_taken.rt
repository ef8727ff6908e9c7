//! Why a reader stops at a token.
ghost use Rattle.std.specs.Prelude.{◌≡◌};
ghost use Rattle.read_faults.specs.declared.not_taken.NotTaken.TheVariants.{Memory};

use std::alloc::AllocError;

/// Why a token isn't taken: it is none of those that may stand there, or there is no memory.
#[derive(Clone, Copy, Debug, PartialEq, Eq)]
pub enum NotTaken {
    Unexpected,
    Memory,
}

impl From<AllocError> for NotTaken {
    ghost from_gives = { λ _ e. e ≡ Memory };

    fn from(_: AllocError) -> Self {
        NotTaken::Memory
    }
}
