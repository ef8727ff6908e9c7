//! Why terms aren't shared.
ghost use Rattle.std.specs.Prelude.{◌≡◌};
ghost use Rattle.term_file.specs.declared.fault.ShareFault.TheVariants.{Memory};

use std::alloc::{AllocError, AllocFailed};

/// Why terms aren't shared: they have more different subterms than there may be records, or there
/// is no memory.
#[derive(Clone, Copy, Debug, PartialEq, Eq)]
pub enum ShareFault {
    StoreFull,
    Memory,
}

impl From<AllocError> for ShareFault {
    ghost from_gives = { λ _ e. e ≡ Memory };

    fn from(_: AllocError) -> Self {
        ShareFault::Memory
    }
}

impl<T: Drop> From<AllocFailed<T>> for ShareFault {
    ghost from_gives = { λ _ e. e ≡ Memory };

    fn from(_: AllocFailed<T>) -> Self {
        ShareFault::Memory
    }
}
