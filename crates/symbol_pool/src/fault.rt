//! Why a symbol isn't interned.

ghost use Rattle.std.specs.Prelude.{◌≡◌};
ghost use Rattle.symbol_pool.specs.declared.fault.PoolFault.TheVariants.{Memory};

use std::alloc::{AllocError, AllocFailed};

/// Why a symbol isn't interned: as many symbols are held as may be, or there is no memory.
#[derive(Clone, Copy, Debug, PartialEq, Eq)]
pub enum PoolFault {
    Full,
    Memory,
}

impl From<AllocError> for PoolFault {
    ghost from_gives = { λ _ e. e ≡ Memory };

    fn from(_: AllocError) -> Self {
        PoolFault::Memory
    }
}

impl<T: Drop> From<AllocFailed<T>> for PoolFault {
    ghost from_gives = { λ _ e. e ≡ Memory };

    fn from(_: AllocFailed<T>) -> Self {
        PoolFault::Memory
    }
}

impl From<faults::Memory> for PoolFault {
    ghost from_gives = { λ _ e. e ≡ Memory };

    fn from(_: faults::Memory) -> Self {
        PoolFault::Memory
    }
}
