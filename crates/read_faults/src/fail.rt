//! Why reading stops.
ghost use Rattle.std.specs.Prelude.{◌≡◌};
ghost use Rattle.read_faults.specs.declared.fail.ReadFail.TheVariants.{Memory, Refused};

use faults::Refusal;
use std::alloc::{AllocError, AllocFailed};

/// Why an input isn't read: it is refused, with a kind and a place in bytes from 0, or there is no
/// memory.
#[derive(Clone, Copy, Debug, PartialEq, Eq)]
pub enum ReadFail {
    Refused { kind: u8, offset: u64 },
    Memory,
}

impl From<Refusal> for ReadFail {
    ghost from_gives = { λ r e. e ≡ Refused r.kind r.place };

    fn from(refusal: Refusal) -> Self {
        ReadFail::Refused {
            kind: refusal.kind,
            offset: refusal.place,
        }
    }
}

impl From<AllocError> for ReadFail {
    ghost from_gives = { λ _ e. e ≡ Memory };

    fn from(_: AllocError) -> Self {
        ReadFail::Memory
    }
}

impl<T: Drop> From<AllocFailed<T>> for ReadFail {
    ghost from_gives = { λ _ e. e ≡ Memory };

    fn from(_: AllocFailed<T>) -> Self {
        ReadFail::Memory
    }
}

impl From<faults::Memory> for ReadFail {
    ghost from_gives = { λ _ e. e ≡ Memory };

    fn from(_: faults::Memory) -> Self {
        ReadFail::Memory
    }
}
