//! Why a command on terms has no output.
ghost use Rattle.std.specs.Prelude.{◌≡◌};
ghost use Rattle.term_commands.specs.Failing.{fault_of, fault_of_share};
ghost use Rattle.term_commands.specs.declared.fault.TermsFault.TheVariants as fault;

use crate::building::Full;
use faults::{Memory, Refusal};
use read_faults::ReadFail;
use std::alloc::AllocError;
use term_file::ShareFault;

/// Why a command on terms has no output.
#[derive(Clone, Copy, Debug, PartialEq, Eq)]
pub enum TermsFault {
    /// The input is refused.
    Refused(Refusal),
    /// The terms have more different subtrees than there are rows.
    StoreFull,
    /// There is no memory.
    Memory,
}

impl From<AllocError> for TermsFault {
    ghost from_gives = { λ _ e. e ≡ fault.Memory };

    fn from(_: AllocError) -> Self {
        TermsFault::Memory
    }
}

impl From<Memory> for TermsFault {
    ghost from_gives = { λ _ e. e ≡ fault.Memory };

    fn from(_: Memory) -> Self {
        TermsFault::Memory
    }
}

impl From<Full> for TermsFault {
    ghost from_gives = { λ _ e. e ≡ fault.StoreFull };

    fn from(_: Full) -> Self {
        TermsFault::StoreFull
    }
}

impl From<ShareFault> for TermsFault {
    ghost from_gives = { λ given e. e ≡ fault_of_share given };

    fn from(given: ShareFault) -> Self {
        match given {
            ShareFault::StoreFull => TermsFault::StoreFull,
            ShareFault::Memory => TermsFault::Memory,
        }
    }
}

impl From<ReadFail> for TermsFault {
    ghost from_gives = { λ fail e. e ≡ fault_of fail };

    fn from(fail: ReadFail) -> Self {
        match fail {
            ReadFail::Refused { kind, offset } => TermsFault::Refused(Refusal {
                kind,
                place: offset,
            }),
            ReadFail::Memory => TermsFault::Memory,
        }
    }
}
