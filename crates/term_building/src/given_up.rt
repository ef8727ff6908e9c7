//! Why terms aren't built in one pass.

use faults::Memory;
use read_faults::ReadFail;
use std::alloc::AllocError;
use terms_api::BuildFault;

/// Why the pass was given up. It tells whether a larger store may do, and nothing else: whoever
/// asks for more reads the text again.
#[derive(Clone, Copy, Debug, PartialEq, Eq)]
pub enum GivenUp {
    /// The store has too few rows, or places, or arguments in a row.
    TooSmall,
    /// The text is refused, or there is no memory, or the numbers of the store are used up.
    Otherwise,
}

impl From<AllocError> for GivenUp {
    fn from(_: AllocError) -> Self {
        GivenUp::Otherwise
    }
}

impl From<ReadFail> for GivenUp {
    fn from(_: ReadFail) -> Self {
        GivenUp::Otherwise
    }
}

impl From<BuildFault> for GivenUp {
    fn from(fault: BuildFault) -> Self {
        match fault {
            BuildFault::Deep | BuildFault::StoreFull => GivenUp::TooSmall,
            BuildFault::Worn => GivenUp::Otherwise,
        }
    }
}

impl From<Memory> for GivenUp {
    fn from(_: Memory) -> Self {
        GivenUp::Otherwise
    }
}
