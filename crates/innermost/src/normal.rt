//! How a normalization ends.

ghost use Rattle.std.specs.Prelude.{◌≡◌};
ghost use Rattle.innermost.specs.Faults.{traced};
ghost use Rattle.innermost.specs.declared.normal.TraceFault.TheVariants.{Memory};

use std::alloc::AllocError;

/// The value is on top of the stack and so much fuel is left, or fuel or room ended.
#[derive(Clone, Copy, Debug, PartialEq, Eq)]
pub enum Normal {
    Value { left: u64 },
    OutOfFuel,
    TooDeep,
}

/// Why a normalization was given up: a tree couldn't be built.
#[derive(Clone, Copy, Debug, PartialEq, Eq)]
pub enum RunFault {
    /// Every row has a tree that is still protected, and none of them is the asked one.
    StoreFull,
    /// The numbers of the store are used up.
    Worn,
}

/// Why a normalization with its events was given up.
#[derive(Clone, Copy, Debug, PartialEq, Eq)]
pub enum TraceFault {
    /// Every row has a tree that is still protected, and none of them is the asked one.
    StoreFull,
    /// The numbers of the store are used up.
    Worn,
    /// There is no memory for the events, or for the way to the tree that is looked at.
    Memory,
}

impl From<RunFault> for TraceFault {
    ghost from_gives = { λ f e. e ≡ traced f };

    fn from(fault: RunFault) -> Self {
        match fault {
            RunFault::StoreFull => TraceFault::StoreFull,
            RunFault::Worn => TraceFault::Worn,
        }
    }
}

impl From<faults::Memory> for TraceFault {
    ghost from_gives = { λ _ e. e ≡ Memory };

    fn from(_: faults::Memory) -> Self {
        TraceFault::Memory
    }
}

impl From<AllocError> for TraceFault {
    ghost from_gives = { λ _ e. e ≡ Memory };

    fn from(_: AllocError) -> Self {
        TraceFault::Memory
    }
}
