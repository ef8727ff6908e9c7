//! How the plain program's evaluations end.

ghost use Rattle.std.specs.Prelude.{◌≡◌};

use crate::boxed::Term;
use faults::Memory;
use std::alloc::{AllocError, AllocFailed};

/// The end of an evaluation: a value with the fuel that is left, or the end of fuel or of room.
#[derive(Debug, Drop)]
pub enum End {
    Value(Term, u64),
    OutOfFuel,
    TooDeep,
}

/// What an evaluation built, in order, and its end.
#[derive(Debug, Drop)]
pub struct Evaluated {
    pub built: Vec<Term>,
    pub end: End,
}

/// Why a part of an evaluation has no value.
#[derive(Clone, Copy, Debug, PartialEq, Eq)]
pub(crate) enum NoValue {
    OutOfFuel,
    TooDeep,
    Memory,
}

impl From<Memory> for NoValue {
    ghost use Rattle.plain_rewriting.specs.declared.ends.NoValue.TheVariants.{Memory};

    ghost from_gives = { λ _ cause. cause ≡ Memory };

    fn from(_: Memory) -> Self {
        NoValue::Memory
    }
}

impl From<AllocError> for NoValue {
    ghost use Rattle.plain_rewriting.specs.declared.ends.NoValue.TheVariants.{Memory};

    ghost from_gives = { λ _ cause. cause ≡ Memory };

    fn from(_: AllocError) -> Self {
        NoValue::Memory
    }
}

impl<T: Drop> From<AllocFailed<T>> for NoValue {
    ghost use Rattle.plain_rewriting.specs.declared.ends.NoValue.TheVariants.{Memory};

    ghost from_gives = { λ _ cause. cause ≡ Memory };

    fn from(_: AllocFailed<T>) -> Self {
        NoValue::Memory
    }
}
