// Where bytes come from.
ghost use Rattle.std.specs.Prelude.{◌≡◌, ◌≤◌, ◌<◌, ◌⊎◌, ℕ, List, Option, Result, IfOk, IsErrOf, length, vec_len};
ghost use Rattle.std.specs.Io.{ReadsAtMost};
ghost use Rattle.std.specs.Io.KnownBytes.{ReadConsumes};
ghost use Rattle.faults.specs.Count.{Rose, HasCause};
ghost use Rattle.ends.specs.Bytes.{GaveSome, GaveAll, GaveMoreThan, HasMoreThan};

use std::alloc::{AllocError, Global};

/// A read or a write failed, and the end's count of faults rose.
#[derive(Clone, Copy, Debug, PartialEq, Eq)]
pub struct Failed;

/// Gives bytes, some at a time.
pub trait Source {
    /// The bytes that are left, where the source tells them.
    ghost left: { Self → Option (List ℕ) };

    /// How often it has failed, up to 2^64 - 1. The count never falls.
    ghost faults: { Self → ℕ };

    /// Fills a front of the buffer, which isn't empty, and answers how many bytes it gave. 0 is the
    /// end of the input.
    fn read(&mut self, buf: &mut [u8]) -> Result<usize, Failed>
        requires { 0 < length buf.old }
        ensures bound { ReadsAtMost result buf.new }
        ensures bytes { ReadConsumes (left self.old) (left self.new) result buf.new }
        ensures cause { HasCause (faults self.old) (faults self.new) result };
}

/// Why a source wasn't read to its end.
#[derive(Clone, Copy, Debug, PartialEq, Eq)]
pub enum ReadAllFault {
    /// A read failed.
    ReadFault,
    /// It gave more bytes than the limit.
    TooLong,
    /// There is no memory.
    Memory,
}

impl From<AllocError> for ReadAllFault {
    ghost use Rattle.std.specs.Prelude.{◌≡◌};
    ghost use Rattle.ends.specs.declared.source.ReadAllFault.TheVariants.{Memory};

    ghost from_gives = { λ _ e. e ≡ Memory };

    fn from(_: AllocError) -> Self {
        ReadAllFault::Memory
    }
}

// How many bytes a read may give.
const PIECE: usize = 16_384;

/// Reads a source to its end, and answers all the bytes that it had left. More than `limit` bytes
/// are refused as soon as they are given.
pub fn read_all<S: Source>(
    alloc: Global,
    source: &mut S,
    limit: u64,
) -> Result<Vec<u8>, ReadAllFault>
    // What is answered is all that the source had left.
    ensures whole { IfOk result (λ all. GaveAll (S.left source.old) (S.left source.new) all.items) }
    ensures within_limit { IfOk result (λ all. vec_len all ≤ limit) }

    ensures read_fault_only_where_count_rose { IsErrOf result ReadAllFault.ReadFault
        → Rose (S.faults source.old) (S.faults source.new) }

    // It is too long exactly where, without a fault before, more than the limit was given.
    ensures too_long_only_past_limit { IsErrOf result ReadAllFault.TooLong
        → GaveMoreThan (S.left source.old) (S.left source.new) limit }
    ensures no_fault_before { IsErrOf result ReadAllFault.ReadFault
        ⊎ (S.faults source.new ≡ S.faults source.old) }
    ensures past_limit_is_too_long { HasMoreThan (S.left source.old) limit
        → (Rose (S.faults source.old) (S.faults source.new) → ⊥)
        → IsErrOf result ReadAllFault.TooLong ⊎ IsErrOf result ReadAllFault.Memory }

    // Whatever the answer, some bytes were given, and the count of faults hasn't fallen.
    ensures given { GaveSome (S.left source.old) (S.left source.new) }
    ensures later { S.faults source.old ≤ S.faults source.new }
{
    let mut all = Vec::new(alloc);
    let mut piece = [0u8; PIECE];
    'pieces: loop {
        let Ok(count) = source.read(&mut piece) else {
            return Err(ReadAllFault::ReadFault);
        };
        if count == 0 {
            return Ok(all);
        }
        if limit - (all.len() as u64) < count as u64 {
            return Err(ReadAllFault::TooLong);
        }
        all.extend_from_slice(&piece[..count])?;
    }
}
