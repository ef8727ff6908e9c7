// Where bytes go to.
ghost use Rattle.std.specs.Prelude.{◌≤◌, ◌<◌, ℕ, List, Option, Result, IfOk, OnOk, OnErr, length};
ghost use Rattle.std.specs.Io.KnownBytes.{WriteAppends, Appends};
ghost use Rattle.faults.specs.Count.{HasCause};
ghost use Rattle.ends.specs.Bytes.{TookFront};

use crate::Failed;

/// Takes bytes, some at a time.
pub trait Sink {
    /// The bytes that it took, where it tells them.
    ghost taken: { Self → Option (List ℕ) };

    /// How often it has failed, up to 2^64 - 1. The count never falls.
    ghost faults: { Self → ℕ };

    /// Takes a front of the piece, which isn't empty: at least one byte, and answers how many.
    fn write(&mut self, piece: &[u8]) -> Result<usize, Failed>
        requires { 0 < length piece.now }
        ensures bound { IfOk result (λ n. (0 < n) × (n ≤ length piece.now)) }
        ensures bytes { WriteAppends (taken self.old) (taken self.new) result piece.now }
        ensures cause { HasCause (faults self.old) (faults self.new) result };
}

/// A write failed before all bytes were taken.
#[derive(Clone, Copy, Debug, PartialEq, Eq)]
pub struct WriteFault;

/// Writes all the bytes, or a front of them where a write fails. It takes no memory.
pub fn write_all<O: Sink>(sink: &mut O, bytes: &[u8]) -> Result<(), WriteFault>
    ensures whole { OnOk result (Appends (O.taken sink.old) (O.taken sink.new) bytes.now) }
    ensures front { OnErr result (TookFront (O.taken sink.old) (O.taken sink.new) bytes.now) }
    ensures fault_only_where_count_rose { HasCause (O.faults sink.old) (O.faults sink.new) result }
{
    let mut at = 0;
    while at < bytes.len() {
        match sink.write(&bytes[at..]) {
            Ok(count) => at += count,
            Err(_) => return Err(WriteFault),
        }
    }
    Ok(())
}
