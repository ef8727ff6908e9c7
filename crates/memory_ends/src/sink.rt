// A sink in memory, which fails at chosen calls.
ghost use Rattle.std.specs.Prelude.{◌≡◌, ◌≤◌, ◌<◌, ◌↔◌, ◌⊎◌, Some, Result, IfOk, IsErr, Contains, length};
ghost use Rattle.std.specs.Io.KnownBytes.{WriteAppends};
ghost use Rattle.faults.specs.Count.{HasCause, next_count};
ghost use Rattle.memory_ends.specs.InMemory.{write_count, sink_of, sink_after};

use ends::{Failed, Sink};
use faults::Memory;
use std::alloc::Global;
use std::marker::Model;

/// A sink in memory with space for so many bytes. It takes at most so many at a write, and fails at
/// chosen calls and where its space is full.
#[derive(Drop)]
pub struct MemSink {
    bytes: Vec<u8>,
    space: usize,
    most: usize,
    failing: Vec<u64>,
    calls: u64,
    faults: u64,
}

impl Model for MemSink {
    ghost use Rattle.std.specs.Prelude.{◌≤◌, ◌+◌, ◌<◌, vec_len, vec_capacity};
    ghost use Rattle.memory_ends.specs.InMemory.{SinkState};

    ghost Value = { SinkState };

    ghost view = { λ s. record {
      taken = s.bytes.items;
      space = s.space;
      most = s.most;
      failing = s.failing.items;
      calls = s.calls;
      faults = s.faults;
    } };

    ghost invariant = { λ s. (vec_len s.bytes + s.space ≤ vec_capacity s.bytes) × (0 < s.most) };
}

impl MemSink {
    /// A sink with this space, whose memory is taken here. It takes at most `most` (1 or more)
    /// bytes at a write, and fails at the calls with the numbers in `failing`, counted from 1.
    pub fn new(alloc: Global, space: usize, most: usize, failing: &[u64]) -> Result<Self, Memory>
        requires { 0 < most }
        ensures { IfOk result (λ s. s ≡ sink_of space most failing.now) }
    {
        let bytes = Vec::with_capacity(alloc, space)?;
        let failing = failing.to_vec(alloc)?;
        Ok(MemSink {
            bytes,
            space,
            most,
            failing,
            calls: 0,
            faults: 0,
        })
    }

    /// The bytes that it has taken.
    pub fn taken(&self) -> &[u8]
        ensures { result.now ≡ self.now.taken }
    {
        &self.bytes
    }
}

impl Sink for MemSink {
    ghost taken = { λ s. Some s.taken };

    ghost faults = { λ s. s.faults };

    /// Fails exactly at the listed calls, and where no space is left. Takes no memory.
    fn write(&mut self, piece: &[u8]) -> Result<usize, Failed>
        requires { 0 < length piece.now }
        ensures bound { IfOk result (λ n. (0 < n) × (n ≤ length piece.now)) }
        ensures bytes { WriteAppends (Some self.old.taken) (Some self.new.taken) result piece.now }
        ensures cause { HasCause self.old.faults self.new.faults result }
        ensures fails { IsErr result
            ↔ (Contains self.old.failing (next_count self.old.calls) ⊎ (self.old.space ≡ 0)) }
        ensures count { IfOk result (λ n. n ≡ write_count self.old (length piece.now)) }
        ensures after { self.new ≡ sink_after self.old piece.now result }
    {
        self.calls = self.calls.saturating_add(1);
        if self.space == 0 || self.failing.contains(&self.calls) {
            self.faults = self.faults.saturating_add(1);
            return Err(Failed);
        }
        let count = self.most.min(piece.len()).min(self.space);
        if self.bytes.extend_from_slice(&piece[..count]).is_err() {
            unreachable!();
        }
        self.space -= count;
        Ok(count)
    }
}
