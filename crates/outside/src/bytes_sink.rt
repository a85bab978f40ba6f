//! A sink in memory that fails where it is told to.

ghost use Rattle.std.specs.Prelude.{◌≡◌, ◌<◌, ◌≤◌, length, Some, Contains, IsErr, IfOk, OnErr};
ghost use Rattle.std.specs.Io.{WritesAtMost};
ghost use Rattle.std.specs.Io.KnownBytes.{WriteAppends};
ghost use Rattle.outside.specs.Faults.{raised, Rose};
ghost use Rattle.outside.specs.BytesSink.{new_sink, count_written, after_write};

use crate::faults::{Failed, NoMemory};
use crate::writing::Sink;
use std::alloc::Global;
use std::marker::Model;

/// A sink that keeps its bytes in memory, takes them in pieces and fails at the calls that are
/// listed: for tests.
#[derive(Debug, Drop)]
pub struct BytesSink {
    written: Vec<u8>,
    most: usize,
    fails: Vec<u64>,
    calls: u64,
    faults: u64,
}

impl Model for BytesSink {
    ghost use Rattle.std.specs.Prelude.{◌<◌};
    ghost use Rattle.outside.specs.BytesSink.{SinkState};

    ghost Value = { SinkState };

    ghost view = { λ s. record {
      written = s.written.items;
      most = s.most;
      fails = s.fails.items;
      calls = s.calls;
      faults = s.faults;
    } };

    ghost invariant = { λ s. 0 < s.most };
}

impl BytesSink {
    /// A sink that is empty, and takes at most `most` bytes at a call. The calls whose numbers are
    /// in `fails` fail; the first call has the number 1.
    ///
    /// # Errors
    ///
    /// [`NoMemory`] where memory runs out.
    pub fn new(alloc: Global, most: usize, fails: &[u64]) -> Result<BytesSink, NoMemory>
        requires { 1 ≤ most }
        ensures { IfOk result (λ sink. sink ≡ new_sink most fails.now) }
    {
        Ok(BytesSink {
            written: Vec::new(alloc),
            most,
            fails: fails.to_vec(alloc)?,
            calls: 0,
            faults: 0,
        })
    }

    /// The bytes that were written so far.
    pub fn bytes(&self) -> &[u8]
        ensures { result.now ≡ self.now.written }
    {
        &self.written
    }
}

impl Sink for BytesSink {
    ghost written = { λ sink. Some sink.written };

    ghost faults = { λ sink. sink.faults };

    /// Takes the lesser of `most` and the whole piece, from its front. A call whose number is
    /// listed fails, and so does one for which memory runs out: it takes nothing and raises the
    /// count of faults. Both counts stay at their last value, 2^64 - 1.
    fn write(&mut self, piece: &[u8]) -> Result<usize, Failed>
        requires { 0 < length piece.now }
        ensures some { IfOk result (λ count. 1 ≤ count) }
        ensures bound { WritesAtMost result piece.now }
        ensures bytes { WriteAppends (Some self.old.written) (Some self.new.written)
            result piece.now }
        ensures kept_count { self.old.faults ≤ self.new.faults }
        ensures failed { OnErr result (Rose self.old.faults self.new.faults) }

        ensures listed { Contains self.old.fails (raised self.old.calls) → IsErr result }
        ensures count { IfOk result (λ count. count ≡ count_written self.old piece.now) }
        ensures after { self.new ≡ after_write self.old piece.now result }
    {
        self.calls = self.calls.saturating_add(1);
        let count = self.most.min(piece.len());
        if self.fails.contains(&self.calls)
            || self.written.extend_from_slice(&piece[..count]).is_err()
        {
            self.faults = self.faults.saturating_add(1);
            return Err(Failed);
        }
        Ok(count)
    }
}
