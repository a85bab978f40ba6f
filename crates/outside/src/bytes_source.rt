//! A source in memory that fails where it is told to.

ghost use Rattle.std.specs.Prelude.{◌≡◌, ◌<◌, ◌≤◌, ◌↔◌, ◌++◌, length, take, drop, Some, Contains, IsErr, IfOk, OnErr, MatchResult};
ghost use Rattle.std.specs.Io.{ReadsAtMost};
ghost use Rattle.std.specs.Io.KnownBytes.{ReadConsumes};
ghost use Rattle.outside.specs.Faults.{raised, Rose};
ghost use Rattle.outside.specs.BytesSource.{new_source, count_read, after_read};

use crate::copying::copy_left;
use crate::faults::{Failed, NoMemory};
use crate::reading::Source;
use std::alloc::Global;
use std::marker::Model;

/// A source over bytes in memory, which gives them in pieces and fails at the calls that are
/// listed: for tests.
#[derive(Debug, Drop)]
pub struct BytesSource {
    bytes: Vec<u8>,
    place: usize,
    most: usize,
    fails: Vec<u64>,
    calls: u64,
    faults: u64,
}

impl Model for BytesSource {
    ghost use Rattle.std.specs.Prelude.{◌<◌, ◌≤◌, length, drop};
    ghost use Rattle.outside.specs.BytesSource.{SourceState};

    ghost Value = { SourceState };

    ghost view = { λ s. record {
      left = drop s.place s.bytes.items;
      most = s.most;
      fails = s.fails.items;
      calls = s.calls;
      faults = s.faults;
    } };

    ghost invariant = { λ s. (s.place ≤ length s.bytes.items) × (0 < s.most) };
}

impl BytesSource {
    /// A source of these bytes, which gives at most `most` of them at a call. The calls whose
    /// numbers are in `fails` fail; the first call has the number 1.
    ///
    /// # Errors
    ///
    /// [`NoMemory`] where memory runs out.
    pub fn new(
        alloc: Global,
        bytes: &[u8],
        most: usize,
        fails: &[u64],
    ) -> Result<BytesSource, NoMemory>
        requires { 1 ≤ most }
        ensures { IfOk result (λ source. source ≡ new_source bytes.now most fails.now) }
    {
        Ok(BytesSource {
            bytes: bytes.to_vec(alloc)?,
            place: 0,
            most,
            fails: fails.to_vec(alloc)?,
            calls: 0,
            faults: 0,
        })
    }
}

impl Source for BytesSource {
    ghost left = { λ source. Some source.left };

    ghost faults = { λ source. source.faults };

    ghost reads = { λ source. source.calls };

    /// Gives the least of `most`, the room and what is left, from the front of what is left, and
    /// lets the rest of `into` stand. A call whose number is listed fails, gives nothing and
    /// raises the count of faults. Both counts stay at their last value, 2^64 - 1.
    fn read(&mut self, into: &mut [u8]) -> Result<usize, Failed>
        requires { 0 < length into.old }
        ensures bound { ReadsAtMost result into.new }
        ensures bytes { ReadConsumes (Some self.old.left) (Some self.new.left) result into.new }
        ensures kept_count { self.old.faults ≤ self.new.faults }
        ensures failed { OnErr result (Rose self.old.faults self.new.faults) }
        ensures one_more { self.new.calls ≡ raised self.old.calls }

        ensures listed { IsErr result ↔ Contains self.old.fails (raised self.old.calls) }
        ensures count { IfOk result (λ count. count ≡ count_read self.old (length into.old)) }
        ensures given { MatchResult result
            (λ count. into.new ≡ take count self.old.left ++ drop count into.old)
            (λ _. into.new ≡ into.old) }
        ensures after { self.new ≡ after_read self.old result }
    {
        self.calls = self.calls.saturating_add(1);
        if self.fails.contains(&self.calls) {
            self.faults = self.faults.saturating_add(1);
            return Err(Failed);
        }
        let count = copy_left(&self.bytes, self.place, into, self.most);
        self.place += count;
        Ok(count)
    }
}
