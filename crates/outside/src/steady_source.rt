//! A source in memory that never fails.

ghost use Rattle.std.specs.Prelude.{◌≡◌, ◌<◌, ◌≤◌, ◌++◌, length, take, drop, min, Some, Ok, IfOk, OnErr, MatchResult};
ghost use Rattle.std.specs.Io.{ReadsAtMost};
ghost use Rattle.std.specs.Io.KnownBytes.{ReadConsumes};
ghost use Rattle.outside.specs.Faults.{raised, Rose};
ghost use Rattle.outside.specs.SteadySource.{new_steady};

use crate::copying::copy_left;
use crate::faults::{Failed, NoMemory};
use crate::reading::Source;
use std::alloc::Global;
use std::marker::Model;

/// A source over bytes in memory that never fails, and gives as many as there is room for.
/// Contracts see the bytes still to come, and how many reads were made.
#[derive(Debug, Drop)]
pub struct SteadySource {
    bytes: Vec<u8>,
    place: usize,
    reads: u64,
}

impl Model for SteadySource {
    ghost use Rattle.std.specs.Prelude.{◌≤◌, length, drop};
    ghost use Rattle.outside.specs.SteadySource.{SteadyState};

    ghost Value = { SteadyState };

    ghost view = { λ s. record { left = drop s.place s.bytes.items; reads = s.reads } };

    ghost invariant = { λ s. s.place ≤ length s.bytes.items };
}

impl SteadySource {
    /// A source of these bytes.
    ///
    /// # Errors
    ///
    /// [`NoMemory`] where memory runs out.
    pub fn new(alloc: Global, bytes: &[u8]) -> Result<SteadySource, NoMemory>
        ensures { IfOk result (λ source. source ≡ new_steady bytes.now) }
    {
        Ok(SteadySource {
            bytes: bytes.to_vec(alloc)?,
            place: 0,
            reads: 0,
        })
    }
}

impl Source for SteadySource {
    ghost left = { λ source. Some source.left };

    ghost faults = { λ _. 0 };

    ghost reads = { λ source. source.reads };

    /// Gives the lesser of the room and what is left, from the front of what is left, and lets
    /// the rest of `into` stand.
    ///
    /// # Errors
    ///
    /// None.
    fn read(&mut self, into: &mut [u8]) -> Result<usize, Failed>
        requires { 0 < length into.old }
        ensures bound { ReadsAtMost result into.new }
        ensures bytes { ReadConsumes (Some self.old.left) (Some self.new.left) result into.new }
        ensures one_more { self.new.reads ≡ raised self.old.reads }

        ensures count { result ≡ Ok (min (length into.old) (length self.old.left)) }
        ensures given { IfOk result (λ count. into.new ≡ take count self.old.left ++ drop count into.old) }
        ensures after { IfOk result (λ count. self.new.left ≡ drop count self.old.left) }
    {
        self.reads = self.reads.saturating_add(1);
        let room = into.len();
        let count = copy_left(&self.bytes, self.place, into, room);
        self.place += count;
        Ok(count)
    }
}
