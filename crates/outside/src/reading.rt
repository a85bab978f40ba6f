//! The trait of what gives bytes.

ghost use Rattle.std.specs.Prelude.{◌≡◌, ℕ, ◌<◌, ◌≤◌, List, length, Option, OnErr};
ghost use Rattle.std.specs.Io.{ReadsAtMost};
ghost use Rattle.std.specs.Io.KnownBytes.{ReadConsumes};
ghost use Rattle.outside.specs.Faults.{raised, Rose};

use crate::faults::Failed;

/// A source of bytes: a file, a pipe, or bytes in memory.
///
/// For clauses, `left` is the bytes still to come where the type tells them, `faults` is a count of
/// its failed reads, which never falls, and `reads` is a count of all its reads.
pub trait Source {
    ghost left: { Self → Option (List ℕ) };

    ghost faults: { Self → ℕ };

    ghost reads: { Self → ℕ };

    /// Reads some bytes to the front of `into`, and answers how many. 0 is the end of the input.
    ///
    /// Where `left` is told, these are its first bytes, and `left` loses them. The count of reads
    /// rises by one, whatever the answer is, and stays at its last value, 2^64 - 1.
    ///
    /// # Errors
    ///
    /// [`Failed`] only where the count of faults rose in this call, or stands at its last value,
    /// 2^64 - 1. Nothing of `left` is taken then.
    fn read(&mut self, into: &mut [u8]) -> Result<usize, Failed>
        requires { 0 < length into.old }
        ensures bound { ReadsAtMost result into.new }
        ensures bytes { ReadConsumes (left self.old) (left self.new) result into.new }
        ensures kept_count { faults self.old ≤ faults self.new }
        ensures failed { OnErr result (Rose (faults self.old) (faults self.new)) }
        ensures one_more { reads self.new ≡ raised (reads self.old) };
}
