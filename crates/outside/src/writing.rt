//! The trait of what takes bytes.

ghost use Rattle.std.specs.Prelude.{ℕ, ◌<◌, ◌≤◌, List, length, Option, IfOk, OnErr};
ghost use Rattle.std.specs.Io.{WritesAtMost};
ghost use Rattle.std.specs.Io.KnownBytes.{WriteAppends};
ghost use Rattle.outside.specs.Faults.{Rose};

use crate::faults::Failed;

/// A sink of bytes: a file, a pipe, or bytes in memory.
///
/// For clauses, `written` is the bytes that it holds where the type tells them, and `faults` is a
/// count of its failed writes, which never falls.
pub trait Sink {
    ghost written: { Self → Option (List ℕ) };

    ghost faults: { Self → ℕ };

    /// Writes some bytes from the front of `piece`, at least one, and answers how many.
    ///
    /// Where `written` is told, it grows by these bytes.
    ///
    /// # Errors
    ///
    /// [`Failed`] only where the count of faults rose in this call, or stands at its last value,
    /// 2^64 - 1. Nothing is added to `written` then. To take nothing of a piece is a failure.
    fn write(&mut self, piece: &[u8]) -> Result<usize, Failed>
        requires { 0 < length piece.now }
        ensures some { IfOk result (λ count. 1 ≤ count) }
        ensures bound { WritesAtMost result piece.now }
        ensures bytes { WriteAppends (written self.old) (written self.new) result piece.now }
        ensures kept_count { faults self.old ≤ faults self.new }
        ensures failed { OnErr result (Rose (faults self.old) (faults self.new)) };
}
