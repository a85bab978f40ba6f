//! A source over a reader of the standard library.

ghost use Rattle.std.specs.Prelude.{◌≡◌, ◌<◌, ◌≤◌, length, OnErr};
ghost use Rattle.std.specs.Io.{ReadsAtMost};
ghost use Rattle.std.specs.Io.KnownBytes.{ReadConsumes};
ghost use Rattle.outside.specs.Faults.{raised, Rose, faults_after};
ghost use Rattle.outside.specs.Adapters.{source_reader, source_faults, source_reads};

use crate::faults::Failed;
use crate::reading::Source;
use std::io::Read;

/// A source over a reader. It tells the bytes still to come where the reader does, and counts its
/// reads and those that failed.
#[derive(Debug, Drop)]
pub struct ReadSource<R> {
    reader: R,
    faults: u64,
    reads: u64,
}

impl<R> ReadSource<R> {
    /// A source that reads from this reader, and has counted no read and no fault.
    pub fn new(reader: R) -> ReadSource<R>
        ensures reader { source_reader result ≡ reader }
        ensures faults { source_faults result ≡ 0 }
        ensures reads { source_reads result ≡ 0 }
    {
        ReadSource {
            reader,
            faults: 0,
            reads: 0,
        }
    }
}

impl<R: Read> Source for ReadSource<R> {
    ghost left = { λ source. R.remaining (source_reader source) };

    ghost faults = { source_faults };

    ghost reads = { source_reads };

    /// Gives what one read of the reader gives. The count of faults rises exactly where that read
    /// is an `Err`, and stays at its last value, 2^64 - 1.
    fn read(&mut self, into: &mut [u8]) -> Result<usize, Failed>
        requires { 0 < length into.old }
        ensures bound { ReadsAtMost result into.new }
        ensures bytes { ReadConsumes (R.remaining (source_reader self.old))
            (R.remaining (source_reader self.new)) result into.new }
        ensures kept_count { source_faults self.old ≤ source_faults self.new }
        ensures failed { OnErr result (Rose (source_faults self.old) (source_faults self.new)) }
        ensures one_more { source_reads self.new ≡ raised (source_reads self.old) }

        ensures counted { source_faults self.new ≡ faults_after (source_faults self.old) result }
    {
        self.reads = self.reads.saturating_add(1);
        match self.reader.read(into) {
            Ok(count) => Ok(count),
            Err(_) => {
                self.faults = self.faults.saturating_add(1);
                Err(Failed)
            }
        }
    }
}
