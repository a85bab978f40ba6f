//! A sink over a writer of the standard library.

ghost use Rattle.std.specs.Prelude.{◌≡◌, ◌<◌, ◌≤◌, length, IfOk, OnErr};
ghost use Rattle.std.specs.Io.{WritesAtMost};
ghost use Rattle.std.specs.Io.KnownBytes.{WriteAppends};
ghost use Rattle.outside.specs.Faults.{Rose, faults_after};
ghost use Rattle.outside.specs.Adapters.{sink_writer, sink_faults};

use crate::faults::Failed;
use crate::writing::Sink;
use std::io::Write;

/// A sink over a writer. It tells the bytes written where the writer does, and counts the writes
/// that failed or took nothing.
#[derive(Debug, Drop)]
pub struct WriteSink<W> {
    writer: W,
    faults: u64,
}

impl<W> WriteSink<W> {
    /// A sink that writes to this writer, and has counted no fault.
    pub fn new(writer: W) -> WriteSink<W>
        ensures writer { sink_writer result ≡ writer }
        ensures faults { sink_faults result ≡ 0 }
    {
        WriteSink { writer, faults: 0 }
    }
}

impl<W: Write> Sink for WriteSink<W> {
    ghost written = { λ sink. W.contents (sink_writer sink) };

    ghost faults = { sink_faults };

    /// Takes what one write of the writer takes. The count of faults rises exactly where that
    /// write is an `Err` or takes nothing, and stays at its last value, 2^64 - 1.
    fn write(&mut self, piece: &[u8]) -> Result<usize, Failed>
        requires { 0 < length piece.now }
        ensures some { IfOk result (λ count. 1 ≤ count) }
        ensures bound { WritesAtMost result piece.now }
        ensures bytes { WriteAppends (W.contents (sink_writer self.old))
            (W.contents (sink_writer self.new)) result piece.now }
        ensures kept_count { sink_faults self.old ≤ sink_faults self.new }
        ensures failed { OnErr result (Rose (sink_faults self.old) (sink_faults self.new)) }

        ensures counted { sink_faults self.new ≡ faults_after (sink_faults self.old) result }
    {
        match self.writer.write(piece) {
            Ok(count) if count > 0 => Ok(count),
            Ok(_) | Err(_) => {
                self.faults = self.faults.saturating_add(1);
                Err(Failed)
            }
        }
    }
}
