//! A text is written.

ghost use Rattle.std.specs.Prelude.{◌≡◌, ◌≤◌, MatchResult};
ghost use Rattle.outside.specs.Faults.{Rose};
ghost use Rattle.record_run.specs.Writing.{Writes};

use outside::Sink;
use session_io::{Status, write_lines};
use zone_graph::{NoMemory, Text};

/// Writes a text, line by line.
pub fn write_text<K: Sink>(text: &[u8], sink: &mut K) -> Status
    ensures text { Writes text.now result (K.written sink.old) (K.written sink.new) }
    ensures count { K.faults sink.old ≤ K.faults sink.new }
    ensures fault { result ≡ Status.WriteFault → Rose (K.faults sink.old) (K.faults sink.new) }
{
    match write_lines(sink, text) {
        Ok(()) => Status::Done,
        Err(_) => Status::WriteFault,
    }
}

/// Writes a text, where there was memory to make it.
pub(crate) fn write_made<K: Sink>(made: Result<Text, NoMemory>, sink: &mut K) -> Status
    ensures text { MatchResult made (λ text. Writes text result (K.written sink.old) (K.written sink.new)) (λ _. (result ≡ Status.NoMemory) × (sink.new ≡ sink.old)) }
    ensures count { K.faults sink.old ≤ K.faults sink.new }
    ensures fault { result ≡ Status.WriteFault → Rose (K.faults sink.old) (K.faults sink.new) }
{
    match made {
        Ok(text) => write_text(text.bytes(), sink),
        Err(_) => Status::NoMemory,
    }
}
