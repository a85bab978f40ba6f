//! The journal is written line by line.

ghost use Rattle.std.specs.Prelude.{◌≡◌, ◌<◌, ◌≤◌, ℕ, List, All, Some, OnOk, OnErr, length};
ghost use Rattle.std.specs.Io.KnownBytes.{Appends};
ghost use Rattle.outside.specs.Faults.{Rose};
ghost use Rattle.market_model.specs.Naming.{IsEntryIn, IsNamed};
ghost use Rattle.session_io.specs.JournalText.{journal_text};
ghost use Rattle.session_io.specs.Writing.{Wrote, writing_text};

use journal_print::print_entry;
use market_model::{Entry, Setup};
use outside::{Failed, Sink};
use std::alloc::Global;
use std::error::Error;
use std::fmt;
use zone_graph::NoMemory;

/// Why a journal was not written.
#[derive(Clone, Copy, Debug, PartialEq, Eq)]
pub enum WriteError {
    /// A write failed.
    Fault,
    /// There was no memory.
    NoMemory,
}

impl fmt::Display for WriteError {
    ghost output = { λ fault. Some (writing_text fault) };

    fn fmt<W: fmt::Write>(&self, f: &mut fmt::Formatter<W>) -> fmt::Result {
        f.write_str(match self {
            WriteError::Fault => "a write failed",
            WriteError::NoMemory => "no memory",
        })
    }
}

impl Error for WriteError {}

impl From<NoMemory> for WriteError {
    ghost use Rattle.std.specs.Prelude.{◌≡◌};
    ghost use Rattle.session_io.specs.declared.writing.WriteError.TheVariants.{NoMemory};

    ghost from_gives = { λ _ error. error ≡ NoMemory };

    fn from(_error: NoMemory) -> WriteError {
        WriteError::NoMemory
    }
}

impl From<Failed> for WriteError {
    ghost use Rattle.std.specs.Prelude.{◌≡◌};
    ghost use Rattle.session_io.specs.declared.writing.WriteError.TheVariants.{Fault};

    ghost from_gives = { λ _ error. error ≡ Fault };

    fn from(_error: Failed) -> WriteError {
        WriteError::Fault
    }
}

/// Writes the entries, one line each. Each write is handed all that is left of one line.
pub fn write_journal<K: Sink>(
    alloc: Global,
    setup: &Setup,
    entries: &[Entry],
    sink: &mut K,
) -> Result<(), WriteError>
    requires named { IsNamed setup.now }
    requires within { All (IsEntryIn setup.now) entries.now }
    ensures count { K.faults sink.old ≤ K.faults sink.new }
    ensures ok { OnOk result (Appends (K.written sink.old) (K.written sink.new) (journal_text setup.now entries.now)) }
    ensures front { OnErr result ((rest : List ℕ) × Wrote (K.written sink.old) (K.written sink.new) (journal_text setup.now entries.now) rest) }
    ensures fault { result ≡ Err WriteError.Fault → Rose (K.faults sink.old) (K.faults sink.new) }
{
    for (index, entry) in entries.iter().enumerate() {
        let line = print_entry(alloc, setup, index as u64 + 1, entry)?;
        write_line(sink, line.bytes())?;
    }
    Ok(())
}

/// Writes a text, line by line. Each write is handed all that is left of one line.
pub fn write_lines<K: Sink>(sink: &mut K, text: &[u8]) -> Result<(), Failed>
    ensures count { K.faults sink.old ≤ K.faults sink.new }
    ensures ok { OnOk result (Appends (K.written sink.old) (K.written sink.new) text.now) }
    ensures front { OnErr result ((rest : List ℕ) × Wrote (K.written sink.old) (K.written sink.new) text.now rest) }
    ensures fault { OnErr result (Rose (K.faults sink.old) (K.faults sink.new)) }
{
    let mut rest = text;
    while !rest.is_empty() {
        let (line, after) = rest.split_at(line_length(rest));
        write_line(sink, line)?;
        rest = after;
    }
    Ok(())
}

// The length of the first line of a text, with its line feed where it has one.
fn line_length(text: &[u8]) -> usize
    requires { 0 < length text.now }
    ensures some { 0 < result }
    ensures within { result ≤ length text.now }
{
    match text.iter().position(|byte| *byte == b'\n') {
        Some(place) => place + 1,
        None => text.len(),
    }
}

// Writes one line, whatever part of it each write takes.
fn write_line<K: Sink>(sink: &mut K, line: &[u8]) -> Result<(), Failed>
    ensures count { K.faults sink.old ≤ K.faults sink.new }
    ensures ok { OnOk result (Appends (K.written sink.old) (K.written sink.new) line.now) }
    ensures front { OnErr result ((rest : List ℕ) × Wrote (K.written sink.old) (K.written sink.new) line.now rest) }
    ensures fault { OnErr result (Rose (K.faults sink.old) (K.faults sink.new)) }
{
    let mut rest = line;
    while !rest.is_empty() {
        let count = sink.write(rest)?;
        rest = rest.split_at(count).1;
    }
    Ok(())
}
