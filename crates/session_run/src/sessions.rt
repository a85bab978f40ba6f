//! A session is read from a source, and a journal is written to a sink.

ghost use Rattle.std.specs.Prelude.{◌≡◌, ◌≢◌, ◌≤◌, ℕ, All, None, Err, IfErr, IfOk};
ghost use Rattle.outside.specs.Faults.{Rose};
ghost use Rattle.zone_graph.specs.Grid.{JoinsZones};
ghost use Rattle.zone_graph.specs.GridFault.{grid_fault};
ghost use Rattle.market_model.specs.Grid.{graph_of};
ghost use Rattle.market_model.specs.Naming.{IsEntryIn, IsNamed};
ghost use Rattle.market_text.specs.Session.{IsSession};
ghost use Rattle.session_io.specs.JournalText.{journal_text};
ghost use Rattle.session_io.specs.Reading.{ReadsWithin, longest_session};
ghost use Rattle.record_run.specs.Writing.{Writes};
ghost use Rattle.session_run.specs.Reading.{ReadsNoSession, ReadsSession};

use market_text::{Session, TextFault, read_session};
use outside::{Sink, Source};
use record_run::input_from;
use session_io::{LONGEST_SESSION, Status, WriteError, write_journal};
use std::alloc::Global;
use trade_journal::Journal;

/// Reads a session from a source, which is read to its end.
///
/// # Errors
///
/// How the run ends where there is none.
pub fn session_from<S: Source>(alloc: Global, source: &mut S) -> Result<Session, Status>
    ensures shape { IfOk result IsSession }
    ensures joined { IfOk result (λ session. JoinsZones (graph_of session.setup)) }
    ensures sound { IfOk result (λ session. grid_fault (graph_of session.setup) ≡ None) }
    ensures read { IfOk result (λ session. ReadsSession session (S.left source.old) (S.left source.new)) }
    ensures stops { IfErr result (ReadsNoSession (S.left source.old) (S.left source.new)) }
    ensures legal { (entry : ℕ) → result ≢ Err (Status.Illegal entry) }
    ensures count { S.faults source.old ≤ S.faults source.new }
    ensures fault { result ≡ Err Status.ReadFault → Rose (S.faults source.old) (S.faults source.new) }
    ensures read_bound { ReadsWithin longest_session (S.reads source.old) (S.reads source.new) }
{
    let bytes = match input_from(alloc, source, LONGEST_SESSION) {
        Ok(bytes) => bytes,
        Err(status) => return Err(status),
    };
    match read_session(alloc, bytes.as_slice()) {
        Ok(session) => Ok(session),
        Err(TextFault::BadSession { line }) => Err(Status::BadSession { line }),
        Err(TextFault::NoMemory) => Err(Status::NoMemory),
    }
}

/// Writes a journal to a sink, a line for each entry.
pub fn write_to<K: Sink>(alloc: Global, journal: &Journal, sink: &mut K) -> Status
    requires named { IsNamed journal.now.setup }
    requires within { All (IsEntryIn journal.now.setup) journal.now.entries }
    ensures text { Writes (journal_text journal.now.setup journal.now.entries) result (K.written sink.old) (K.written sink.new) }
    ensures count { K.faults sink.old ≤ K.faults sink.new }
    ensures fault { result ≡ Status.WriteFault → Rose (K.faults sink.old) (K.faults sink.new) }
{
    match write_journal(alloc, journal.setup(), journal.entries(), sink) {
        Ok(()) => Status::Done,
        Err(WriteError::Fault) => Status::WriteFault,
        Err(WriteError::NoMemory) => Status::NoMemory,
    }
}
