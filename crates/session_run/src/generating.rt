//! A generated session is played, and its journal summed up.

ghost use Rattle.std.specs.Prelude.{◌≡◌, ◌≤◌, IfOk, false};
ghost use Rattle.outside.specs.Faults.{Rose};
ghost use Rattle.session_io.specs.Status.{is_of_disk};
ghost use Rattle.session_run.specs.Journal.{IsSummaryOf};
ghost use Rattle.session_run.specs.Outcomes.{Generated};

use desk_market::journal_of;
use load_maker::{session_text, summary};
use market_text::{TextFault, read_session};
use outside::Sink;
use session_io::{Status, write_lines};
use std::alloc::Global;
use zone_graph::{NoMemory, Text};

/// Plays the session that is generated for so many commands in the order of its lines, and writes
/// the summary of its journal. Nothing is read.
pub fn generate<K: Sink>(alloc: Global, commands: u32, sink: &mut K) -> Status
    requires some { 1 ≤ commands }
    requires few { commands ≤ 100000 }
    ensures no_disk { is_of_disk result ≡ false }
    ensures outcome { Generated commands result (K.written sink.old) (K.written sink.new) }
    ensures write_count { K.faults sink.old ≤ K.faults sink.new }
    ensures write_fault { result ≡ Status.WriteFault → Rose (K.faults sink.old) (K.faults sink.new) }
{
    let Ok(summary) = summary_of(alloc, commands) else {
        return Status::NoMemory;
    };
    match write_lines(sink, summary.bytes()) {
        Ok(()) => Status::Done,
        Err(_) => Status::WriteFault,
    }
}

// The summary of the journal of the session that is generated for so many commands.
fn summary_of(alloc: Global, commands: u32) -> Result<Text, NoMemory>
    requires some { 1 ≤ commands }
    requires few { commands ≤ 100000 }
    ensures { IfOk result (IsSummaryOf commands) }
{
    let text = session_text(alloc, commands)?;
    let session = match read_session(alloc, text.bytes()) {
        Ok(session) => session,
        Err(TextFault::NoMemory) => return Err(NoMemory),
        Err(TextFault::BadSession { .. }) => unreachable!(),
    };
    let journal = journal_of(alloc, session)?;
    summary(alloc, journal.entries())
}
