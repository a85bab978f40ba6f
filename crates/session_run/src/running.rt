//! A run, from the words of the command line to the written journal.

ghost use Rattle.std.specs.Prelude.{◌≡◌, ◌≢◌, ◌≤◌, ◌↔◌, ◌⊎◌, ℕ, List, IsTrue, Some, None, Ok, false, true};
ghost use Rattle.outside.specs.Faults.{Rose};
ghost use Rattle.record_run.specs.Outcomes.{Audited, CompletesRecords, Shipped};
ghost use Rattle.session_io.specs.Sources.{ReadsUpTo};
ghost use Rattle.session_io.specs.Outcomes.{EndsWell};
ghost use Rattle.session_run.specs.Outcomes.{CompletesSessions, Generated, Replayed, Traded};
ghost use Rattle.session_io.specs.Reading.{ReadsWithin, longest_record, longest_session};
ghost use Rattle.session_run.specs.Reading.{Reads, longest_input};
ghost use Rattle.session_io.specs.Status.{is_of_disk, writes_nothing};
ghost use Rattle.disk_model.specs.Moments.{LeavesOnly};
ghost use Rattle.durable_journal.specs.Resting.{IsImageOf};
ghost use Rattle.market_text.specs.Text.{session_of_text};
ghost use Rattle.market_text.specs.declared.session.Session.{Session as SessionValue};
ghost use Rattle.stored_journal.specs.Lines.{TellsContents};
ghost use Rattle.session_run.specs.Recovering.{CompletesRecovering, IsRecoveredOn, ReadsToRecover, Recovered};
ghost use Rattle.session_run.specs.Storing.{CompletesStoring, IsEmptyDisk, ReadsToStore, Stored, StoresPartOf, lines_of_session};
ghost use Rattle.command_words.specs.Words.{ReadsRecord, WorksOnDisk, task_of as task_named, is_trade as trades};
ghost use Rattle.command_words.specs.declared.words.Task.TheVariants as task;

use crate::generating::generate;
use crate::recovering::recover;
use crate::sessions::{session_from, write_to};
use crate::storing::store;
use command_words::{Task, is_trade, task_of};
use desk_market::journal_of;
use disk_model::Disk;
use outside::{Gate, Sink, Source};
use record_run::{audit_record, ship_record};
use session_io::Status;
use session_trade::trade_session;
use std::alloc::Global;
use std::sync::Wait;
use std::thread::Threads;
use zone_graph::Word;

/// Does what the words of a command line ask for.
///
/// `replay` reads a session from the source, to its end, plays it in the order of its lines, and
/// writes the journal to the sink, a line for each entry. `trade` does the same, but each caller
/// gives its commands on a thread of its own where threads can be made: the journal is that of the
/// session with its callers in the order in which they came. The gate is told of each command of
/// `trade`, which may wait. `generate N` reads nothing, plays the session that is generated for N
/// commands as `replay` does, and writes the summary of its journal. `audit` reads a session, a line
/// that is exactly `journal`, and a journal up to the end of the source, and writes how many entries
/// it has where it is a complete journal of the session; `ship` reads the same, and writes the
/// schedule that follows from it. `store` plays a session as `replay` does, appends the line of each entry, without its
/// line feed, to a durable journal on the disk before the next command is taken, and writes all bytes of the disk. `recover`
/// reads a session, a line that is exactly `image`, and the image of a disk up to the end of the source: it writes the image
/// on the disk, plays the commands of the lines that it stores, each of which must be the market's, then those that are left,
/// whose lines it appends, and writes the whole journal.
/// Every other list of words is [`Status::Usage`].
pub fn run<R: Threads + Wait + Sync, S: Source, K: Sink, G: Gate, D: Disk>(
    rt: &R,
    alloc: Global,
    words: &[Word],
    source: &mut S,
    sink: &mut K,
    gate: &G,
    disk: &mut D,
) -> Status
    requires empty { IsEmptyDisk (D.contents disk.old) }
    ensures usage { (result ≡ Status.Usage) ↔ ((task_named words.now ≡ None) × (trades words.now ≡ false)) }
    ensures unread { trades words.now ≡ false → task_named words.now ≢ Some task.Replay → ¬ ReadsRecord (task_named words.now) → ¬ WorksOnDisk (task_named words.now) → source.new ≡ source.old }
    ensures unwritten { IsTrue (writes_nothing result) → sink.new ≡ sink.old }
    ensures replayed { (bytes : List ℕ) → task_named words.now ≡ Some task.Replay → S.left source.old ≡ Some bytes → Replayed bytes result (K.written sink.old) (K.written sink.new) }
    ensures traded { (bytes : List ℕ) → trades words.now ≡ true → S.left source.old ≡ Some bytes → Traded bytes result (K.written sink.old) (K.written sink.new) }
    ensures audited { (bytes : List ℕ) → task_named words.now ≡ Some task.Audit → S.left source.old ≡ Some bytes → Audited bytes result (K.written sink.old) (K.written sink.new) }
    ensures shipped { (bytes : List ℕ) → task_named words.now ≡ Some task.Ship → S.left source.old ≡ Some bytes → Shipped bytes result (K.written sink.old) (K.written sink.new) }
    ensures stored { (bytes : List ℕ) → task_named words.now ≡ Some task.Store → S.left source.old ≡ Some bytes → Stored (TellsContents (D.contents disk.old)) bytes result (K.written sink.old) (K.written sink.new) }
    ensures stored_on_disk { (bytes : List ℕ) (session : SessionValue) → task_named words.now ≡ Some task.Store → S.left source.old ≡ Some bytes → TellsContents (D.contents disk.old)
        → session_of_text bytes ≡ Ok session → result ≡ Status.Done → IsImageOf (D.contents disk.new) (lines_of_session session) }
    ensures stored_any_moment { (bytes : List ℕ) → task_named words.now ≡ Some task.Store → S.left source.old ≡ Some bytes → TellsContents (D.contents disk.old)
        → LeavesOnly D.moment D.left_since disk.old disk.new (StoresPartOf bytes) }
    ensures complete_stored { task_named words.now ≡ Some task.Store → CompletesStoring (S.left source.old) (TellsContents (D.contents disk.old)) (Rose (S.faults source.old) (S.faults source.new)) (Rose (K.faults sink.old) (K.faults sink.new)) (Rose (D.faults disk.old) (D.faults disk.new)) result }
    ensures reads_stored { task_named words.now ≡ Some task.Store → result ≢ Status.NoMemory → ReadsToStore (TellsContents (D.contents disk.old)) (S.left source.old) (S.left source.new) result }
    ensures recovered { (bytes : List ℕ) → task_named words.now ≡ Some task.Recover → S.left source.old ≡ Some bytes → Recovered (TellsContents (D.contents disk.old)) bytes result (K.written sink.old) (K.written sink.new) }
    ensures recovered_on_disk { (bytes : List ℕ) → task_named words.now ≡ Some task.Recover → S.left source.old ≡ Some bytes → TellsContents (D.contents disk.old)
        → result ≡ Status.Done → IsRecoveredOn (D.contents disk.new) bytes }
    ensures complete_recovered { task_named words.now ≡ Some task.Recover → CompletesRecovering (S.left source.old) (TellsContents (D.contents disk.old)) (Rose (S.faults source.old) (S.faults source.new)) (Rose (K.faults sink.old) (K.faults sink.new)) (Rose (D.faults disk.old) (D.faults disk.new)) result }
    ensures reads_recovered { task_named words.now ≡ Some task.Recover → result ≢ Status.NoMemory → ReadsToRecover (TellsContents (D.contents disk.old)) (S.left source.old) (S.left source.new) result }
    ensures generated { (commands : ℕ) → task_named words.now ≡ Some (task.Generate commands) → Generated commands result (K.written sink.old) (K.written sink.new) }
    ensures complete { task_named words.now ≡ Some task.Replay → CompletesSessions (S.left source.old) (Rose (S.faults source.old) (S.faults source.new)) (Rose (K.faults sink.old) (K.faults sink.new)) result }
    ensures complete_traded { trades words.now ≡ true → CompletesSessions (S.left source.old) (Rose (S.faults source.old) (S.faults source.new)) (Rose (K.faults sink.old) (K.faults sink.new)) result }
    ensures complete_record { ReadsRecord (task_named words.now) → CompletesRecords (S.left source.old) (Rose (S.faults source.old) (S.faults source.new)) (Rose (K.faults sink.old) (K.faults sink.new)) result }
    ensures complete_generated { (commands : ℕ) → task_named words.now ≡ Some (task.Generate commands) → ¬ Rose (K.faults sink.old) (K.faults sink.new) → EndsWell result }
    ensures reads { task_named words.now ≡ Some task.Replay → result ≢ Status.NoMemory → Reads (S.left source.old) (S.left source.new) result }
    ensures reads_traded { trades words.now ≡ true → result ≢ Status.NoMemory → Reads (S.left source.old) (S.left source.new) result }
    ensures reads_record { ReadsRecord (task_named words.now) → result ≢ Status.NoMemory → ReadsUpTo longest_record (S.left source.old) (S.left source.new) result }
    ensures illegal { (entry : ℕ) → result ≡ Status.Illegal entry → (ReadsRecord (task_named words.now) ⊎ (task_named words.now ≡ Some task.Recover)) × (trades words.now ≡ false) }
    ensures read_count { S.faults source.old ≤ S.faults source.new }
    ensures read_fault { result ≡ Status.ReadFault → Rose (S.faults source.old) (S.faults source.new) }
    ensures read_bound { ReadsWithin (longest_input (task_named words.now)) (S.reads source.old) (S.reads source.new) }
    ensures write_count { K.faults sink.old ≤ K.faults sink.new }
    ensures write_fault { result ≡ Status.WriteFault → Rose (K.faults sink.old) (K.faults sink.new) }
    ensures disk_alone { ¬ WorksOnDisk (task_named words.now) → disk.new ≡ disk.old }
    ensures disk_ends { is_of_disk result ≡ true → WorksOnDisk (task_named words.now) }
    ensures disk_count { D.faults disk.old ≤ D.faults disk.new }
    ensures disk_fault { result ≡ Status.DiskFault → Rose (D.faults disk.old) (D.faults disk.new) }
{
    if is_trade(words) {
        return trade(rt, alloc, source, sink, gate);
    }
    run_alone(alloc, words, source, sink, disk)
}

/// Does what the words ask for on the calling thread alone. It waits for nobody.
pub fn run_alone<S: Source, K: Sink, D: Disk>(
    alloc: Global,
    words: &[Word],
    source: &mut S,
    sink: &mut K,
    disk: &mut D,
) -> Status
    requires alone { trades words.now ≡ false }
    requires empty { IsEmptyDisk (D.contents disk.old) }
    ensures usage { (result ≡ Status.Usage) ↔ (task_named words.now ≡ None) }
    ensures unread { task_named words.now ≢ Some task.Replay → ¬ ReadsRecord (task_named words.now) → ¬ WorksOnDisk (task_named words.now) → source.new ≡ source.old }
    ensures unwritten { IsTrue (writes_nothing result) → sink.new ≡ sink.old }
    ensures replayed { (bytes : List ℕ) → task_named words.now ≡ Some task.Replay → S.left source.old ≡ Some bytes → Replayed bytes result (K.written sink.old) (K.written sink.new) }
    ensures audited { (bytes : List ℕ) → task_named words.now ≡ Some task.Audit → S.left source.old ≡ Some bytes → Audited bytes result (K.written sink.old) (K.written sink.new) }
    ensures shipped { (bytes : List ℕ) → task_named words.now ≡ Some task.Ship → S.left source.old ≡ Some bytes → Shipped bytes result (K.written sink.old) (K.written sink.new) }
    ensures stored { (bytes : List ℕ) → task_named words.now ≡ Some task.Store → S.left source.old ≡ Some bytes → Stored (TellsContents (D.contents disk.old)) bytes result (K.written sink.old) (K.written sink.new) }
    ensures stored_on_disk { (bytes : List ℕ) (session : SessionValue) → task_named words.now ≡ Some task.Store → S.left source.old ≡ Some bytes → TellsContents (D.contents disk.old)
        → session_of_text bytes ≡ Ok session → result ≡ Status.Done → IsImageOf (D.contents disk.new) (lines_of_session session) }
    ensures stored_any_moment { (bytes : List ℕ) → task_named words.now ≡ Some task.Store → S.left source.old ≡ Some bytes → TellsContents (D.contents disk.old)
        → LeavesOnly D.moment D.left_since disk.old disk.new (StoresPartOf bytes) }
    ensures complete_stored { task_named words.now ≡ Some task.Store → CompletesStoring (S.left source.old) (TellsContents (D.contents disk.old)) (Rose (S.faults source.old) (S.faults source.new)) (Rose (K.faults sink.old) (K.faults sink.new)) (Rose (D.faults disk.old) (D.faults disk.new)) result }
    ensures reads_stored { task_named words.now ≡ Some task.Store → result ≢ Status.NoMemory → ReadsToStore (TellsContents (D.contents disk.old)) (S.left source.old) (S.left source.new) result }
    ensures recovered { (bytes : List ℕ) → task_named words.now ≡ Some task.Recover → S.left source.old ≡ Some bytes → Recovered (TellsContents (D.contents disk.old)) bytes result (K.written sink.old) (K.written sink.new) }
    ensures recovered_on_disk { (bytes : List ℕ) → task_named words.now ≡ Some task.Recover → S.left source.old ≡ Some bytes → TellsContents (D.contents disk.old)
        → result ≡ Status.Done → IsRecoveredOn (D.contents disk.new) bytes }
    ensures complete_recovered { task_named words.now ≡ Some task.Recover → CompletesRecovering (S.left source.old) (TellsContents (D.contents disk.old)) (Rose (S.faults source.old) (S.faults source.new)) (Rose (K.faults sink.old) (K.faults sink.new)) (Rose (D.faults disk.old) (D.faults disk.new)) result }
    ensures reads_recovered { task_named words.now ≡ Some task.Recover → result ≢ Status.NoMemory → ReadsToRecover (TellsContents (D.contents disk.old)) (S.left source.old) (S.left source.new) result }
    ensures generated { (commands : ℕ) → task_named words.now ≡ Some (task.Generate commands) → Generated commands result (K.written sink.old) (K.written sink.new) }
    ensures complete { task_named words.now ≡ Some task.Replay → CompletesSessions (S.left source.old) (Rose (S.faults source.old) (S.faults source.new)) (Rose (K.faults sink.old) (K.faults sink.new)) result }
    ensures complete_record { ReadsRecord (task_named words.now) → CompletesRecords (S.left source.old) (Rose (S.faults source.old) (S.faults source.new)) (Rose (K.faults sink.old) (K.faults sink.new)) result }
    ensures complete_generated { (commands : ℕ) → task_named words.now ≡ Some (task.Generate commands) → ¬ Rose (K.faults sink.old) (K.faults sink.new) → EndsWell result }
    ensures reads { task_named words.now ≡ Some task.Replay → result ≢ Status.NoMemory → Reads (S.left source.old) (S.left source.new) result }
    ensures reads_record { ReadsRecord (task_named words.now) → result ≢ Status.NoMemory → ReadsUpTo longest_record (S.left source.old) (S.left source.new) result }
    ensures illegal { (entry : ℕ) → result ≡ Status.Illegal entry → ReadsRecord (task_named words.now) ⊎ (task_named words.now ≡ Some task.Recover) }
    ensures read_count { S.faults source.old ≤ S.faults source.new }
    ensures read_fault { result ≡ Status.ReadFault → Rose (S.faults source.old) (S.faults source.new) }
    ensures read_bound { ReadsWithin (longest_input (task_named words.now)) (S.reads source.old) (S.reads source.new) }
    ensures write_count { K.faults sink.old ≤ K.faults sink.new }
    ensures write_fault { result ≡ Status.WriteFault → Rose (K.faults sink.old) (K.faults sink.new) }
    ensures disk_alone { ¬ WorksOnDisk (task_named words.now) → disk.new ≡ disk.old }
    ensures disk_ends { is_of_disk result ≡ true → WorksOnDisk (task_named words.now) }
    ensures disk_count { D.faults disk.old ≤ D.faults disk.new }
    ensures disk_fault { result ≡ Status.DiskFault → Rose (D.faults disk.old) (D.faults disk.new) }
{
    match task_of(alloc, words) {
        Ok(Some(Task::Replay)) => replay(alloc, source, sink),
        Ok(Some(Task::Audit)) => audit_record(alloc, source, sink),
        Ok(Some(Task::Ship)) => ship_record(alloc, source, sink),
        Ok(Some(Task::Store)) => store(alloc, source, sink, disk),
        Ok(Some(Task::Recover)) => recover(alloc, source, sink, disk),
        Ok(Some(Task::Generate { commands })) => generate(alloc, commands, sink),
        Ok(None) => Status::Usage,
        Err(_) => Status::NoMemory,
    }
}

// Reads a session, plays it and writes the journal.
fn replay<S: Source, K: Sink>(alloc: Global, source: &mut S, sink: &mut K) -> Status
    ensures usage { result ≢ Status.Usage }
    ensures unwritten { IsTrue (writes_nothing result) → sink.new ≡ sink.old }
    ensures replayed { (bytes : List ℕ) → S.left source.old ≡ Some bytes → Replayed bytes result (K.written sink.old) (K.written sink.new) }
    ensures reads { result ≢ Status.NoMemory → Reads (S.left source.old) (S.left source.new) result }
    ensures legal { (entry : ℕ) → result ≢ Status.Illegal entry }
    ensures no_disk { is_of_disk result ≡ false }
    ensures read_count { S.faults source.old ≤ S.faults source.new }
    ensures read_fault { result ≡ Status.ReadFault → Rose (S.faults source.old) (S.faults source.new) }
    ensures read_bound { ReadsWithin longest_session (S.reads source.old) (S.reads source.new) }
    ensures write_count { K.faults sink.old ≤ K.faults sink.new }
    ensures write_fault { result ≡ Status.WriteFault → Rose (K.faults sink.old) (K.faults sink.new) }
{
    let session = match session_from(alloc, source) {
        Ok(session) => session,
        Err(status) => return status,
    };
    match journal_of(alloc, session) {
        Ok(journal) => write_to(alloc, &journal, sink),
        Err(_) => Status::NoMemory,
    }
}

// Reads a session, trades it and writes the journal.
fn trade<R: Threads + Wait + Sync, S: Source, K: Sink, G: Gate>(
    rt: &R,
    alloc: Global,
    source: &mut S,
    sink: &mut K,
    gate: &G,
) -> Status
    ensures usage { result ≢ Status.Usage }
    ensures unwritten { IsTrue (writes_nothing result) → sink.new ≡ sink.old }
    ensures traded { (bytes : List ℕ) → S.left source.old ≡ Some bytes → Traded bytes result (K.written sink.old) (K.written sink.new) }
    ensures reads { result ≢ Status.NoMemory → Reads (S.left source.old) (S.left source.new) result }
    ensures legal { (entry : ℕ) → result ≢ Status.Illegal entry }
    ensures no_disk { is_of_disk result ≡ false }
    ensures read_count { S.faults source.old ≤ S.faults source.new }
    ensures read_fault { result ≡ Status.ReadFault → Rose (S.faults source.old) (S.faults source.new) }
    ensures read_bound { ReadsWithin longest_session (S.reads source.old) (S.reads source.new) }
    ensures write_count { K.faults sink.old ≤ K.faults sink.new }
    ensures write_fault { result ≡ Status.WriteFault → Rose (K.faults sink.old) (K.faults sink.new) }
{
    let session = match session_from(alloc, source) {
        Ok(session) => session,
        Err(status) => return status,
    };
    match trade_session(rt, alloc, gate, session) {
        Ok(journal) => write_to(alloc, &journal, sink),
        Err(_) => Status::NoMemory,
    }
}
