//! What is written of a record whose journal is complete.

ghost use Rattle.std.specs.Prelude.{◌≡◌, ◌≢◌, ◌≤◌, ℕ, List, IsTrue, Some, false, IfOk};
ghost use Rattle.outside.specs.Faults.{Rose};
ghost use Rattle.session_io.specs.Reading.{ReadsWithin, longest_record};
ghost use Rattle.session_io.specs.Sources.{ReadsUpTo};
ghost use Rattle.session_io.specs.Status.{is_of_disk, writes_nothing};
ghost use Rattle.record_run.specs.Outcomes.{Audited as AuditedSo, CompletesRecords, Shipped as ShippedSo};
ghost use Rattle.record_run.specs.Records.{legal_line};

use crate::auditing::audited_from;
use crate::writing::write_made;
use outside::{Sink, Source};
use session_io::Status;
use ship_schedule::schedule;
use std::alloc::Global;
use zone_graph::{NoMemory, Text};

/// Reads a record and, where its journal is complete, writes `legal N` and a line feed, where N is the number of its
/// entries.
pub fn audit_record<S: Source, K: Sink>(alloc: Global, source: &mut S, sink: &mut K) -> Status
    ensures usage { result ≢ Status.Usage }
    ensures no_disk { is_of_disk result ≡ false }
    ensures unwritten { IsTrue (writes_nothing result) → sink.new ≡ sink.old }
    ensures audited { (bytes : List ℕ) → S.left source.old ≡ Some bytes → AuditedSo bytes result (K.written sink.old) (K.written sink.new) }
    ensures complete { CompletesRecords (S.left source.old) (Rose (S.faults source.old) (S.faults source.new)) (Rose (K.faults sink.old) (K.faults sink.new)) result }
    ensures reads { result ≢ Status.NoMemory → ReadsUpTo longest_record (S.left source.old) (S.left source.new) result }
    ensures read_count { S.faults source.old ≤ S.faults source.new }
    ensures read_fault { result ≡ Status.ReadFault → Rose (S.faults source.old) (S.faults source.new) }
    ensures read_bound { ReadsWithin longest_record (S.reads source.old) (S.reads source.new) }
    ensures write_count { K.faults sink.old ≤ K.faults sink.new }
    ensures write_fault { result ≡ Status.WriteFault → Rose (K.faults sink.old) (K.faults sink.new) }
{
    match audited_from(alloc, source) {
        Ok(audited) => write_made(verdict_line(alloc, audited.entries.len()), sink),
        Err(status) => status,
    }
}

/// Reads a record and, where its journal is complete, writes the schedule that follows from it: what trades and grants
/// carry over each border, and what each zone has sold and bought, quarter by quarter.
pub fn ship_record<S: Source, K: Sink>(alloc: Global, source: &mut S, sink: &mut K) -> Status
    ensures usage { result ≢ Status.Usage }
    ensures no_disk { is_of_disk result ≡ false }
    ensures unwritten { IsTrue (writes_nothing result) → sink.new ≡ sink.old }
    ensures shipped { (bytes : List ℕ) → S.left source.old ≡ Some bytes → ShippedSo bytes result (K.written sink.old) (K.written sink.new) }
    ensures complete { CompletesRecords (S.left source.old) (Rose (S.faults source.old) (S.faults source.new)) (Rose (K.faults sink.old) (K.faults sink.new)) result }
    ensures reads { result ≢ Status.NoMemory → ReadsUpTo longest_record (S.left source.old) (S.left source.new) result }
    ensures read_count { S.faults source.old ≤ S.faults source.new }
    ensures read_fault { result ≡ Status.ReadFault → Rose (S.faults source.old) (S.faults source.new) }
    ensures read_bound { ReadsWithin longest_record (S.reads source.old) (S.reads source.new) }
    ensures write_count { K.faults sink.old ≤ K.faults sink.new }
    ensures write_fault { result ≡ Status.WriteFault → Rose (K.faults sink.old) (K.faults sink.new) }
{
    match audited_from(alloc, source) {
        Ok(audited) => write_made(schedule(alloc, &audited.setup, &audited.entries), sink),
        Err(status) => status,
    }
}

// What is written of a complete journal of so many entries.
fn verdict_line(alloc: Global, entries: usize) -> Result<Text, NoMemory>
    ensures { IfOk result (λ text. text ≡ legal_line entries) }
{
    let line = format!(in alloc; "legal {entries}\n")?;
    Text::new(alloc, line.as_bytes())
}
