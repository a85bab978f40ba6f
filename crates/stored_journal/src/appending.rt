//! The line of an entry is appended to a disk.

ghost use Rattle.std.specs.Prelude.{◌≡◌, ℕ, ◌-◌, ◌<◌, ◌≤◌, List, [], ◌∷◌, ◌++◌, length, take, Err, IfOk, IfErr, OnOk};
ghost use Rattle.std.specs.Str.{bytes_eq};
ghost use Rattle.outside.specs.Faults.{Rose};
ghost use Rattle.disk_model.specs.Moments.{LeavesOnly};
ghost use Rattle.durable_journal.specs.Appending.{StoresOldOrNew, end_behind, most_stored, size_behind};
ghost use Rattle.durable_journal.specs.Resting.{HoldsLines, IsAtRest, IsImageOf};
ghost use Rattle.durable_journal.specs.Stored.{AreLines, blocks};
ghost use Rattle.market_model.specs.Naming.{IsEntryIn, IsNamed};
ghost use Rattle.stored_journal.specs.Lines.{stored_line};
ghost use Rattle.stored_journal.specs.Outcomes.{EndsAppend};

use disk_model::Disk;
use durable_journal::{AppendFault, At, append};
use journal_print::print_entry;
use market_model::{Entry, Setup};
use session_io::Status;
use std::alloc::Global;
use zone_graph::NoMemory;

/// Appends the line of an entry, without its line feed, to those that a disk stores, and answers where they end then.
///
/// A crash at any moment of the call leaves the lines from before it, or these and the new one.
///
/// # Errors
///
/// How the run ends: by `DiskFault` only where the disk's count of faults rose in this call, and by `TooLong` exactly
/// where the stored lines would have more than 67108864 bytes.
pub fn append_entry<D: Disk>(
    alloc: Global,
    setup: &Setup,
    place: u64,
    entry: &Entry,
    disk: &mut D,
    at: At,
) -> Result<At, Status>
    requires named { IsNamed setup.now }
    requires within { IsEntryIn setup.now entry.now }
    requires rest { IsAtRest (D.size disk.old) (D.contents disk.old) at }

    ensures place { IfOk result (λ next. next ≡ end_behind at (stored_line setup.now place entry.now)) }
    ensures fits { IfOk result (λ next. size_behind at (stored_line setup.now place entry.now) ≤ most_stored) }
    ensures rest { IfOk result (λ next. IsAtRest (D.size disk.new) (D.contents disk.new) next) }
    ensures added { IfOk result (λ next. (lines : List (List ℕ)) → HoldsLines (D.contents disk.old) lines at
        → HoldsLines (D.contents disk.new) (lines ++ stored_line setup.now place entry.now ∷ []) next) }
    ensures image { OnOk result ((lines : List (List ℕ)) → IsImageOf (D.contents disk.old) lines → AreLines lines
        → at ≡ length (blocks lines) → IsImageOf (D.contents disk.new) (lines ++ stored_line setup.now place entry.now ∷ [])) }

    // A crash at any moment of the call leaves the lines from before it, or these and the new one.
    ensures any_moment { (lines : List (List ℕ)) → HoldsLines (D.contents disk.old) lines at
        → LeavesOnly D.moment D.left_since disk.old disk.new (StoresOldOrNew lines (stored_line setup.now place entry.now)) }

    ensures ends { IfErr result EndsAppend }
    ensures too_long { result ≡ Err Status.TooLong → most_stored < size_behind at (stored_line setup.now place entry.now) }
    ensures count { D.faults disk.old ≤ D.faults disk.new }
    ensures fault { result ≡ Err Status.DiskFault → Rose (D.faults disk.old) (D.faults disk.new) }
{
    let Ok(text) = print_entry(alloc, setup, place, entry) else {
        return Err(Status::NoMemory);
    };
    append_line(alloc, disk, at, without_line_feed(text.bytes()))
}

// Appends a line to those that a disk stores.
fn append_line<D: Disk>(alloc: Global, disk: &mut D, at: At, line: &[u8]) -> Result<At, Status>
    requires some { 0 < length line.now }
    requires rest { IsAtRest (D.size disk.old) (D.contents disk.old) at }
    ensures place { IfOk result (λ next. next ≡ end_behind at line.now) }
    ensures fits { IfOk result (λ next. size_behind at line.now ≤ most_stored) }
    ensures rest { IfOk result (λ next. IsAtRest (D.size disk.new) (D.contents disk.new) next) }
    ensures added { IfOk result (λ next. (lines : List (List ℕ)) → HoldsLines (D.contents disk.old) lines at
        → HoldsLines (D.contents disk.new) (lines ++ line.now ∷ []) next) }
    ensures image { OnOk result ((lines : List (List ℕ)) → IsImageOf (D.contents disk.old) lines → AreLines lines
        → at ≡ length (blocks lines) → IsImageOf (D.contents disk.new) (lines ++ line.now ∷ [])) }
    ensures any_moment { (lines : List (List ℕ)) → HoldsLines (D.contents disk.old) lines at
        → LeavesOnly D.moment D.left_since disk.old disk.new (StoresOldOrNew lines line.now) }
    ensures ends { IfErr result EndsAppend }
    ensures too_long { result ≡ Err Status.TooLong → most_stored < size_behind at line.now }
    ensures count { D.faults disk.old ≤ D.faults disk.new }
    ensures fault { result ≡ Err Status.DiskFault → Rose (D.faults disk.old) (D.faults disk.new) }
{
    match append(alloc, disk, at, line) {
        Ok(next) => Ok(next),
        Err(AppendFault::DiskFault) => Err(Status::DiskFault),
        Err(AppendFault::TooLarge { .. }) => Err(Status::TooLong),
        Err(AppendFault::NoMemory { .. }) => Err(Status::NoMemory),
    }
}

/// Whether a stored line is that of an entry.
///
/// # Errors
///
/// [`NoMemory`] where memory runs out.
pub fn is_line_of(
    alloc: Global,
    setup: &Setup,
    place: u64,
    entry: &Entry,
    line: &[u8],
) -> Result<bool, NoMemory>
    requires named { IsNamed setup.now }
    requires within { IsEntryIn setup.now entry.now }
    ensures { IfOk result (λ same. same ≡ bytes_eq (stored_line setup.now place entry.now) line.now) }
{
    let text = print_entry(alloc, setup, place, entry)?;
    Ok(without_line_feed(text.bytes()) == line)
}

// A line of a journal without the line feed that ends it.
fn without_line_feed(line: &[u8]) -> &[u8]
    requires { 0 < length line.now }
    ensures { result.now ≡ take (length line.now - 1) line.now }
{
    line.split_at(line.len() - 1).0
}
