//! A line is appended to a disk.

ghost use Rattle.std.specs.Prelude.{◌≡◌, ℕ, ◌+◌, ◌^◌, ◌<◌, ◌≤◌, List, [], ◌∷◌, ◌++◌, length, Err, IfOk, IfErr, OnOk, OnErr};
ghost use Rattle.outside.specs.Faults.{Rose};
ghost use Rattle.disk_model.specs.Contents.{most_bytes};
ghost use Rattle.disk_model.specs.Moments.{LeavesOnly};
ghost use Rattle.durable_journal.specs.Stored.{IsLine, AreLines, behind_gate, blocks};
ghost use Rattle.durable_journal.specs.Resting.{HoldsLines, IsAtRest, IsImageOf};
ghost use Rattle.durable_journal.specs.Appending.{most_stored, end_behind, size_behind, StoresOldOrNew, GivesBack, WroteNothing};

use crate::at::At;
use crate::faults::AppendFault;
use disk_model::{Disk, Failed};
use std::alloc::{AllocError, Global};

/// The most bytes that stored lines have, with the closed gate behind them.
pub const MOST_STORED: u64 = 67_108_864;

// A gate that is closed, and one that is open.
const CLOSED: u8 = 0;

const OPEN: u8 = 1;

/// Appends a line to those that a disk stores, and answers where they end then.
///
/// A crash at any moment of the call leaves an image that stores the lines from before it, or these
/// and the new one. At `Ok` the disk has one image, which stores the new one too.
///
/// # Errors
///
/// [`AppendFault::DiskFault`] only where the disk's count of faults rose in this call;
/// [`AppendFault::TooLarge`] exactly where the bytes up to and with the new closed gate would be
/// more than [`MOST_STORED`]; [`AppendFault::NoMemory`] where memory runs out. After the last two
/// the disk holds what it held, and the place comes back.
pub fn append<D: Disk>(alloc: Global, disk: &mut D, at: At, line: &[u8]) -> Result<At, AppendFault>
    requires some { 0 < length line.now }
    requires rest { IsAtRest (D.size disk.old) (D.contents disk.old) at }

    ensures place { IfOk result (λ next. next ≡ end_behind at line.now) }
    ensures rest { IfOk result (λ next. IsAtRest (D.size disk.new) (D.contents disk.new) next) }
    ensures added { IfOk result (λ next. (lines : List (List ℕ)) → HoldsLines (D.contents disk.old) lines at
        → HoldsLines (D.contents disk.new) (lines ++ line.now ∷ []) next) }
    ensures image { OnOk result ((lines : List (List ℕ)) → IsImageOf (D.contents disk.old) lines → AreLines lines
        → at ≡ length (blocks lines) → IsImageOf (D.contents disk.new) (lines ++ line.now ∷ [])) }

    // A crash at any moment of the call leaves the lines from before it, or these and the new one.
    ensures any_moment { (lines : List (List ℕ)) → HoldsLines (D.contents disk.old) lines at
        → LeavesOnly D.moment D.left_since disk.old disk.new (StoresOldOrNew lines line.now) }

    ensures too_large { most_stored < size_behind at line.now → result ≡ Err (AppendFault.TooLarge at (size_behind at line.now)) }
    ensures back { IfErr result (GivesBack at line.now) }
    ensures contents { IfErr result (λ fault. WroteNothing fault (D.contents disk.new ≡ D.contents disk.old)) }
    ensures size { IfErr result (λ fault. WroteNothing fault (D.size disk.new ≡ D.size disk.old)) }
    ensures count { D.faults disk.old ≤ D.faults disk.new }
    ensures fault { result ≡ Err AppendFault.DiskFault → Rose (D.faults disk.old) (D.faults disk.new) }
{
    let size = at.place() + 10 + line.len() as u64;
    if size > MOST_STORED {
        return Err(AppendFault::TooLarge { at, size });
    }
    if disk.reserve(4, line.len() as u64 + 10).is_err() {
        return Err(AppendFault::NoMemory { at });
    }
    let Ok(piece) = with_closed_gate(alloc, line) else {
        return Err(AppendFault::NoMemory { at });
    };
    match store(disk, at.place(), line, &piece) {
        Ok(()) => Ok(At::new(size - 1)),
        Err(Failed) => Err(AppendFault::DiskFault),
    }
}

// What stands of a line behind its gate, and a closed gate behind it.
fn with_closed_gate(alloc: Global, line: &[u8]) -> Result<Vec<u8>, AllocError>
    requires { length line.now + 9 < 2 ^ 63 }
    ensures { IfOk result (λ piece. piece.items ≡ behind_gate line.now ++ 0 ∷ []) }
{
    let mut piece = Vec::with_capacity(alloc, line.len() + 9)?;
    piece.extend_from_slice(&(line.len() as u64).to_be_bytes())?;
    piece.extend_from_slice(line)?;
    piece.push(CLOSED)?;
    Ok(piece)
}

// Writes a line behind the gate at a place, where the lines end, and opens the gate.
fn store<D: Disk>(disk: &mut D, place: u64, line: &[u8], piece: &[u8]) -> Result<(), Failed>
    requires line { IsLine line.now }
    requires piece { piece.now ≡ behind_gate line.now ++ 0 ∷ [] }
    requires rest { IsAtRest (D.size disk.old) (D.contents disk.old) place }
    requires small { size_behind place line.now ≤ most_stored }
    requires calls { 4 ≤ D.spare_calls disk.old }
    requires bytes { length line.now + 10 ≤ D.spare_bytes disk.old }

    ensures rest { OnOk result (IsAtRest (D.size disk.new) (D.contents disk.new) (end_behind place line.now)) }
    ensures added { OnOk result ((lines : List (List ℕ)) → HoldsLines (D.contents disk.old) lines place
        → HoldsLines (D.contents disk.new) (lines ++ line.now ∷ []) (end_behind place line.now)) }
    ensures image { OnOk result ((lines : List (List ℕ)) → IsImageOf (D.contents disk.old) lines → AreLines lines
        → place ≡ length (blocks lines) → IsImageOf (D.contents disk.new) (lines ++ line.now ∷ [])) }
    ensures any_moment { (lines : List (List ℕ)) → HoldsLines (D.contents disk.old) lines place
        → LeavesOnly D.moment D.left_since disk.old disk.new (StoresOldOrNew lines line.now) }
    ensures count { D.faults disk.old ≤ D.faults disk.new }
    ensures fault { OnErr result (Rose (D.faults disk.old) (D.faults disk.new)) }
{
    disk.write_at(place + 1, piece)?;
    disk.sync()?; // The line is on the disk before its gate is opened.
    disk.write_at(place, &[OPEN])?;
    disk.sync()?; // The gate is open on the disk before the line is acknowledged.
    Ok(())
}
