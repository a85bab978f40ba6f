//! The image on a disk is opened.

ghost use Rattle.std.specs.Prelude.{◌≡◌, ◌⊎◌, ℕ, ◌<◌, ◌≤◌, List, [], ◌∷◌, ◌++◌, length, Some, None, Err, IfOk, IfSome, IfNone, OnOk, OnErr};
ghost use Rattle.outside.specs.Faults.{Rose};
ghost use Rattle.disk_model.specs.Contents.{Contents, settled, most_bytes};
ghost use Rattle.disk_model.specs.Moments.{Elapses, LeavesOnly};
ghost use Rattle.durable_journal.specs.Stored.{IsLine, behind_gate, EndsAt, Stores, StoresLines, IsDamaged};
ghost use Rattle.durable_journal.specs.Resting.{HoldsLines, IsAtRest, IsImageOf};

use crate::at::At;
use crate::faults::ImageFault;
use crate::lines::Lines;
use disk_model::{Disk, Failed};
use std::alloc::Global;
use zone_graph::Text;

/// Opens the image on a disk, and answers where its lines end, and the lines. It may crash too: at
/// each of its moments a crash leaves the lines that the one image of the disk stored.
///
/// # Errors
///
/// [`ImageFault::DiskFault`] only where the disk's count of faults rose in this call;
/// [`ImageFault::BadImage`] exactly where, without such a fault, what the disk reads as is damaged,
/// and nothing is written then; [`ImageFault::NoMemory`] where memory runs out, and the disk reads
/// as it did.
pub fn open_image<D: Disk>(alloc: Global, disk: &mut D) -> Result<(At, Lines), ImageFault>
    ensures lines { IfOk result (λ opened. (told : Contents) → D.contents disk.old ≡ Some told
        → Stores told.bytes opened.1 opened.0) }
    ensures rest { IfOk result (λ opened. IsAtRest (D.size disk.new) (D.contents disk.new) opened.0) }
    ensures holds { IfOk result (λ opened. (told : Contents) → D.contents disk.old ≡ Some told
        → HoldsLines (D.contents disk.new) opened.1 opened.0) }

    ensures empty { OnOk result (D.contents disk.old ≡ Some (settled []) → IsImageOf (D.contents disk.new) []) }

    // A crash at any moment of the call leaves the lines that the one image stored.
    ensures any_moment { (bytes : List ℕ) (lines : List (List ℕ)) → D.contents disk.old ≡ Some (settled bytes)
        → StoresLines bytes lines
        → LeavesOnly D.moment D.left_since disk.old disk.new (λ image. StoresLines image lines) }

    ensures bad { (told : Contents) (place : ℕ) → D.contents disk.old ≡ Some told
        → result ≡ Err (ImageFault.BadImage place)
        → IsDamaged told.bytes place × (D.contents disk.new ≡ Some (settled told.bytes)) }
    ensures memory { (told : Contents) → D.contents disk.old ≡ Some told → result ≡ Err ImageFault.NoMemory
        → (D.contents disk.new ≡ Some told) ⊎ (D.contents disk.new ≡ Some (settled told.bytes)) }
    ensures count { D.faults disk.old ≤ D.faults disk.new }
    ensures fault { result ≡ Err ImageFault.DiskFault → Rose (D.faults disk.old) (D.faults disk.new) }
{
    disk.reserve(3, 1)?;
    disk.sync()?;
    let image = read_image(alloc, disk)?;
    if image.len() > 1 {
        return read_lines(alloc, &image);
    }
    write_gate(disk)?;
    Ok((At::new(0), Lines::new(alloc)))
}

// All bytes of a disk.
fn read_image<D: Disk>(alloc: Global, disk: &mut D) -> Result<Vec<u8>, ImageFault>
    ensures len { IfOk result (λ image. length image.items ≡ D.size disk.new) }
    ensures limit { IfOk result (λ image. length image.items ≤ most_bytes) }
    ensures told { IfOk result (λ image. (told : Contents) → D.contents disk.old ≡ Some told → image.items ≡ told.bytes) }
    ensures contents { D.contents disk.new ≡ D.contents disk.old }
    ensures size { D.size disk.new ≡ D.size disk.old }
    ensures calls { D.spare_calls disk.new ≡ D.spare_calls disk.old }
    ensures bytes { D.spare_bytes disk.new ≡ D.spare_bytes disk.old }
    ensures bad { (place : ℕ) → result ≡ Err (ImageFault.BadImage place) → ⊥ }
    ensures count { D.faults disk.old ≤ D.faults disk.new }
    ensures fault { result ≡ Err ImageFault.DiskFault → Rose (D.faults disk.old) (D.faults disk.new) }
    ensures time { Elapses (D.moment disk.old) (D.moment disk.new) (D.left_since disk.old) (D.left_since disk.new) (D.contents disk.new) }
{
    let mut image = vec![in alloc; 0u8; disk.len() as usize]?;
    if !image.is_empty() {
        disk.read_at(0, image.as_mut_slice())?;
    }
    Ok(image)
}

// Writes a closed gate at the first place of a disk of at most one byte.
fn write_gate<D: Disk>(disk: &mut D) -> Result<(), Failed>
    requires calls { 2 ≤ D.spare_calls disk.old }
    requires bytes { 1 ≤ D.spare_bytes disk.old }
    requires short { (told : Contents) → D.contents disk.old ≡ Some told
        → (told ≡ settled told.bytes) × (length told.bytes ≤ 1) }
    ensures rest { OnOk result (IsAtRest (D.size disk.new) (D.contents disk.new) 0) }
    ensures holds { OnOk result ((told : Contents) → D.contents disk.old ≡ Some told → HoldsLines (D.contents disk.new) [] 0) }
    ensures empty { OnOk result (D.contents disk.old ≡ Some (settled []) → IsImageOf (D.contents disk.new) []) }
    ensures any_moment { (told : Contents) → D.contents disk.old ≡ Some told
        → LeavesOnly D.moment D.left_since disk.old disk.new (λ image. StoresLines image []) }
    ensures count { D.faults disk.old ≤ D.faults disk.new }
    ensures fault { OnErr result (Rose (D.faults disk.old) (D.faults disk.new)) }
{
    disk.write_at(0, &[0])?;
    disk.sync()?;
    Ok(())
}

// The lines of an image of more than one byte, and where they end.
fn read_lines(alloc: Global, image: &[u8]) -> Result<(At, Lines), ImageFault>
    requires long { 1 < length image.now }
    requires small { length image.now ≤ most_bytes }
    ensures lines { IfOk result (λ opened. EndsAt image.now opened.1 opened.0) }
    ensures within { IfOk result (λ opened. opened.0 < length image.now) }
    ensures bad { (place : ℕ) → result ≡ Err (ImageFault.BadImage place) → IsDamaged image.now place }
    ensures no_fault { result ≡ Err ImageFault.DiskFault → ⊥ }
{
    let mut lines = Lines::new(alloc);
    let mut rest = image;
    while let [1, after @ ..] = rest {
        let place = (image.len() - rest.len()) as u64;
        let Some((line, behind)) = next_line(after) else {
            return Err(ImageFault::BadImage { place });
        };
        lines.push(Text::new(alloc, line)?)?;
        rest = behind;
    }
    Ok((At::new((image.len() - rest.len()) as u64), lines))
}

// What stands behind an open gate: a line and what follows it, where it is a line with a further
// byte behind it.
fn next_line(after: &[u8]) -> Option<(&[u8], &[u8])>
    ensures line { IfSome result (λ parts. IsLine parts.0.now) }
    ensures whole { IfSome result (λ parts. after.now ≡ behind_gate parts.0.now ++ parts.1.now) }
    ensures more { IfSome result (λ parts. 0 < length parts.1.now) }
    ensures none { IfNone result ((line : List ℕ) (gate : ℕ) (behind : List ℕ) → IsLine line
        → after.now ≡ behind_gate line ++ gate ∷ behind → ⊥) }
{
    let [a, b, c, d, e, f, g, h, body @ ..] = after else {
        return None;
    };
    let count = u64::from_be_bytes([*a, *b, *c, *d, *e, *f, *g, *h]);
    if count == 0 || count >= body.len() as u64 {
        return None;
    }
    Some(body.split_at(count as usize))
}
