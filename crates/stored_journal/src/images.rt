//! An empty disk is opened, or an image that is written on it, and the image of a disk is read.

ghost use Rattle.std.specs.Prelude.{◌≡◌, ℕ, ◌≤◌, [], length, Some, Err, IfErr, IfOk, OnErr, OnOk};
ghost use Rattle.outside.specs.Faults.{Rose};
ghost use Rattle.disk_model.specs.Contents.{Contents, most_bytes, settled};
ghost use Rattle.disk_model.specs.Moments.{Elapses, LeavesOnly};
ghost use Rattle.durable_journal.specs.Resting.{HoldsLines, IsAtRest, IsImageOf};
ghost use Rattle.durable_journal.specs.Stored.{IsDamaged, Stores, StoresLines};
ghost use Rattle.stored_journal.specs.Outcomes.{EndsCall, EndsOpening};

use disk_model::{Disk, Failed};
use durable_journal::{At, ImageFault, Lines, open_image};
use session_io::Status;
use std::alloc::Global;

/// Opens an empty disk, and answers where the lines on it end, of which there is none.
///
/// A crash at any moment of the call leaves no line.
///
/// # Errors
///
/// How the run ends: by `DiskFault` only where the disk's count of faults rose in this call. `BadImage` does not come of a
/// disk that tells its contents and is empty.
pub fn open_empty<D: Disk>(alloc: Global, disk: &mut D) -> Result<At, Status>
    ensures rest { IfOk result (λ at. IsAtRest (D.size disk.new) (D.contents disk.new) at) }
    ensures holds { IfOk result (λ at. D.contents disk.old ≡ Some (settled []) → HoldsLines (D.contents disk.new) [] at) }
    ensures image { OnOk result (D.contents disk.old ≡ Some (settled []) → IsImageOf (D.contents disk.new) []) }
    ensures any_moment { D.contents disk.old ≡ Some (settled [])
        → LeavesOnly D.moment D.left_since disk.old disk.new (λ image. StoresLines image []) }
    ensures ends { IfErr result EndsOpening }
    ensures bad { (place : ℕ) → result ≡ Err (Status.BadImage place) → D.contents disk.old ≡ Some (settled []) → ⊥ }
    ensures count { D.faults disk.old ≤ D.faults disk.new }
    ensures fault { result ≡ Err Status.DiskFault → Rose (D.faults disk.old) (D.faults disk.new) }
{
    match open_image(alloc, disk) {
        Ok((at, _lines)) => Ok(at),
        Err(ImageFault::DiskFault) => Err(Status::DiskFault),
        Err(ImageFault::BadImage { place }) => Err(Status::BadImage { place }),
        Err(ImageFault::NoMemory) => Err(Status::NoMemory),
    }
}

/// Writes the bytes of an image on an empty disk, where there are any, and makes sure of them. Then it opens the image, and
/// answers where its lines end, and the lines.
///
/// # Errors
///
/// How the run ends: by `DiskFault` only where the disk's count of faults rose in this call, and by `BadImage` only where the
/// image is damaged.
pub fn open_written<D: Disk>(
    alloc: Global,
    image: &[u8],
    disk: &mut D,
) -> Result<(At, Lines), Status>
    requires { length image.now ≤ most_bytes }
    ensures lines { IfOk result (λ opened. D.contents disk.old ≡ Some (settled []) → Stores image.now opened.1 opened.0) }
    ensures rest { IfOk result (λ opened. IsAtRest (D.size disk.new) (D.contents disk.new) opened.0) }
    ensures holds { IfOk result (λ opened. D.contents disk.old ≡ Some (settled []) → HoldsLines (D.contents disk.new) opened.1 opened.0) }
    ensures ends { IfErr result EndsOpening }
    ensures bad { (place : ℕ) → result ≡ Err (Status.BadImage place) → D.contents disk.old ≡ Some (settled []) → IsDamaged image.now place }
    ensures count { D.faults disk.old ≤ D.faults disk.new }
    ensures fault { result ≡ Err Status.DiskFault → Rose (D.faults disk.old) (D.faults disk.new) }
{
    match write_and_open(alloc, image, disk) {
        Ok(opened) => Ok(opened),
        Err(ImageFault::DiskFault) => Err(Status::DiskFault),
        Err(ImageFault::BadImage { place }) => Err(Status::BadImage { place }),
        Err(ImageFault::NoMemory) => Err(Status::NoMemory),
    }
}

// The same, with the fault of the image.
fn write_and_open<D: Disk>(
    alloc: Global,
    image: &[u8],
    disk: &mut D,
) -> Result<(At, Lines), ImageFault>
    requires { length image.now ≤ most_bytes }
    ensures lines { IfOk result (λ opened. D.contents disk.old ≡ Some (settled []) → Stores image.now opened.1 opened.0) }
    ensures rest { IfOk result (λ opened. IsAtRest (D.size disk.new) (D.contents disk.new) opened.0) }
    ensures holds { IfOk result (λ opened. D.contents disk.old ≡ Some (settled []) → HoldsLines (D.contents disk.new) opened.1 opened.0) }
    ensures bad { (place : ℕ) → result ≡ Err (ImageFault.BadImage place) → D.contents disk.old ≡ Some (settled []) → IsDamaged image.now place }
    ensures count { D.faults disk.old ≤ D.faults disk.new }
    ensures fault { result ≡ Err ImageFault.DiskFault → Rose (D.faults disk.old) (D.faults disk.new) }
{
    disk.reserve(2, image.len() as u64)?;
    write_image(disk, image)?;
    open_image(alloc, disk)
}

// Writes the bytes of an image on an empty disk, where there are any, and makes sure of them.
fn write_image<D: Disk>(disk: &mut D, image: &[u8]) -> Result<(), Failed>
    requires small { length image.now ≤ most_bytes }
    requires calls { 2 ≤ D.spare_calls disk.old }
    requires bytes { length image.now ≤ D.spare_bytes disk.old }
    ensures written { OnOk result (D.contents disk.old ≡ Some (settled []) → D.contents disk.new ≡ Some (settled image.now)) }
    ensures count { D.faults disk.old ≤ D.faults disk.new }
    ensures fault { OnErr result (Rose (D.faults disk.old) (D.faults disk.new)) }
{
    if !image.is_empty() {
        disk.write_at(0, image)?;
    }
    disk.sync()
}

/// All bytes of a disk.
///
/// # Errors
///
/// How the run ends: by `DiskFault` only where the disk's count of faults rose in this call.
pub fn read_image<D: Disk>(alloc: Global, disk: &mut D) -> Result<Vec<u8>, Status>
    ensures told { IfOk result (λ image. (told : Contents) → D.contents disk.old ≡ Some told → image.items ≡ told.bytes) }
    ensures contents { D.contents disk.new ≡ D.contents disk.old }
    ensures ends { IfErr result EndsCall }
    ensures count { D.faults disk.old ≤ D.faults disk.new }
    ensures fault { result ≡ Err Status.DiskFault → Rose (D.faults disk.old) (D.faults disk.new) }
    ensures time { Elapses (D.moment disk.old) (D.moment disk.new) (D.left_since disk.old) (D.left_since disk.new) (D.contents disk.new) }
{
    match read_bytes(alloc, disk) {
        Ok(image) => Ok(image),
        Err(ImageFault::DiskFault) => Err(Status::DiskFault),
        Err(ImageFault::BadImage { .. }) => unreachable!(),
        Err(ImageFault::NoMemory) => Err(Status::NoMemory),
    }
}

// All bytes of a disk, of which there may be none.
fn read_bytes<D: Disk>(alloc: Global, disk: &mut D) -> Result<Vec<u8>, ImageFault>
    ensures told { IfOk result (λ image. (told : Contents) → D.contents disk.old ≡ Some told → image.items ≡ told.bytes) }
    ensures contents { D.contents disk.new ≡ D.contents disk.old }
    ensures bad { (place : ℕ) → result ≡ Err (ImageFault.BadImage place) → ⊥ }
    ensures count { D.faults disk.old ≤ D.faults disk.new }
    ensures fault { result ≡ Err ImageFault.DiskFault → Rose (D.faults disk.old) (D.faults disk.new) }
    ensures time { Elapses (D.moment disk.old) (D.moment disk.new) (D.left_since disk.old) (D.left_since disk.new) (D.contents disk.new) }
{
    let mut image = vec![in alloc; 0u8; disk.len() as usize]?;
    if !image.is_empty() {
        disk.read_at(0, image.as_mut_slice())?;
    }
    Ok(image)
}
