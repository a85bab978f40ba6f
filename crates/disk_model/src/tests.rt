//! A disk in memory that is written, synced and crashed.

use crate::disk::Disk;
use crate::faults::{Failed, NoMemory};
use crate::ram_disk::RamDisk;
use std::alloc::Global;
use std::test::Fail;

// What a disk reads as.
fn bytes_of(alloc: Global, disk: &mut RamDisk) -> Result<Vec<u8>, Fail> {
    let mut bytes = vec![in alloc; 0; disk.len() as usize]?;
    if !bytes.is_empty() {
        disk.read_at(0, &mut bytes)?;
    }
    Ok(bytes)
}

#[test]
fn what_was_synced_outlives_a_crash(rt: HostRuntime) -> Result<(), Fail> {
    let alloc = rt.alloc();
    let mut disk = RamDisk::new(alloc);
    disk.reserve(3, 9)?;
    disk.write_at(0, b"journal")?;
    disk.sync()?;
    assert!(rt; disk.len() == 7);
    disk.write_at(7, b"ed")?;
    let mut crashed = disk.crash(b'.')?;
    let mut kept = bytes_of(alloc, &mut disk)?;
    assert_eq!(rt; kept.as_slice(), b"journaled".as_slice());
    kept = bytes_of(alloc, &mut crashed)?;
    assert_eq!(rt; kept.as_slice(), b"journal..".as_slice());
    Ok(())
}

#[test]
fn listed_calls_fail(rt: HostRuntime) -> Result<(), Fail> {
    let alloc = rt.alloc();
    let mut disk = RamDisk::failing(alloc, &[2, 3])?;
    disk.reserve(4, 4)?;
    disk.write_at(0, b"ab")?;
    assert!(rt; disk.write_at(1, b"cd") == Err(Failed));
    assert!(rt; disk.sync() == Err(Failed));
    let crashed = bytes_of(alloc, &mut disk.crash(b'.')?)?;
    assert_eq!(rt; crashed.as_slice(), b"...".as_slice());
    disk.sync()?;
    let synced = bytes_of(alloc, &mut disk.crash(b'.')?)?;
    assert_eq!(rt; synced.as_slice(), b"ab".as_slice());
    Ok(())
}
