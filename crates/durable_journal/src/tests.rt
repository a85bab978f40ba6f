//! Lines that are appended to a disk which fails, crashes and is opened again.

use crate::appending::{MOST_STORED, append};
use crate::faults::AppendFault;
use crate::opening::open_image;
use disk_model::RamDisk;
use std::alloc::Global;
use std::test::Fail;

// The first line is the first byte of it, the second the first two, and so on.
const TEXT: [u8; 20] = *b"a line of 20 letters";

// How many calls of the disk it takes to open an empty one and to append the lines.
const CALLS: u64 = 83;

// Appends the lines until one fails, and answers how many were acknowledged.
fn acknowledged(alloc: Global, disk: &mut RamDisk) -> usize {
    let (mut at, _lines) = match open_image(alloc, disk) {
        Ok(opened) => opened,
        Err(_fault) => return 0,
    };
    for count in 0..20 {
        at = match append(alloc, disk, at, &TEXT[..count + 1]) {
            Ok(next) => next,
            Err(_fault) => return count,
        };
    }
    20
}

// Whether these are the lines that a crash may leave where so many were acknowledged: these, and
// at most one more.
fn may_be_left(alloc: Global, disk: &mut RamDisk, count: usize) -> Result<bool, Fail> {
    let (_at, lines) = open_image(alloc, disk)?;
    let whole = lines
        .as_slice()
        .iter()
        .enumerate()
        .all(|(index, line)| TEXT.get(..=index) == Some(line.bytes()));
    Ok(whole && count <= lines.len() && lines.len() - count <= 1)
}

#[test]
fn acknowledged_lines_outlive_a_crash(rt: HostRuntime) -> Result<(), Fail> {
    let alloc = rt.alloc();
    for call in 1..=CALLS + 1 {
        let mut disk = RamDisk::failing(alloc, &[call])?;
        let count = acknowledged(alloc, &mut disk);
        assert!(rt; (count == 20) == (call > CALLS));
        for fill in [0, 1, 255] {
            let mut crashed = disk.crash(fill)?;
            assert!(rt; may_be_left(alloc, &mut crashed, count)?);
        }
    }
    Ok(())
}

// How many bytes too many an append to an empty disk finds in an image of one line: none where it is appended.
fn too_many(alloc: Global, line: &[u8]) -> Result<u64, Fail> {
    let mut disk = RamDisk::new(alloc);
    let (at, _lines) = open_image(alloc, &mut disk)?;
    if line.is_empty() {
        return Ok(0);
    }
    match append(alloc, &mut disk, at, line) {
        Err(AppendFault::TooLarge { size, .. }) => Ok(size.saturating_sub(MOST_STORED)),
        appended => {
            let _end = appended?;
            Ok(0)
        }
    }
}

#[test]
fn an_image_holds_so_many_bytes_and_no_more(rt: HostRuntime) -> Result<(), Fail> {
    let alloc = rt.alloc();
    // A gate, eight bytes of a length and the closed gate stand about the bytes of the line.
    let mut line = vec![in alloc; b'.'; MOST_STORED as usize - 10]?;
    assert_eq!(rt; too_many(alloc, line.as_slice())?, 0);
    line.push(b'.')?;
    assert_eq!(rt; too_many(alloc, line.as_slice())?, 1);
    Ok(())
}
