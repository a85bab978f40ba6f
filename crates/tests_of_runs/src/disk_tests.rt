//! Runs of `store`, where no clause says what comes.

use crate::sessions::{JOURNAL, SALE, SWEEP, SWEEP_JOURNAL, part, ran};
use disk_model::RamDisk;
use durable_journal::open_image;
use session_run::Status;
use std::alloc::Global;
use std::test::Fail;

// How many calls of the disk it takes to store the journal of the sweep: to open it, four for each of five lines, and to
// read it.
const CALLS: u64 = 24;

#[test]
fn a_sale_is_stored(rt: HostRuntime) -> Result<(), Fail> {
    let alloc = rt.alloc();
    let (status, sink) = ran(
        alloc,
        &["store"],
        SALE,
        (&[], &[]),
        &mut RamDisk::new(alloc),
    )?;
    assert_eq!(rt; status, Status::Done);
    let image = sink.bytes();
    assert_eq!(rt; image.len(), 206);
    assert_eq!(rt; part(image, 0, 9), [1, 0, 0, 0, 0, 0, 0, 0, 73].as_slice());
    assert_eq!(rt; part(image, 9, 82), part(JOURNAL, 0, 73));
    assert_eq!(rt;
        part(image, 82, 91),
        [1, 0, 0, 0, 0, 0, 0, 0, 114].as_slice()
    );
    assert_eq!(rt; part(image, 91, 205), part(JOURNAL, 74, 188));
    assert_eq!(rt; image.last(), Some(&0));
    Ok(())
}

// Whether the lines that a disk stores after a crash are the first of a journal, and so many or one more.
fn are_first(
    alloc: Global,
    disk: &RamDisk,
    fill: u8,
    journal: &[u8],
    count: usize,
) -> Result<bool, Fail> {
    let mut crashed = disk.crash(fill)?;
    let (_at, lines) = open_image(alloc, &mut crashed)?;
    let mut rest = journal;
    for line in lines.as_slice() {
        match rest.strip_prefix(line.bytes()) {
            Some([b'\n', after @ ..]) => rest = after,
            _ => return Ok(false),
        }
    }
    Ok(count <= lines.len() && lines.len() - count <= 1)
}

#[test]
fn each_failed_call_of_the_disk_leaves_the_first_lines(rt: HostRuntime) -> Result<(), Fail> {
    let alloc = rt.alloc();
    for call in 1..=CALLS + 1 {
        let mut disk = RamDisk::failing(alloc, &[call])?;
        let (status, sink) = ran(alloc, &["store"], SWEEP, (&[], &[]), &mut disk)?;
        if call > CALLS {
            assert_eq!(rt; status, Status::Done);
        } else {
            assert_eq!(rt; status, Status::DiskFault, "call {call}");
            assert_eq!(rt; sink.bytes(), b"".as_slice(), "call {call}");
        }
        let count = (call.saturating_sub(4) / 4).min(5) as usize;
        for fill in [0, 1, 255] {
            assert!(rt;
                are_first(alloc, &disk, fill, SWEEP_JOURNAL, count)?,
                "call {call}"
            );
        }
    }
    Ok(())
}
