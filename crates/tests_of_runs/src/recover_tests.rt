//! Runs of `recover`, where no clause says what comes.

use crate::sessions::{JOURNAL, SALE, SWEEP, SWEEP_JOURNAL, part, ran};
use disk_model::RamDisk;
use outside::BytesSink;
use session_run::Status;
use std::alloc::Global;
use std::test::Fail;

// How many calls of the disk it takes to recover the sweep from its first two lines: to write and sync the image, to open
// it, and four for each of three lines.
const CALLS: u64 = 16;

// The most bytes that an image has.
const LONGEST_IMAGE: usize = 67_108_864;

// How a run of `recover` of a session from an image ends, and what it has written.
fn recovered(alloc: Global, session: &[u8], image: &[u8]) -> Result<(Status, BytesSink), Fail> {
    let input = input_of(alloc, session, image)?;
    let mut disk = RamDisk::new(alloc);
    ran(alloc, &["recover"], input.as_slice(), (&[], &[]), &mut disk)
}

// A session, the line `image`, and an image.
fn input_of(alloc: Global, session: &[u8], image: &[u8]) -> Result<Vec<u8>, Fail> {
    Ok([session, b"image\n", image].concat(alloc)?)
}

// The image of the stored lines of a journal.
fn image_of(alloc: Global, journal: &[u8]) -> Result<Vec<u8>, Fail> {
    let mut image = Vec::new(alloc);
    for line in journal.split(|byte| *byte == b'\n') {
        if !line.is_empty() {
            image.push(1)?;
            image.extend_from_slice(&(line.len() as u64).to_be_bytes())?;
            image.extend_from_slice(line)?;
        }
    }
    image.push(0)?;
    Ok(image)
}

// Where the gate is behind that at a place of an image, whose lines have fewer than 256 bytes.
fn next_gate(image: &[u8], gate: usize) -> usize {
    match image.get(gate.saturating_add(8)) {
        Some(count) => gate.saturating_add(9 + *count as usize),
        None => usize::MAX,
    }
}

#[test]
fn a_sale_is_recovered_from_one_line(rt: HostRuntime) -> Result<(), Fail> {
    let alloc = rt.alloc();
    let (status, stored) = ran(
        alloc,
        &["store"],
        SALE,
        (&[], &[]),
        &mut RamDisk::new(alloc),
    )?;
    assert_eq!(rt; status, Status::Done);
    let mut image = part(stored.bytes(), 0, 82).to_vec(alloc)?;
    image.push(0)?;
    let (status, sink) = recovered(alloc, SALE, image.as_slice())?;
    assert_eq!(rt; status, Status::Done);
    assert_eq!(rt; sink.bytes(), JOURNAL);
    Ok(())
}

#[test]
fn damage_is_told(rt: HostRuntime) -> Result<(), Fail> {
    let alloc = rt.alloc();
    // An open gate without a line.
    let opened = part(image_of(alloc, JOURNAL)?.as_slice(), 0, 83).to_vec(alloc)?;
    let (first, second) = JOURNAL.split_at(74);
    let exchanged = image_of(alloc, [second, first].concat(alloc)?.as_slice())?;
    let mut changed = image_of(alloc, SWEEP_JOURNAL)?;
    // A byte of the line before the last gate.
    let place = changed.len().saturating_sub(2);
    if let Some(byte) = changed.get_mut(place) {
        *byte ^= 1;
    }
    let twice = image_of(
        alloc,
        [SWEEP_JOURNAL, SWEEP_JOURNAL].concat(alloc)?.as_slice(),
    )?;
    for (session, image, told) in [
        (SALE, &opened, Status::BadImage { place: 82 }),
        (SALE, &exchanged, Status::Illegal { entry: 1 }),
        (SWEEP, &changed, Status::Illegal { entry: 5 }),
        (SWEEP, &twice, Status::Illegal { entry: 6 }),
    ] {
        let (status, sink) = recovered(alloc, session, image.as_slice())?;
        assert_eq!(rt; status, told);
        assert_eq!(rt; sink.bytes(), b"".as_slice());
    }
    Ok(())
}

#[test]
fn a_cut_image_is_recovered_or_its_damage_told(rt: HostRuntime) -> Result<(), Fail> {
    let alloc = rt.alloc();
    let (status, stored) = ran(
        alloc,
        &["store"],
        SWEEP,
        (&[], &[]),
        &mut RamDisk::new(alloc),
    )?;
    assert_eq!(rt; status, Status::Done);
    let image = stored.bytes();
    assert_eq!(rt; image, image_of(alloc, SWEEP_JOURNAL)?.as_slice());
    // Where the last gate before the cut is.
    let mut gate = 0;
    for cut in 0..=image.len() {
        if cut > next_gate(image, gate) {
            gate = next_gate(image, gate);
        }
        let (status, sink) = recovered(alloc, SWEEP, part(image, 0, cut))?;
        if cut <= 1 || cut == image.len() {
            assert_eq!(rt; status, Status::Done, "{cut} bytes");
            assert_eq!(rt; sink.bytes(), SWEEP_JOURNAL, "{cut} bytes");
        } else {
            assert_eq!(rt;
                status,
                Status::BadImage { place: gate as u64 },
                "{cut} bytes"
            );
            assert_eq!(rt; sink.bytes(), b"".as_slice(), "{cut} bytes");
        }
    }
    Ok(())
}

#[test]
fn each_failed_call_of_the_disk_is_told(rt: HostRuntime) -> Result<(), Fail> {
    let alloc = rt.alloc();
    // The first two lines.
    let two = SWEEP_JOURNAL.len().saturating_sub(320);
    let image = image_of(alloc, part(SWEEP_JOURNAL, 0, two))?;
    let input = input_of(alloc, SWEEP, image.as_slice())?;
    for call in 1..=CALLS + 1 {
        let mut disk = RamDisk::failing(alloc, &[call])?;
        let (status, sink) = ran(alloc, &["recover"], input.as_slice(), (&[], &[]), &mut disk)?;
        if call > CALLS {
            assert_eq!(rt; status, Status::Done);
            assert_eq!(rt; sink.bytes(), SWEEP_JOURNAL);
        } else {
            assert_eq!(rt; status, Status::DiskFault, "call {call}");
            assert_eq!(rt; sink.bytes(), b"".as_slice(), "call {call}");
        }
    }
    Ok(())
}

#[test]
fn the_longest_image_is_recovered_from(rt: HostRuntime) -> Result<(), Fail> {
    let alloc = rt.alloc();
    let zeros = vec![in alloc; 0u8; LONGEST_IMAGE + 1]?;
    let image = zeros.as_slice();
    // No line is stored, so all are appended.
    let (status, sink) = recovered(alloc, SALE, part(image, 0, LONGEST_IMAGE))?;
    assert_eq!(rt; status, Status::Done);
    assert_eq!(rt; sink.bytes(), JOURNAL);
    // That it is too long is told before a bad line.
    for session in [SALE, b"no session\n".as_slice()] {
        let (status, sink) = recovered(alloc, session, image)?;
        assert_eq!(rt; status, Status::TooLong);
        assert_eq!(rt; sink.bytes(), b"".as_slice());
    }
    Ok(())
}
