//! Sessions that are no sessions, and sources and sinks that fail.

use crate::runs::{one_word, run_word};
use crate::sessions::{ALONE, ALONE_JOURNAL};
use disk_model::RamDisk;
use outside::{BytesSink, BytesSource, OpenGate, SteadySource};
use session_run::{Status, run};
use std::alloc::Global;
use std::str::from_utf8;
use std::test::Fail;

#[test]
fn the_commands_of_one_caller_are_traded_in_their_order(rt: HostRuntime) -> Result<(), Fail> {
    let (status, sink) = run_word(&rt, rt.alloc(), "trade", ALONE, &OpenGate)?;
    assert_eq!(rt; status, Status::Done);
    assert_eq!(rt; from_utf8(sink.bytes())?, ALONE_JOURNAL);
    Ok(())
}

#[test]
fn a_failed_read_leaves_nothing_written(rt: HostRuntime) -> Result<(), Fail> {
    let alloc: Global = rt.alloc();
    let words = one_word(alloc, "trade")?;
    // 167 bytes are read in six pieces, and then the end.
    for fails in 1..=7 {
        let mut source = BytesSource::new(alloc, ALONE.as_bytes(), 32, &[fails])?;
        let mut sink = BytesSink::new(alloc, 16, &[])?;
        let status = run(
            &rt,
            alloc,
            words.as_slice(),
            &mut source,
            &mut sink,
            &OpenGate,
            &mut RamDisk::new(alloc),
        );
        assert_eq!(rt; status, Status::ReadFault, "read {fails}");
        assert_eq!(rt; sink.bytes(), b"".as_slice(), "read {fails}");
    }
    Ok(())
}

#[test]
fn a_failed_write_leaves_the_pieces_before_it(rt: HostRuntime) -> Result<(), Fail> {
    // What is written before each write of at most 16 bytes of what is left of a line.
    let before_each_write = [
        0, 16, 32, 48, 64, 74, 90, 106, 122, 138, 150, 166, 182, 198, 214,
    ];
    let alloc: Global = rt.alloc();
    let words = one_word(alloc, "trade")?;
    for (place, end) in before_each_write.iter().enumerate() {
        let mut source = SteadySource::new(alloc, ALONE.as_bytes())?;
        let mut sink = BytesSink::new(alloc, 16, &[place as u64 + 1])?;
        let status = run(
            &rt,
            alloc,
            words.as_slice(),
            &mut source,
            &mut sink,
            &OpenGate,
            &mut RamDisk::new(alloc),
        );
        assert_eq!(rt; status, Status::WriteFault, "write {place}");
        let written = from_utf8(sink.bytes())?;
        assert_eq!(rt; Some(written), ALONE_JOURNAL.get(..*end), "write {place}");
    }
    Ok(())
}

#[test]
fn what_is_no_session_is_not_traded(rt: HostRuntime) -> Result<(), Fail> {
    for (text, line) in [
        ("", 1),
        ("day 2025-06-17\n", 2),
        ("day 2025-06-17\nzone DE\nzone DE\nbegin\n", 3),
        (
            "day 2025-06-17\nzone DE\ntrader ann\ntrader bob\nbegin\nann sell h12 DE 10.0 50.00\nbob buy h12 DE 4.0 55.00",
            7,
        ),
        (
            "day 2025-06-17\nzone DE\ntrader ann\nbegin\nann sell h12 DE 10.0 50.00\nbob buy h12 DE 4.0 55.00\nann none\n",
            6,
        ),
    ] {
        let (status, sink) = run_word(&rt, rt.alloc(), "trade", text, &OpenGate)?;
        assert_eq!(rt; status, Status::BadSession { line });
        assert_eq!(rt; sink.bytes(), b"".as_slice(), "line {line}");
    }
    Ok(())
}
