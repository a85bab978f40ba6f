//! Whole runs, where no clause says what comes.

use crate::records::{SALE_RECORD, SALE_SCHEDULE};
use crate::sessions::{
    BEFORE_EACH_WRITE, JOURNAL, SALE, SWEEP, SWEEP_JOURNAL, ran, replay_steadily, replay_word,
    words_of,
};
use crate::streams::{Counting, Noting};
use disk_model::RamDisk;
use outside::{BytesSink, BytesSource, NullSink, OpenGate, SteadySource};
use session_run::{Status, message, run};
use std::test::Fail;

// The summary of the session that is generated for 40 commands.
const SUMMARY: &[u8] = b"entries 40\nrefused 0\nlegs 0\nblocklegs 0\nlots 0\n";

#[test]
fn replay_writes_the_journal_of_a_sale(rt: HostRuntime) -> Result<(), Fail> {
    let words = replay_word(rt.alloc())?;
    let mut source = BytesSource::new(rt.alloc(), SALE, 7, &[])?;
    let mut sink = BytesSink::new(rt.alloc(), 10, &[])?;
    let status = run(
        &rt,
        rt.alloc(),
        words.as_slice(),
        &mut source,
        &mut sink,
        &OpenGate,
        &mut RamDisk::new(rt.alloc()),
    );
    assert_eq!(rt; status, Status::Done);
    assert_eq!(rt; sink.bytes(), JOURNAL);

    let mut source = SteadySource::new(rt.alloc(), SALE)?;
    let status = replay_steadily(rt.alloc(), words.as_slice(), &mut source);
    assert_eq!(rt; status, Status::Done);
    Ok(())
}

#[test]
fn other_words_mean_nothing(rt: HostRuntime) -> Result<(), Fail> {
    let alloc = rt.alloc();
    for texts in [
        [].as_slice(),
        &["replay", "replay"],
        &["Replay"],
        &["repla"],
        &["replay "],
        &["--help"],
        &["trade", "trade"],
        &["audit", "audit"],
        &["audit", "ship"],
        &["Ship"],
        &["store", "store"],
        &["recover", "recover"],
        &["recove"],
        &["generate"],
        &["generate", "0"],
        &["generate", "100001"],
    ] {
        let (status, sink) = ran(alloc, texts, SALE, (&[], &[]), &mut RamDisk::new(alloc))?;
        assert_eq!(rt; status, Status::Usage);
        assert_eq!(rt; sink.bytes(), b"".as_slice());
    }
    Ok(())
}

#[test]
fn each_failed_read_leaves_nothing_written(rt: HostRuntime) -> Result<(), Fail> {
    let alloc = rt.alloc();
    for (word, input) in [
        ("replay", SWEEP),
        ("audit", SALE_RECORD),
        ("ship", SALE_RECORD),
    ] {
        for fails in 1..=5 {
            let mut disk = RamDisk::new(alloc);
            let (status, sink) = ran(alloc, &[word], input, (&[fails], &[]), &mut disk)?;
            assert_eq!(rt; status, Status::ReadFault, "{word}, read {fails}");
            assert_eq!(rt; sink.bytes(), b"".as_slice(), "{word}, read {fails}");
        }
    }
    Ok(())
}

#[test]
fn each_failed_write_leaves_the_pieces_before_it(rt: HostRuntime) -> Result<(), Fail> {
    let alloc = rt.alloc();
    // How much is written before each write of at most 16 bytes of what is left of a line.
    for (texts, input, whole, ends) in [
        (
            ["replay"].as_slice(),
            SWEEP,
            SWEEP_JOURNAL,
            BEFORE_EACH_WRITE.as_slice(),
        ),
        (&["generate", "40"], b"", SUMMARY, &[0, 11, 21, 28, 40]),
        (
            &["ship"],
            SALE_RECORD,
            SALE_SCHEDULE,
            &[0, 16, 30, 46, 60, 76, 90, 106],
        ),
        (&["audit"], SALE_RECORD, b"legal 2\n", &[0]),
    ] {
        for (place, end) in ends.iter().enumerate() {
            let fails = [place as u64 + 1];
            let mut disk = RamDisk::new(alloc);
            let (status, sink) = ran(alloc, texts, input, (&[], &fails), &mut disk)?;
            assert_eq!(rt; status, Status::WriteFault, "write {place}");
            assert_eq!(rt; Some(sink.bytes()), whole.get(..*end), "write {place}");
        }
    }
    Ok(())
}

#[test]
fn generate_sums_up_the_session_of_so_many_commands(rt: HostRuntime) -> Result<(), Fail> {
    let alloc = rt.alloc();
    for (commands, summary) in [
        (
            "1",
            b"entries 1\nrefused 0\nlegs 0\nblocklegs 0\nlots 0\n".as_slice(),
        ),
        ("40", SUMMARY),
        (
            "41",
            b"entries 41\nrefused 0\nlegs 0\nblocklegs 0\nlots 0\n",
        ),
        (
            "100",
            b"entries 100\nrefused 2\nlegs 2\nblocklegs 1\nlots 115\n",
        ),
        (
            "2000",
            b"entries 2000\nrefused 127\nlegs 1523\nblocklegs 47\nlots 27358\n",
        ),
        // The same at each run.
        (
            "2000",
            b"entries 2000\nrefused 127\nlegs 1523\nblocklegs 47\nlots 27358\n",
        ),
    ] {
        // Its first read would fail: nothing is read.
        let texts = ["generate", commands];
        let (status, sink) = ran(alloc, &texts, b"", (&[1], &[]), &mut RamDisk::new(alloc))?;
        assert_eq!(rt; status, Status::Done);
        assert_eq!(rt; sink.bytes(), summary);
    }
    Ok(())
}

#[test]
fn each_write_is_handed_what_is_left_of_one_line(rt: HostRuntime) -> Result<(), Fail> {
    for (texts, lengths) in [
        (
            ["replay"].as_slice(),
            [
                74, 64, 54, 44, 34, 24, 14, 4, 115, 105, 95, 85, 75, 65, 55, 45, 35, 25, 15, 5,
            ]
            .as_slice(),
        ),
        (&["generate", "40"], &[11, 1, 10, 7, 12, 2, 7]),
    ] {
        let words = words_of(rt.alloc(), texts)?;
        let mut source = SteadySource::new(rt.alloc(), SALE)?;
        let mut sink = Noting {
            lengths: Vec::new(rt.alloc()),
        };
        let status = run(
            &rt,
            rt.alloc(),
            words.as_slice(),
            &mut source,
            &mut sink,
            &OpenGate,
            &mut RamDisk::new(rt.alloc()),
        );
        assert_eq!(rt; status, Status::Done);
        assert_eq!(rt; sink.lengths.as_slice(), lengths);
    }
    Ok(())
}

#[test]
fn the_longest_input_is_read_in_so_many_reads(rt: HostRuntime) -> Result<(), Fail> {
    for (word, most, left, status, reads) in [
        // One comment whose line has no end, a byte at a time, and one byte more.
        (
            "replay",
            1,
            8_388_608,
            Status::BadSession { line: 1 },
            8_388_609,
        ),
        ("replay", 1, 8_388_609, Status::TooLong, 8_388_609),
        ("replay", 1, usize::MAX, Status::TooLong, 8_388_609),
        // In pieces of 65536 bytes; nothing divides it.
        ("replay", usize::MAX, 8_388_609, Status::TooLong, 129),
        ("store", usize::MAX, 8_388_609, Status::TooLong, 129),
        (
            "audit",
            usize::MAX,
            8_388_609,
            Status::BadSession { line: 1 },
            130,
        ),
        (
            "ship",
            usize::MAX,
            134_217_728,
            Status::BadSession { line: 1 },
            2049,
        ),
        (
            "recover",
            usize::MAX,
            134_217_728,
            Status::BadSession { line: 1 },
            2049,
        ),
        ("audit", usize::MAX, 134_217_729, Status::TooLong, 2049),
        ("recover", usize::MAX, 134_217_729, Status::TooLong, 2049),
    ] {
        let words = words_of(rt.alloc(), &[word])?;
        let mut source = Counting {
            left,
            most,
            reads: 0,
        };
        let ended = run(
            &rt,
            rt.alloc(),
            words.as_slice(),
            &mut source,
            &mut NullSink::new(),
            &OpenGate,
            &mut RamDisk::new(rt.alloc()),
        );
        assert_eq!(rt; ended, status, "{word} {left}");
        assert_eq!(rt; source.reads, reads, "{word} {left}");
    }
    Ok(())
}

#[test]
fn each_status_has_its_message(rt: HostRuntime) -> Result<(), Fail> {
    for (status, text) in [
        (Status::Done, b"".as_slice()),
        (Status::Usage, b"sidc: bad words\n"),
        (
            Status::BadSession { line: 7 },
            b"sidc: bad session, line 7\n",
        ),
        (Status::ReadFault, b"sidc: read fault\n"),
        (Status::WriteFault, b"sidc: write fault\n"),
        (Status::NoMemory, b"sidc: no memory\n"),
        (Status::TooLong, b"sidc: session too long\n"),
        (Status::Illegal { entry: 2 }, b"sidc: illegal entry 2\n"),
        (Status::DiskFault, b"sidc: disk fault\n"),
        (
            Status::BadImage { place: 82 },
            b"sidc: bad image, place 82\n",
        ),
    ] {
        assert_eq!(rt; message(rt.alloc(), &status)?.bytes(), text);
    }
    Ok(())
}
