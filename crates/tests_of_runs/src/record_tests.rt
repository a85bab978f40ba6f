//! Runs of `audit` and `ship`, where no clause says what comes.

use crate::records::{
    CHANGED_LINE, EMPTY_RECORD, GRANT_RECORD, GRANT_SCHEDULE, LINE_TWICE, LINE_WANTING,
    LINES_EXCHANGED, SALE_RECORD, SALE_SCHEDULE, UNDIVIDED,
};
use crate::sessions::ran;
use disk_model::RamDisk;
use session_run::Status;
use std::test::Fail;

#[test]
fn complete_journals_are_legal_and_shipped(rt: HostRuntime) -> Result<(), Fail> {
    let alloc = rt.alloc();
    for (word, record, written) in [
        ("audit", SALE_RECORD, b"legal 2\n".as_slice()),
        ("audit", GRANT_RECORD, b"legal 4\n"),
        ("audit", EMPTY_RECORD, b"legal 0\n"),
        ("ship", SALE_RECORD, SALE_SCHEDULE),
        ("ship", GRANT_RECORD, GRANT_SCHEDULE),
        ("ship", EMPTY_RECORD, b""),
    ] {
        let (status, sink) = ran(alloc, &[word], record, (&[], &[]), &mut RamDisk::new(alloc))?;
        assert_eq!(rt; status, Status::Done, "{word}");
        assert_eq!(rt; sink.bytes(), written, "{word}");
    }
    Ok(())
}

#[test]
fn the_first_fault_is_told(rt: HostRuntime) -> Result<(), Fail> {
    let alloc = rt.alloc();
    for word in ["audit", "ship"] {
        for (record, told) in [
            (CHANGED_LINE, Status::Illegal { entry: 2 }),
            (LINE_WANTING, Status::Illegal { entry: 2 }),
            (LINES_EXCHANGED, Status::Illegal { entry: 1 }),
            (LINE_TWICE, Status::Illegal { entry: 3 }),
            (UNDIVIDED, Status::BadSession { line: 10 }),
        ] {
            let (status, sink) = ran(alloc, &[word], record, (&[], &[]), &mut RamDisk::new(alloc))?;
            assert_eq!(rt; status, told, "{word}");
            assert_eq!(rt; sink.bytes(), b"".as_slice(), "{word}");
        }
    }
    Ok(())
}
