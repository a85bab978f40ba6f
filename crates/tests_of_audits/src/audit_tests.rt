//! Verdicts on journals of small sessions, with ample memory.

use crate::sessions::{
    BOB_FIRST_JOURNAL, NO_COMMAND, REFUSALS, REFUSALS_JOURNAL, SALE, SALE_JOURNAL, verdict_on,
};
use journal_audit::Verdict;
use std::alloc::{AllocError, Global};
use std::test::Fail;

// The place of the first fault; 0 where there is none.
fn fault_in(alloc: Global, text: &[u8], journal: &[u8]) -> Result<u64, Fail> {
    match verdict_on(alloc, text, journal)? {
        Verdict::Legal(_) => Ok(0),
        Verdict::Illegal { entry } => Ok(entry),
    }
}

// Pieces of a journal as one.
fn joined(alloc: Global, pieces: &[&[u8]]) -> Result<Vec<u8>, AllocError> {
    let mut journal = Vec::new(alloc);
    for piece in pieces {
        journal.extend_from_slice(piece)?;
    }
    Ok(journal)
}

#[test]
fn a_complete_journal_is_legal(rt: HostRuntime) -> Result<(), Fail> {
    let alloc = rt.alloc();
    let sale = joined(alloc, &SALE_JOURNAL)?;
    for (text, journal, count) in [
        (SALE, sale.as_slice(), 2),
        (SALE, BOB_FIRST_JOURNAL, 2),
        (REFUSALS, REFUSALS_JOURNAL, 6),
        (NO_COMMAND, b"".as_slice(), 0),
    ] {
        let Verdict::Legal(entries) = verdict_on(alloc, text, journal)? else {
            return Err(Fail::from("not legal"));
        };
        assert_eq!(rt; entries.len(), count);
    }
    Ok(())
}

#[test]
fn each_first_fault_is_told(rt: HostRuntime) -> Result<(), Fail> {
    let alloc = rt.alloc();
    let [ann, bob] = SALE_JOURNAL;
    let unended = bob.split_at(bob.len().saturating_sub(1)).0;
    let stranger =
        b"{\"caller\":\"cat\",\"command\":1,\"entry\":3,\"refused\":[\"UnknownOrder\"]}\n";
    let cases: [(&[&[u8]], u64); 13] = [
        (&[ann, bob], 0),
        (&[], 1),
        (&[ann], 2),
        (&[bob], 1),
        (&[bob, ann], 1),
        (&[ann, ann, bob], 2),
        (&[ann, bob, bob], 3),
        (&[ann, unended], 2),
        (&[b"# a sale\n", ann, bob], 1),
        (&[ann, b"\n", bob], 2),
        (&[ann, bob, b"\n"], 3),
        (&[ann, bob, b"x"], 3),
        (&[ann, bob, stranger], 3),
    ];
    for (pieces, fault) in cases {
        let journal = joined(alloc, pieces)?;
        assert_eq!(rt; fault_in(alloc, SALE, journal.as_slice())?, fault);
    }
    assert_eq!(rt; fault_in(alloc, NO_COMMAND, ann)?, 1);
    Ok(())
}

#[test]
fn each_changed_byte_is_found_at_its_line(rt: HostRuntime) -> Result<(), Fail> {
    let alloc = rt.alloc();
    let mut journal = joined(alloc, &SALE_JOURNAL)?;
    for place in 0..journal.len() {
        let line = if place < SALE_JOURNAL[0].len() { 1 } else { 2 };
        if let Some(byte) = journal.get_mut(place) {
            *byte ^= 1;
        }
        assert_eq!(rt;
            fault_in(alloc, SALE, journal.as_slice())?,
            line,
            "byte {place}"
        );
        if let Some(byte) = journal.get_mut(place) {
            *byte ^= 1;
        }
    }
    Ok(())
}
