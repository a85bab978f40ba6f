//! Logs of changes: each call once with ample memory, the order in which records come back, and a row of steps.

use std::alloc::Global;
use std::process::Abort;
use undo_log::{NoMemory, UndoLog};

#[derive(Clone, Copy, Debug)]
enum Step {
    Reserve(usize),
    Note(u32),
    Back(Option<u32>),
    Clear,
}

// Notes a change where there is room for it, which has to be there.
fn note<C: Drop>(rt: &impl Abort, log: &mut UndoLog<C>, change: C) {
    let room = log.spare();
    assert!(rt; 0 < room);
    log.note(change);
    assert_eq!(rt; log.spare(), room - 1);
}

// Makes one step and asserts its answer.
fn make(rt: &impl Abort, log: &mut UndoLog<u32>, step: Step) {
    match step {
        Step::Reserve(more) => {
            assert_eq!(rt; log.reserve(more), Ok(()));
            assert!(rt; more <= log.spare());
        }
        Step::Note(change) => note(rt, log, change),
        Step::Back(want) => assert_eq!(rt; log.back(), want),
        Step::Clear => log.clear(),
    }
}

// Makes the steps one after the other, and looks at how many changes the log then has.
fn make_all(rt: &impl Abort, log: &mut UndoLog<u32>, rows: &[(Step, usize)]) {
    for (step, len) in rows {
        make(rt, log, *step);
        assert_eq!(rt; log.len(), *len, "after {step:?}");
    }
}

// No memory is so large that a log could reserve all: it stays as it was.
fn expect_no_memory(rt: &impl Abort, log: &mut UndoLog<u32>) {
    let room = log.spare();
    assert_eq!(rt; log.reserve(usize::MAX), Err(NoMemory));
    assert_eq!(rt; log.spare(), room);
}

fn bytes(rt: &impl Abort, alloc: Global, byte: u8) -> Vec<u8> {
    let mut bytes = Vec::new(alloc);
    bytes.resize(2, byte).expect(rt, "memory");
    bytes
}

// Notes two bytes of each value below 200.
fn note_all(rt: &impl Abort, alloc: Global, log: &mut UndoLog<Vec<u8>>) {
    assert_eq!(rt; log.reserve(200), Ok(()));
    for byte in 0..200u8 {
        note(rt, log, bytes(rt, alloc, byte));
    }
    assert_eq!(rt; log.len(), 200);
}

// Takes back those of the last hundred values.
fn expect_last_back(rt: &impl Abort, alloc: Global, log: &mut UndoLog<Vec<u8>>) {
    for byte in (100..200u8).rev() {
        assert_eq!(rt; log.back(), Some(bytes(rt, alloc, byte)));
    }
    assert_eq!(rt; log.len(), 100);
}

#[test]
fn records_come_back_in_the_opposite_order(rt: HostRuntime) {
    let mut log = UndoLog::new(rt.alloc()).expect(&rt, "memory");
    note_all(&rt, rt.alloc(), &mut log);
    expect_last_back(&rt, rt.alloc(), &mut log);
    log.clear();
    assert_eq!(rt; log.back(), None);

    // what a log holds goes with it
    note(&rt, &mut log, bytes(&rt, rt.alloc(), 1));
}

const ROWS: [(Step, usize); 22] = [
    (Step::Back(None), 0),
    (Step::Reserve(0), 0),
    (Step::Reserve(2), 0),
    (Step::Note(1), 1),
    (Step::Note(2), 2),
    (Step::Back(Some(2)), 1),
    (Step::Note(3), 2),
    (Step::Reserve(5), 2),
    (Step::Note(4), 3),
    (Step::Note(4), 4),
    (Step::Back(Some(4)), 3),
    (Step::Back(Some(4)), 2),
    (Step::Back(Some(3)), 1),
    (Step::Back(Some(1)), 0),
    (Step::Back(None), 0),
    (Step::Note(5), 1),
    (Step::Note(6), 2),
    (Step::Clear, 0),
    (Step::Back(None), 0),
    (Step::Clear, 0),
    (Step::Note(7), 1),
    (Step::Back(Some(7)), 0),
];

#[test]
fn a_row_of_steps(rt: HostRuntime) {
    let mut log = UndoLog::new(rt.alloc()).expect(&rt, "memory");
    make_all(&rt, &mut log, ROWS.as_slice());
    assert!(rt; log.is_empty());
    expect_no_memory(&rt, &mut log);
}
