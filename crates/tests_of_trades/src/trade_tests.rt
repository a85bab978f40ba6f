//! Sessions whose callers give their commands on threads of their own.

ghost use Rattle.std.specs.Prelude.{◌≤◌};

use crate::journals::{count_of, first_difference, lines_of, reordered};
use crate::meeting::Meeting;
use crate::runs::run_word;
use crate::sessions::{HEADER, repeated};
use load_maker::session_text;
use outside::OpenGate;
use session_run::Status;
use std::alloc::{AllocError, Global};
use std::process::Abort;
use std::str::from_utf8;
use std::sync::Wait;
use std::test::Fail;
use std::thread::Threads;

#[test]
fn a_session_without_commands_has_an_empty_journal(rt: HostRuntime) -> Result<(), Fail> {
    let (status, sink) = run_word(&rt, rt.alloc(), "trade", HEADER, &OpenGate)?;
    assert_eq!(rt; status, Status::Done);
    assert_eq!(rt; sink.bytes(), b"".as_slice());
    Ok(())
}

#[test]
fn commands_of_two_hours_are_planned_at_once(rt: HostRuntime) -> Result<(), Fail> {
    let alloc: Global = rt.alloc();
    let lines = ["ann buy h3 DE 1.0 10.00", "bob buy h5 DE 1.0 10.00"];
    let session = repeated(alloc, &lines, 1)?;
    let gate = Meeting::new(3, 5);
    let (status, sink) = run_word(&rt, alloc, "trade", session.as_str(), &gate)?;
    assert_eq!(rt; status, Status::Done);
    // Each was planned once, while the other was held, and answered once.
    assert_eq!(rt; gate.one.told(), (1, true, 1));
    assert_eq!(rt; gate.other.told(), (1, true, 1));
    assert_eq!(rt; gate.strangers(), 0);
    let journal = from_utf8(sink.bytes())?;
    assert_eq!(rt; journal.lines().count(), 2);
    check_entered(&rt, alloc, journal, "ann", "h3", "\"h3\"", 1)?;
    check_entered(&rt, alloc, journal, "bob", "h5", "\"h5\"", 1)?;
    Ok(())
}

#[test]
fn blocks_of_two_callers_enter_in_their_order(rt: HostRuntime) -> Result<(), Fail> {
    let alloc: Global = rt.alloc();
    let lines = [
        "ann sellblock h10 h13 DE 1.0 40.00",
        "bob buyblock h12 h15 FR 1.0 45.00",
    ];
    let session = repeated(alloc, &lines, 200)?;
    let (status, sink) = run_word(&rt, alloc, "trade", session.as_str(), &OpenGate)?;
    assert_eq!(rt; status, Status::Done);
    let journal = from_utf8(sink.bytes())?;
    assert_eq!(rt; journal.lines().count(), 400);
    check_entered(&rt, alloc, journal, "ann", "h10", "\"h10\",\"h13\"", 200)?;
    check_entered(&rt, alloc, journal, "bob", "h12", "\"h12\",\"h15\"", 200)?;
    check_places(&rt, alloc, journal)?;
    Ok(())
}

#[test]
fn orders_of_one_hour_enter_one_after_the_other(rt: HostRuntime) -> Result<(), Fail> {
    let alloc: Global = rt.alloc();
    let lines = ["ann buy h12 DE 1.0 10.00", "bob buy h12 FR 1.0 10.00"];
    let session = repeated(alloc, &lines, 500)?;
    let session = session.as_str();
    let (status, sink) = run_word(&rt, alloc, "trade", session, &OpenGate)?;
    assert_eq!(rt; status, Status::Done);
    let journal = from_utf8(sink.bytes())?;
    assert_eq!(rt; journal.lines().count(), 1000);
    check_numbers(&rt, alloc, session, journal, "ann")?;
    check_numbers(&rt, alloc, session, journal, "bob")?;
    check_names(&rt, alloc, journal)?;
    Ok(())
}

#[test]
fn drawn_sessions_are_traded_as_they_are_replayed_in_some_order(
    rt: HostRuntime,
) -> Result<(), Fail> {
    for commands in [1, 41, 60, 200] {
        check_drawn(&rt, rt.alloc(), commands)?;
    }
    Ok(())
}

// The session that is drawn for so many commands is traded, and its journal has as many entries.
fn check_drawn<R: Threads + Wait + Sync + Abort>(
    rt: &R,
    alloc: Global,
    commands: u32,
) -> Result<(), Fail>
    requires some { 1 ≤ commands }
    requires few { commands ≤ 100000 }
{
    let text = session_text(alloc, commands)?;
    let session = from_utf8(text.bytes())?;
    let (status, sink) = run_word(rt, alloc, "trade", session, &OpenGate)?;
    assert_eq!(rt; status, Status::Done, "{commands} commands");
    let journal = from_utf8(sink.bytes())?;
    assert_eq!(rt; journal.lines().count(), commands as usize);
    check_traded(rt, alloc, session, journal)
}

// Each caller's commands are numbered without a gap, and the journal is that of the session whose lines stand in its
// order.
fn check_traded<R: Threads + Wait + Sync + Abort>(
    rt: &R,
    alloc: Global,
    session: &str,
    journal: &str,
) -> Result<(), Fail> {
    for caller in ["t1", "t2", "t3", "t4", "t5", "t6", "tso"] {
        check_numbers(rt, alloc, session, journal, caller)?;
    }
    let turned = reordered(alloc, session, journal)?;
    check_replayed(rt, alloc, turned.as_str(), journal)
}

// A journal is that of a session that is replayed.
fn check_replayed<R: Threads + Wait + Sync + Abort>(
    rt: &R,
    alloc: Global,
    session: &str,
    journal: &str,
) -> Result<(), Fail> {
    let (status, sink) = run_word(rt, alloc, "replay", session, &OpenGate)?;
    assert_eq!(rt; status, Status::Done);
    let replayed = from_utf8(sink.bytes())?;
    assert_eq!(rt; first_difference(journal, replayed), None);
    assert_eq!(rt; journal.len(), replayed.len());
    Ok(())
}

// A journal has as many lines of a caller as a session, and they are numbered from 1 without a gap.
fn check_numbers<R: Abort>(
    rt: &R,
    alloc: Global,
    session: &str,
    journal: &str,
    caller: &str,
) -> Result<(), AllocError> {
    let lines = lines_of(alloc, journal, caller)?;
    assert_eq!(rt; lines.len(), count_of(session, caller), "{caller}");
    for (command, line) in (1..=u32::MAX).zip(lines.iter()) {
        let wanted = format!(in alloc; "{{\"caller\":\"{caller}\",\"command\":{command},")?;
        check_beginning(rt, line, wanted.as_str());
    }
    Ok(())
}

// Of each of so many commands of a caller a journal says, in their order, that what is numbered like it entered for
// such a delivery.
fn check_entered<R: Abort>(
    rt: &R,
    alloc: Global,
    journal: &str,
    caller: &str,
    hour: &str,
    delivery: &str,
    count: usize,
) -> Result<(), AllocError> {
    let lines = lines_of(alloc, journal, caller)?;
    assert_eq!(rt; lines.len(), count, "{caller}");
    for (command, line) in (1..=u32::MAX).zip(lines.iter()) {
        let wanted = format!(in alloc;
            "{{\"caller\":\"{caller}\",\"command\":{command},\"done\":[[\"entered\",\"{hour}#{command}\",{delivery}]],\"entry\":"
        )?;
        check_beginning(rt, line, wanted.as_str());
    }
    Ok(())
}

// The lines of a journal end with their places.
fn check_places<R: Abort>(rt: &R, alloc: Global, journal: &str) -> Result<(), AllocError> {
    for (entry, line) in (1..=u32::MAX).zip(journal.lines()) {
        let wanted = format!(in alloc; ",\"entry\":{entry}}}")?;
        check_end(rt, line, wanted.as_str());
    }
    Ok(())
}

// The lines of a journal say that orders of hour 12 entered, each numbered by its line's place.
fn check_names<R: Abort>(rt: &R, alloc: Global, journal: &str) -> Result<(), AllocError> {
    for (entry, line) in (1..=u32::MAX).zip(journal.lines()) {
        let wanted = format!(in alloc;
            ",\"done\":[[\"entered\",\"h12#{entry}\",\"h12\"]],\"entry\":{entry}}}"
        )?;
        check_end(rt, line, wanted.as_str());
    }
    Ok(())
}

fn check_beginning<R: Abort>(rt: &R, line: &str, wanted: &str) {
    assert!(rt;
        line.starts_with(wanted),
        "{line} is to begin with {wanted}"
    );
}

fn check_end<R: Abort>(rt: &R, line: &str, wanted: &str) {
    assert!(rt; line.ends_with(wanted), "{line} is to end with {wanted}");
}
