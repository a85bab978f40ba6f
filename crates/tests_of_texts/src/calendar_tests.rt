//! Days, by examples from outside: dates of the clock's changes, and instants at the edges of hours,
//! quarters and gates.

use contract_calendar::{Day, NoSuchDay};
use jiff::Timestamp;
use jiff::civil::Date;
use order_kinds::{Phase, Quarter};
use std::process::Abort;

// A year, a month and a day.
type Parts = (i16, i8, i8);

const SHORT: Parts = (2025, 3, 30);

const LONG: Parts = (2025, 10, 26);

const PLAIN: Parts = (2025, 6, 17);

const NEW_YEAR: Parts = (2025, 1, 1);

const FIRST: Parts = (2000, 1, 1);

// The day of a date, or none where it is not traded.
fn made(rt: &impl Abort, (year, month, day): Parts) -> Result<Day, NoSuchDay> {
    match Date::new(year, month, day) {
        Ok(date) => Day::new(date),
        Err(_) => rt.panic("no such date"),
    }
}

fn day_of(rt: &impl Abort, parts: Parts) -> Day {
    made(rt, parts).expect(rt, "a day")
}

fn instant_of(rt: &impl Abort, text: &str) -> Timestamp {
    match text.parse::<Timestamp>() {
        Ok(instant) => instant,
        Err(_) => rt.panic("no instant"),
    }
}

// A day has so many hours.
fn expect_hours(rt: &impl Abort, parts: Parts, hours: u32) {
    assert_eq!(rt; day_of(rt, parts).hours(), hours, "{parts:?}");
}

// A year, and its last Sundays of March and of October.
const LAST_SUNDAYS: [(i16, i8, i8); 6] = [
    (2000, 26, 29),
    (2003, 30, 26),
    (2024, 31, 27),
    (2025, 30, 26),
    (2050, 27, 30),
    (2099, 29, 25),
];

// Days of the other months.
const OTHER_DAYS: [(i8, i8); 7] = [(1, 1), (2, 28), (4, 1), (6, 17), (9, 30), (11, 1), (12, 31)];

// The days of a year have their hours.
fn expect_year(rt: &impl Abort, year: i16, march: i8, october: i8) {
    for day in 1..32 {
        expect_hours(rt, (year, 3, day), if day == march { 23 } else { 24 });
        expect_hours(rt, (year, 10, day), if day == october { 25 } else { 24 });
    }
    for (month, day) in OTHER_DAYS.as_slice() {
        expect_hours(rt, (year, *month, *day), 24);
    }
}

#[test]
fn last_sundays_of_march_and_october(rt: HostRuntime) {
    for (year, march, october) in LAST_SUNDAYS.as_slice() {
        expect_year(&rt, *year, *march, *october);
    }
}

// Dates, and whether they are traded.
const TRADED: [(Parts, bool); 5] = [
    ((1999, 12, 31), false),
    ((2000, 1, 1), true),
    ((2099, 12, 31), true),
    ((2100, 1, 1), false),
    ((-2025, 6, 17), false),
];

#[test]
fn years_that_are_traded(rt: HostRuntime) {
    for (parts, traded) in TRADED.as_slice() {
        assert_eq!(rt; made(&rt, *parts).is_ok(), *traded, "{parts:?}");
    }
    assert_eq!(rt; made(&rt, (1999, 12, 31)), Err(NoSuchDay));
}

// A day, an instant, and the quarter in which it lies: its hour and its number.
const QUARTERS: [(Parts, &str, Option<(u32, u32)>); 19] = [
    (SHORT, "2025-03-29T22:59:59.999999999Z", None),
    (SHORT, "2025-03-29T23:00:00Z", Some((1, 1))),
    (SHORT, "2025-03-30T00:59:59Z", Some((2, 4))),
    (SHORT, "2025-03-30T01:00:00Z", Some((3, 1))),
    (SHORT, "2025-03-30T21:59:59.999999999Z", Some((23, 4))),
    (SHORT, "2025-03-30T22:00:00Z", None),
    (LONG, "2025-10-25T21:59:59Z", None),
    (LONG, "2025-10-25T22:00:00Z", Some((1, 1))),
    (LONG, "2025-10-25T22:14:59.999999999Z", Some((1, 1))),
    (LONG, "2025-10-25T22:15:00Z", Some((1, 2))),
    (LONG, "2025-10-26T00:59:59Z", Some((3, 4))),
    (LONG, "2025-10-26T01:00:00Z", Some((4, 1))),
    (LONG, "2025-10-26T22:59:59Z", Some((25, 4))),
    (LONG, "2025-10-26T23:00:00Z", None),
    (PLAIN, "2025-06-16T22:00:00Z", Some((1, 1))),
    (PLAIN, "2025-06-17T09:44:59.5Z", Some((12, 3))),
    (PLAIN, "2025-06-17T21:59:59Z", Some((24, 4))),
    (PLAIN, "2025-06-17T22:00:00Z", None),
    (PLAIN, "1969-12-31T23:59:59.5Z", None),
];

// An instant lies in a quarter of a day, or in none.
fn expect_quarter(rt: &impl Abort, parts: Parts, text: &str, place: Option<(u32, u32)>) {
    let found = day_of(rt, parts).quarter_of(instant_of(rt, text));
    let wanted = match place {
        Some((hour, number)) => Some(Quarter { hour, number }),
        None => None,
    };
    assert_eq!(rt; found, wanted, "{text}");
}

#[test]
fn quarters_at_their_edges(rt: HostRuntime) {
    for (parts, text, place) in QUARTERS.as_slice() {
        expect_quarter(&rt, *parts, text, *place);
    }
}

// A day, an hour, an instant, and the phase of the hour then.
const PHASES: [(Parts, u32, &str, Phase); 23] = [
    (PLAIN, 1, "2025-06-16T20:59:59.999999999Z", Phase::Open),
    (PLAIN, 1, "2025-06-16T21:00:00Z", Phase::Local),
    (PLAIN, 1, "2025-06-16T21:54:59.999999999Z", Phase::Local),
    (PLAIN, 1, "2025-06-16T21:55:00Z", Phase::Closed),
    (PLAIN, 1, "2025-06-17T22:00:00Z", Phase::Closed),
    (PLAIN, 24, "2025-06-17T20:00:00Z", Phase::Local),
    (PLAIN, 1, "1969-12-31T23:59:59.5Z", Phase::Open),
    (SHORT, 3, "2025-03-30T00:54:59Z", Phase::Local),
    (SHORT, 3, "2025-03-30T00:55:00Z", Phase::Closed),
    (SHORT, 23, "2025-03-30T19:59:59Z", Phase::Open),
    (SHORT, 23, "2025-03-30T20:00:00Z", Phase::Local),
    (LONG, 4, "2025-10-25T23:59:59Z", Phase::Open),
    (LONG, 4, "2025-10-26T00:00:00Z", Phase::Local),
    (LONG, 25, "2025-10-26T21:54:59Z", Phase::Local),
    (LONG, 25, "2025-10-26T21:55:00Z", Phase::Closed),
    (NEW_YEAR, 1, "2024-12-31T21:59:59Z", Phase::Open),
    (NEW_YEAR, 1, "2024-12-31T22:00:00Z", Phase::Local),
    (NEW_YEAR, 1, "2024-12-31T22:54:59Z", Phase::Local),
    (NEW_YEAR, 1, "2024-12-31T22:55:00Z", Phase::Closed),
    (NEW_YEAR, 2, "2024-12-31T22:59:59Z", Phase::Open),
    (NEW_YEAR, 2, "2024-12-31T23:00:00Z", Phase::Local),
    (NEW_YEAR, 2, "2024-12-31T23:55:00Z", Phase::Closed),
    (FIRST, 1, "1999-12-31T22:00:00Z", Phase::Local),
];

// An hour of a day has a phase at an instant.
fn expect_phase(rt: &impl Abort, parts: Parts, hour: u32, text: &str, phase: Phase) {
    let day = day_of(rt, parts);
    assert!(rt; 1 <= hour && hour <= day.hours(), "{text}");
    assert_eq!(rt;
        day.phase_at(hour, instant_of(rt, text)),
        phase,
        "{hour} {text}"
    );
}

#[test]
fn phases_at_their_gates(rt: HostRuntime) {
    for (parts, hour, text, phase) in PHASES.as_slice() {
        expect_phase(&rt, *parts, *hour, text, *phase);
    }
}
