//! A delivery day: its hours and quarters by instants, and the phases of its hours.

ghost use Rattle.std.specs.Prelude.{◌≡◌, ℤ, ◌*◌, ◌<◌, ◌≤◌, ◌↔◌, pos, ◌+ℤ◌, ◌-ℤ◌, ◌*ℤ◌, IsOk, IfOk, IfSome, is_some};
ghost use Rattle.jiff_core.specs.Date.{epoch_day};
ghost use Rattle.jiff_core.specs.declared.civil.date.Date.{Date as PlainDate};
ghost use Rattle.order_kinds.specs.declared.contract.Quarter.{Quarter as PlainQuarter};
ghost use Rattle.contract_calendar.specs.Clock.{ShowsMidnight, midnight_of};
ghost use Rattle.contract_calendar.specs.Day as days;

use crate::clock;
use jiff::Timestamp;
use jiff::civil::Date;
use order_kinds::{Phase, Quarter};
use std::marker::Model;

// The seconds of an hour.
const HOUR_SECONDS: u32 = 3_600;

// How many seconds before an hour starts its trading becomes local, and closes.
const LOCAL_SECONDS: u32 = 3_600;

const CLOSED_SECONDS: u32 = 300;

// The nanoseconds of a second, and of a quarter of an hour.
const SECOND: i128 = 1_000_000_000;

const QUARTER: u64 = 900_000_000_000;

/// There is no delivery day of a date outside the years 2000 to 2099.
#[derive(Clone, Copy, Debug, PartialEq, Eq)]
pub struct NoSuchDay;

/// A delivery day: a day of Central European time of the years 2000 to 2099.
///
/// Contracts see the second of its midnight, counted from 1970-01-01T00:00:00Z, and how many hours
/// it has. Its hours are numbered from 1 in the order in which they come, and each has quarters 1
/// to 4.
#[derive(Clone, Copy, Debug, PartialEq, Eq)]
pub struct Day {
    midnight: i64,
    hours: u32,
}

impl Model for Day {
    ghost use Rattle.std.specs.Prelude.{◌≤◌};
    ghost use Rattle.jiff_core.specs.Calendar.{IsWithin};
    ghost use Rattle.contract_calendar.specs.Day.{DeliveryDay};

    ghost Value = { DeliveryDay };

    ghost view = { λ day. record { midnight = day.midnight; hours = day.hours } };

    ghost inverse = { λ day. record { midnight = day.midnight; hours = day.hours } };

    ghost invariant = { λ day. IsWithin 400_000_000_000 day.midnight × (23 ≤ day.hours)
        × (day.hours ≤ 25) };
}

impl Day {
    /// The delivery day of a date.
    ///
    /// Its midnight is the one instant at which the clock shows 00:00 of the date, and its last
    /// hour ends at the midnight of the next date.
    ///
    /// # Errors
    ///
    /// [`NoSuchDay`] exactly where the date's year is not 2000 to 2099.
    #[tactic(auto, using(crate::proofs::ClockLemmas::shows_midnight))]
    pub fn new(date: Date) -> Result<Day, NoSuchDay>
        ensures traded { IsOk result ↔ days.IsTraded date }
        ensures value { IfOk result (λ day. day ≡ days.day_of date) }
        ensures clock { IfOk result (λ day.
            (second : ℤ) → ShowsMidnight date second ↔ (second ≡ day.midnight)) }
        ensures end { IfOk result (λ day. (next : PlainDate)
            → epoch_day next ≡ epoch_day date +ℤ pos 1 → midnight_of next ≡ days.day_end day) }
    {
        if date.year() < 2000 || date.year() > 2099 {
            return Err(NoSuchDay);
        }
        Ok(Day {
            midnight: clock::find_midnight(date),
            hours: clock::count_hours(date),
        })
    }

    /// How many hours the day has: 23 on the last Sunday of March, 25 on the last Sunday of
    /// October, and 24 on any other date.
    pub fn hours(&self) -> u32
        ensures value { result ≡ self.now.hours }
        ensures least { 23 ≤ result }
        ensures most { result ≤ 25 }
    {
        self.hours
    }

    /// The quarter in which an instant lies, or `None` exactly where the instant is before the
    /// day's midnight, or at its end or later.
    ///
    /// Each quarter has 900 seconds and holds the instant at which it starts, and not the one at
    /// which the next starts.
    #[tactic(auto, using(crate::proofs::QuarterLemmas::the_quarter))]
    pub fn quarter_of(&self, instant: Timestamp) -> Option<Quarter>
        ensures inside { is_some result ≡ days.is_in_day self.now instant.nanosecond }
        ensures found { IfSome result (days.IsQuarterAt self.now instant.nanosecond) }
        ensures only { IfSome result (λ found. (other : PlainQuarter)
            → days.IsQuarterAt self.now instant.nanosecond other → other ≡ found) }
    {
        let quarters = self.since_midnight(instant)? / QUARTER;
        Some(Quarter {
            hour: (quarters / 4) as u32 + 1,
            number: (quarters % 4) as u32 + 1,
        })
    }

    /// The phase of an hour at an instant, by its gates alone: closed from 300 seconds before the
    /// hour starts, local from 3600 seconds before it starts until then, and open before that.
    ///
    /// A phase begins with its whole second: half a second before a gate is before it.
    ///
    /// That trade between bidding zones ends an hour before delivery is within article 59 of
    /// Regulation (EU) 2015/1222, which allows at most that hour. The 300 seconds are this
    /// project's own.
    pub fn phase_at(&self, hour: u32, instant: Timestamp) -> Phase
        requires first { 1 ≤ hour }
        requires last { hour ≤ self.now.hours }
        ensures { result ≡ days.phase_at self.now hour instant.nanosecond }
    {
        if self.starts_within(hour, CLOSED_SECONDS, instant) {
            Phase::Closed
        } else if self.starts_within(hour, LOCAL_SECONDS, instant) {
            Phase::Local
        } else {
            Phase::Open
        }
    }

    // Whether an hour starts at most so many seconds after an instant, or has started.
    fn starts_within(&self, hour: u32, seconds: u32, instant: Timestamp) -> bool
        requires first { 1 ≤ hour }
        requires last { hour ≤ self.now.hours }
        ensures { result
            ≡ days.has_come (days.hour_start self.now hour -ℤ pos seconds) instant.nanosecond }
    {
        let start = self.midnight + ((hour - 1) * HOUR_SECONDS) as i64;
        has_come(start - seconds as i64, instant)
    }

    // The nanoseconds from the day's midnight to an instant of the day.
    #[tactic(auto, using(crate::proofs::QuarterLemmas::before_day))]
    fn since_midnight(&self, instant: Timestamp) -> Option<u64>
        ensures inside { is_some result ≡ days.is_in_day self.now instant.nanosecond }
        ensures value { IfSome result (λ since. instant.nanosecond
            ≡ self.now.midnight *ℤ pos 1_000_000_000 +ℤ pos since) }
        ensures bound { IfSome result (λ since. since < self.now.hours * 3_600_000_000_000) }
        ensures most { IfSome result (λ since. since < 90_000_000_000_000) }
    {
        let since = instant.as_nanosecond() - self.midnight as i128 * SECOND;
        if since < 0 {
            return None;
        }
        if since >= (self.hours * HOUR_SECONDS) as i128 * SECOND {
            return None;
        }
        Some(since as u64)
    }
}

// Whether an instant is at a second, counted from 1970-01-01T00:00:00Z, or after it.
fn has_come(second: i64, instant: Timestamp) -> bool
    ensures { result ≡ days.has_come second instant.nanosecond }
{
    second as i128 * SECOND <= instant.as_nanosecond()
}
