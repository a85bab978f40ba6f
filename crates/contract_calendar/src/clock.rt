//! The clock of Central European time: when a date's midnight is, and how many hours a date has.

ghost use Rattle.std.specs.Prelude.{◌≡◌, ◌+◌, ◌-◌, ◌≤◌, ◌-ℤ◌, pos, nat_le};
ghost use Rattle.jiff_core.specs.Calendar.{IsWithin};
ghost use Rattle.jiff_core.specs.Date.{epoch_day, weekday_of};
ghost use Rattle.contract_calendar.specs.Clock.{day_start, is_summer, midnight_of};
ghost use Rattle.contract_calendar.specs.Day.{hours_of_day, is_last_sunday};

use jiff::civil::Date;

// The seconds of a day of 24 hours.
const DAY_SECONDS: i64 = 86_400;

// By how many seconds the clock is ahead of UTC in winter, and in summer.
const WINTER_AHEAD: i64 = 3_600;

const SUMMER_AHEAD: i64 = 7_200;

// The second, counted from 1970-01-01T00:00:00Z, at which the clock shows 00:00 of a date.
pub(crate) fn find_midnight(date: Date) -> i64
    ensures value { result ≡ midnight_of date }
    ensures bound { IsWithin 400_000_000_000 result }
{
    let start = date.to_plain().to_unix_epoch_day() as i64 * DAY_SECONDS;
    if starts_in_summer(date) {
        start - SUMMER_AHEAD
    } else {
        start - WINTER_AHEAD
    }
}

// Whether the clock is 2 hours ahead of UTC at a date's midnight.
fn starts_in_summer(date: Date) -> bool
    ensures { result ≡ is_summer date.year (day_start (epoch_day date) -ℤ pos 7_200) }
{
    match date.month() {
        3 => !has_sunday_left(date),
        4..=9 => true,
        10 => has_sunday_left(date),
        _ => false,
    }
}

// Whether a date of a month of 31 days is a Sunday or has one after it in its month.
fn has_sunday_left(date: Date) -> bool
    ensures { result ≡ nat_le (date.day + (6 - weekday_of date)) 31 }
{
    date.day() + (6 - date.weekday().to_monday_zero_offset()) <= 31
}

// How many hours a date has: 23 on the last Sunday of March, 25 on the last Sunday of October,
// else 24.
#[tactic(auto, unfolding(crate::specs::Day::hours_of_day))]
pub(crate) fn count_hours(date: Date) -> u32
    ensures value { result ≡ hours_of_day date }
    ensures least { 23 ≤ result }
    ensures most { result ≤ 25 }
{
    if !is_on_last_sunday(date) {
        return 24;
    }
    match date.month() {
        3 => 23,
        10 => 25,
        _ => 24,
    }
}

// Whether a date is the last Sunday of its month.
fn is_on_last_sunday(date: Date) -> bool
    ensures { result ≡ is_last_sunday date }
{
    date.weekday().to_monday_zero_offset() == 6 && date.day() + 7 > date.days_in_month()
}
