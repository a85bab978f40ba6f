//! Dates and instants.

ghost use Rattle.std.specs.Prelude.{◌≡◌, ◌<◌, ◌≤◌, pos, None, Some, IfSome, IsSomeAnd, MatchOption};
ghost use Rattle.jiff_core.specs.Calendar.{IsBetween};
ghost use Rattle.market_spelling.specs.Dates as dates;

use crate::numbers::read_number;
use jiff::Timestamp;
use jiff::civil::Date;

/// A date of the years 2000 to 2099: four digits, two and two, with hyphens between.
#[tactic(auto, unfolding(crate::specs::Dates::date_of))]
pub fn read_date(bytes: &[u8]) -> Option<Date>
    ensures value { result ≡ dates.date_of bytes.now }
    ensures years { IfSome result (λ date. IsBetween (pos 2000) (pos 2099) date.year) }
{
    let (year, month, day) = read_parts_of_date(bytes)?;
    make_date(year, month, day)
}

// The date of a year, a month and a day, where the calendar has it.
fn make_date(year: u32, month: u32, day: u32) -> Option<Date>
    requires year { year ≤ 2099 }
    requires month { month < 100 }
    requires day { day < 100 }
    ensures value { result ≡ dates.date_of_parts (year, month, day) }
    ensures years { IfSome result (λ date. date.year ≡ pos year) }
{
    match Date::new(year as i16, month as i8, day as i8) {
        Ok(date) => Some(date),
        Err(_) => None,
    }
}

// The year, the month and the day of a date of the years 2000 to 2099, whether or not there is
// such a day.
#[tactic(auto, unfolding(crate::specs::Dates::parts_of_date))]
fn read_parts_of_date(bytes: &[u8]) -> Option<(u32, u32, u32)>
    ensures value { result ≡ dates.parts_of_date bytes.now }
    ensures years { IfSome result (λ parts. (2000 ≤ parts.0) × (parts.0 ≤ 2099)) }
    ensures below { IfSome result (λ parts. (parts.1 < 100) × (parts.2 < 100)) }
{
    if bytes.len() != 10 || bytes[4] != b'-' || bytes[7] != b'-' {
        return None;
    }
    let year = read_number(&bytes[0..4], 4)?;
    let month = read_number(&bytes[5..7], 2)?;
    let day = read_number(&bytes[8..10], 2)?;
    if year < 2000 || year > 2099 {
        return None;
    }
    Some((year, month, day))
}

/// An instant of the years 2000 to 2099 in UTC: a date, `T`, two digits each for the hour up to 23,
/// the minute and the second up to 59 with colons between, and `Z`. Contracts see its nanoseconds
/// from 1970-01-01T00:00:00Z.
#[tactic(auto, unfolding(crate::specs::Dates::instant_of))]
pub fn read_instant(bytes: &[u8]) -> Option<Timestamp>
    ensures { MatchOption result (dates.instant_of bytes.now ≡ None) (λ instant. dates.instant_of bytes.now ≡ Some instant.nanosecond) }
{
    if bytes.len() != 20 || bytes[10] != b'T' || bytes[19] != b'Z' {
        return None;
    }
    let date = read_date(&bytes[0..10])?;
    let seconds = read_time(&bytes[11..19])?;
    at_second_of(date, seconds)
}

// The instant so many seconds after a date's midnight in UTC.
fn at_second_of(date: Date, seconds: u32) -> Option<Timestamp>
    requires years { IsBetween (pos 2000) (pos 2099) date.year }
    requires time { seconds < 86_400 }
    ensures { IsSomeAnd result (λ instant. instant.nanosecond ≡ dates.instant_at date seconds) }
{
    let day = date.to_plain().to_unix_epoch_day() as i64;
    match Timestamp::from_second(day * 86_400 + seconds as i64) {
        Ok(instant) => Some(instant),
        Err(_) => None,
    }
}

// The seconds of a time of the day.
#[tactic(auto, unfolding(crate::specs::Dates::time_of))]
fn read_time(bytes: &[u8]) -> Option<u32>
    ensures value { result ≡ dates.time_of bytes.now }
    ensures below { IfSome result (λ seconds. seconds < 86_400) }
{
    if bytes.len() != 8 || bytes[2] != b':' || bytes[5] != b':' {
        return None;
    }
    let hour = read_number(&bytes[0..2], 2)?;
    let minute = read_number(&bytes[3..5], 2)?;
    let second = read_number(&bytes[6..8], 2)?;
    if hour > 23 || minute > 59 || second > 59 {
        return None;
    }
    Some(3_600 * hour + 60 * minute + second)
}
