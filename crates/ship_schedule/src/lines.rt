//! The lines of a schedule, printed from rows of sums.

ghost use Rattle.std.specs.Prelude.{◌≡◌, ◌<◌, ◌==◌, ◌&&◌, [], ◌++◌, OnOk, slice_get, unwrap_or};
ghost use Rattle.ship_schedule.specs.Rows.{net};
ghost use Rattle.ship_schedule.specs.ScheduleText as texts;

use crate::page::Page;
use crate::sums::Sums;
use crate::{Balance, quarter_at};
use market_model::Setup;
use order_kinds::Quarter;
use zone_graph::{Names, NoMemory, Pairs};

/// Puts the lines of all quarters of the day at the end of a page.
pub(crate) fn write_day(page: &mut Page, setup: &Setup, sums: &Sums) -> Result<(), NoMemory>
    ensures { OnOk result (page.new ≡ page.old ++ texts.lines_of setup.now (texts.numbers_in sums.now)) }
{
    for place in 0..4 * u64::from(setup.hours) {
        write_quarter(page, setup, sums, place)?;
    }
    Ok(())
}

// The lines of a quarter: those of the borders, and then those of the zones.
fn write_quarter(page: &mut Page, setup: &Setup, sums: &Sums, place: u64) -> Result<(), NoMemory>
    requires { place < 17179869180 }
    ensures { OnOk result (page.new ≡ page.old ++ texts.quarter_lines setup.now (texts.numbers_in sums.now) place) }
{
    write_borders(page, setup, sums, place)?;
    write_zones(page, setup, sums, place)
}

// The lines of the borders in a quarter.
fn write_borders(page: &mut Page, setup: &Setup, sums: &Sums, place: u64) -> Result<(), NoMemory>
    requires { place < 17179869180 }
    ensures { OnOk result (page.new ≡ page.old ++ texts.border_lines setup.now (texts.numbers_in sums.now) place) }
{
    let quarter = quarter_at(place);
    for border in 0..setup.borders.len() {
        let traded = sums.traded.balance(place as usize, border);
        let granted = sums.granted.balance(place as usize, border);
        write_border(page, setup, quarter, border, traded, granted)?;
    }
    Ok(())
}

// The lines of the zones in a quarter.
fn write_zones(page: &mut Page, setup: &Setup, sums: &Sums, place: u64) -> Result<(), NoMemory>
    requires { place < 17179869180 }
    ensures { OnOk result (page.new ≡ page.old ++ texts.zone_lines setup.now (texts.numbers_in sums.now) place) }
{
    let quarter = quarter_at(place);
    for zone in 0..setup.zones.len() {
        write_zone(
            page,
            setup,
            quarter,
            zone,
            sums.positions.balance(place as usize, zone),
        )?;
    }
    Ok(())
}

// The line of a border, if there is one.
fn write_border(
    page: &mut Page,
    setup: &Setup,
    quarter: Quarter,
    border: usize,
    traded: Balance,
    granted: Balance,
) -> Result<(), NoMemory>
    ensures { OnOk result (page.new ≡ page.old ++ texts.border_line setup.now quarter border (net traded) (net granted)) }
{
    if is_idle(traded, granted) {
        return Ok(());
    }
    let (from, to) = ends_of(&setup.borders, border);
    page.start_line("exchange", quarter)?;
    page.push(name_of(&setup.zones, from as usize))?;
    page.push(b">")?;
    page.push(name_of(&setup.zones, to as usize))?;
    page.end_border(traded, granted)?;
    Ok(())
}

// Whether trades and grants carry nothing over a border.
fn is_idle(traded: Balance, granted: Balance) -> bool
    ensures { result ≡ (texts.is_none (net traded) && texts.is_none (net granted)) }
{
    carries_nothing(traded) && carries_nothing(granted)
}

// Whether as much is carried forward as back.
fn carries_nothing(balance: Balance) -> bool
    ensures { result ≡ texts.is_none (net balance) }
{
    balance.is_even()
}

// The line of a zone, if there is one.
fn write_zone(
    page: &mut Page,
    setup: &Setup,
    quarter: Quarter,
    zone: usize,
    position: Balance,
) -> Result<(), NoMemory>
    ensures { OnOk result (page.new ≡ page.old ++ texts.zone_line setup.now quarter zone position.plus position.minus (net position)) }
{
    if is_nothing(position) {
        return Ok(());
    }
    page.start_line("position", quarter)?;
    page.push(name_of(&setup.zones, zone))?;
    page.end_zone(position)?;
    Ok(())
}

// Whether a zone has neither sold nor bought.
fn is_nothing(position: Balance) -> bool
    ensures { result ≡ ((position.plus == 0) && (position.minus == 0)) }
{
    position.plus == 0 && position.minus == 0
}

// The name of a zone; nothing where there is no such zone.
fn name_of(zones: &Names, zone: usize) -> &[u8]
    ensures { result.now ≡ unwrap_or (slice_get zones.now zone) [] }
{
    match zones.get(zone) {
        Some(name) => name.bytes(),
        None => &[],
    }
}

// The two zones of a border; the first one twice where there is no such border.
fn ends_of(borders: &Pairs, border: usize) -> (u32, u32)
    ensures { result ≡ unwrap_or (slice_get borders.now border) (0, 0) }
{
    match borders.get(border) {
        Some(ends) => *ends,
        None => (0, 0),
    }
}
