//! The borders of a grid in one quarter of an hour.

ghost use Rattle.std.specs.Prelude.{◌≡◌, ◌<◌, ◌≤◌, ◌&&◌, true, length, pos, ◌≤ℤ◌, IfOk, replicate, if◌then◌else◌};
ghost use Rattle.quarter_capacity.specs.Row as cells;
ghost use Rattle.zone_graph.specs.declared.route.Arc.{Arc};
ghost use Rattle.zone_graph.specs.Pour.{lots_if, same_arc, uses};
ghost use Rattle.plain_capacity.specs.Rows as rows;
ghost use Rattle.quarter_capacity.specs.Capacity.{most_offered};

use market_model::Event;
use order_kinds::Quarter;
use quarter_capacity::QuarterRow;
use std::alloc::Global;
use zone_graph::{Arc, NoMemory};

/// So many borders on which nothing is offered and nothing flows.
pub fn idle_rows(alloc: Global, count: usize) -> Result<Vec<QuarterRow>, NoMemory>
    ensures { IfOk result (λ made. made.items ≡ replicate count cells.nothing_offered) }
{
    Ok(vec![in alloc; QuarterRow::new(); count]?)
}

/// Lets an event of a legal history count in a quarter.
pub fn note(borders: &mut [QuarterRow], quarter: Quarter, event: &Event)
    requires { rows.CanNote borders.old quarter event.now }
    ensures { rows.IsNoted quarter event.now borders.old borders.new }
{
    match event {
        Event::Leg { contract, leg } => {
            let counts = contract.has(quarter);
            carry(borders, counts, leg.route.as_slice(), leg.lots);
        }
        Event::BlockLeg { first, last, leg } => {
            let counts = quarter.is_in_hours(*first, *last);
            carry(borders, counts, leg.route.as_slice(), leg.lots);
        }
        Event::Granted {
            arc,
            first,
            last,
            lots,
        } => {
            grant(borders, quarter.is_in_range(*first, *last), *arc, *lots);
        }
        Event::Offered {
            arc,
            first,
            last,
            lots,
        } => {
            offer(borders, quarter.is_in_range(*first, *last), *arc, *lots);
        }
        _ => {}
    }
}

/// Carries so many lots over a route in the four quarters of an hour.
pub fn carry_in_all(
    first: &mut [QuarterRow],
    second: &mut [QuarterRow],
    third: &mut [QuarterRow],
    fourth: &mut [QuarterRow],
    route: &[Arc],
    lots: u32,
)
    requires first { rows.CanCarry first.old route.now lots }
    requires second { rows.CanCarry second.old route.now lots }
    requires third { rows.CanCarry third.old route.now lots }
    requires fourth { rows.CanCarry fourth.old route.now lots }
    ensures first { rows.IsCarried route.now lots first.old first.new }
    ensures second { rows.IsCarried route.now lots second.old second.new }
    ensures third { rows.IsCarried route.now lots third.old third.new }
    ensures fourth { rows.IsCarried route.now lots fourth.old fourth.new }
{
    for arc in route {
        let taken = *arc;
        take(first, taken, lots);
        take(second, taken, lots);
        take(third, taken, lots);
        take(fourth, taken, lots);
    }
}

// Carries so many lots over a route, if they count.
fn carry(borders: &mut [QuarterRow], counts: bool, route: &[Arc], lots: u32)
    requires { counts ≡ true → rows.CanCarry borders.old route.now lots }
    ensures offers { rows.SameOffers borders.old borders.new }
    ensures flows { rows.FlowsMore (λ arc. lots_if (counts && uses route.now arc) lots) borders.old borders.new }
{
    if counts {
        for arc in route {
            take(borders, *arc, lots);
        }
    }
}

// Grants so many lots of an arc, if they count.
fn grant(borders: &mut [QuarterRow], counts: bool, arc: Arc, lots: u32)
    requires { counts ≡ true → rows.CanTake borders.old arc lots }
    ensures offers { rows.SameOffers borders.old borders.new }
    ensures flows { rows.FlowsMore (λ other. lots_if (counts && same_arc arc other) lots) borders.old borders.new }
{
    if counts {
        take(borders, arc, lots);
    }
}

// Takes so many lots of what remains on an arc.
fn take(borders: &mut [QuarterRow], arc: Arc, lots: u32)
    requires { rows.CanTake borders.old arc lots }
    ensures offers { rows.SameOffers borders.old borders.new }
    ensures flows { rows.FlowsMore (λ other. lots_if (same_arc arc other) lots) borders.old borders.new }
{
    borders[arc.border as usize].take(arc.forward, lots);
}

// Offers so many lots on an arc in place of what was offered there, if they count.
fn offer(borders: &mut [QuarterRow], counts: bool, arc: Arc, lots: u32)
    requires { counts ≡ true → rows.CanOffer borders.old arc lots }
    ensures offers { (other : Arc) → rows.offered_at borders.new other ≡ (if counts && same_arc arc other then lots else rows.offered_at borders.old other) }
    ensures flows { rows.SameFlows borders.old borders.new }
{
    if counts {
        offer_row(&mut borders[arc.border as usize], arc.forward, lots);
    }
}

// Offers so many lots in a direction of a border.
fn offer_row(row: &mut QuarterRow, forward: bool, lots: u32)
    requires most { lots ≤ most_offered }
    requires covers_flow { cells.flow row.old forward ≤ℤ pos lots }
    ensures { row.new ≡ cells.with_offered row.old forward lots }
{
    let offered = row.offer(forward, lots);
    prove!(offered.is_ok());
}
