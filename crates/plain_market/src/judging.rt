//! Why an order is refused once its taking has ended.

ghost use Rattle.std.specs.Prelude.{◌≡◌, ◌<◌, ◌^◌, true, Ok, None, IfOk, IfSome, take};
ghost use Rattle.order_kinds.specs.Contract as contracts;
ghost use Rattle.zone_graph.specs.Graph.{HasZone};
ghost use Rattle.market_model.specs.History.{entered_count};
ghost use Rattle.market_model.specs.WellFormed.{IsLegalOver};
ghost use Rattle.plain_market.specs.Entering.{IsCut};
ghost use Rattle.plain_market.specs.Judging as judged;
ghost use Rattle.plain_matching.specs.Summed.{AreHourSums};
ghost use Rattle.plain_orders.specs.Histories.{IsSomeHistory};
ghost use Rattle.plain_orders.specs.Tallies.{AreSums};

use event_history::History;
use market_model::{Kind, NoMemory, Order, OrderName, Refusal, Zones};
use plain_matching::{HourSums, cut_back};
use plain_orders::{OrderSums, has_desk_room_over, left, left_over};
use plain_refusals::{bound, zones_in_reach};
use std::alloc::Global;
use zone_graph::Grid;

/// Why an order that enters by itself is refused: it is fill-or-kill and not filled, or what rests of
/// it has no room on the desk. The events are those after its taking, the first of them, so many, those
/// with the order entered. Where it is refused, or memory is wanting, its legs may be taken off.
///
/// # Errors
///
/// [`NoMemory`], where there is no memory for the zones in reach, for the orders of the hour, or for its
/// sums or open names.
pub(crate) fn refusal_after(
    alloc: Global,
    grid: &Grid,
    events: &mut History,
    sums: &mut HourSums,
    entered: usize,
    name: OrderName,
    order: &Order,
) -> Result<Option<Refusal>, NoMemory>
    requires start { IsLegalOver grid.now (take entered events.old) }
    requires after { IsLegalOver grid.now events.old }
    requires hour { name.hour ≡ order.now.contract.hour }
    requires summed { AreHourSums grid.now events.old name.hour sums.old }
    requires few { entered_count (take entered events.old) < 2 ^ 32 }
    requires part { contracts.is_known order.now.contract.part ≡ true }
    requires zone { HasZone grid.now order.now.zone }
    ensures refusal { IfOk result (λ refusal. refusal ≡ judged.refusal_after grid.now (take entered events.old) events.old name order.now) }
    ensures kept { result ≡ Ok None → events.new ≡ events.old }
    ensures cut { IsCut entered events.old events.new }
    ensures summed { AreHourSums grid.now events.old name.hour sums.new }
{
    match order.kind {
        Kind::Fok => match unfilled(alloc, grid, events, sums, entered, name, order)? {
            Some(Certificate { zones, bound }) => Ok(Some(Refusal::Unfilled { zones, bound })),
            None => Ok(None),
        },
        Kind::Ioc => Ok(None),
        Kind::Limit | Kind::Iceberg { .. } => desk_full(alloc, events, &mut sums.orders, name),
    }
}

// Why an order could not be filled: the zones that its taking could still reach at its end, and the
// most that it could have obtained as it started.
#[derive(Drop)]
pub(crate) struct Certificate {
    pub(crate) zones: Zones,
    pub(crate) bound: u64,
}

/// The certificate of an order, where it is not filled: its bound is that of the start of its taking. The
/// events are those after its taking, the first of them, so many, those with the order entered. Where there
/// is one, or memory is wanting, the legs may be taken off.
///
/// # Errors
///
/// [`NoMemory`], where there is no memory for the zones in reach or for the orders of the hour.
pub(crate) fn unfilled(
    alloc: Global,
    grid: &Grid,
    events: &mut History,
    sums: &mut HourSums,
    entered: usize,
    name: OrderName,
    order: &Order,
) -> Result<Option<Certificate>, NoMemory>
    requires start { IsLegalOver grid.now (take entered events.old) }
    requires after { IsLegalOver grid.now events.old }
    requires hour { name.hour ≡ order.now.contract.hour }
    requires summed { AreHourSums grid.now events.old name.hour sums.old }
    requires few { entered_count (take entered events.old) < 2 ^ 32 }
    requires part { contracts.is_known order.now.contract.part ≡ true }
    requires zone { HasZone grid.now order.now.zone }
    ensures certificate { IfOk result (λ found. found ≡ judged.certificate grid.now (take entered events.old) events.old name order.now) }
    ensures kept { result ≡ Ok None → events.new ≡ events.old }
    ensures cut { IsCut entered events.old events.new }
    ensures summed { AreHourSums grid.now events.old name.hour sums.new }
{
    if left_over(alloc, events, &mut sums.orders, name)? == 0 {
        return Ok(None);
    }
    let zones = zones_in_reach(alloc, grid, events, &mut sums.capacity, order)?;
    cut_back(events, entered);
    let bound = bound(alloc, grid, events, order, &zones)?;
    Ok(Some(Certificate { zones, bound }))
}

// Why an order that rests is refused: it has no room on the desk.
fn desk_full(
    alloc: Global,
    events: &History,
    sums: &mut Option<OrderSums>,
    name: OrderName,
) -> Result<Option<Refusal>, NoMemory>
    requires history { IsSomeHistory events.now }
    requires summed { IfSome sums.old (AreSums events.now name.hour) }
    ensures refusal { IfOk result (λ refusal. refusal ≡ judged.unless_full events.now name) }
    ensures summed { IfSome sums.new (AreSums events.now name.hour) }
{
    if has_desk_room_over(alloc, events, sums, name)? || left(events, name) == 0 {
        return Ok(None);
    }
    Ok(Some(Refusal::DeskFull))
}
