//! The legs of an order that comes in.

ghost use Rattle.std.specs.Prelude.{◌≡◌, ◌++◌, IfOk, IfSome, OnOk, OnErr, None, length};
ghost use Rattle.std.specs.List.{find};
ghost use Rattle.zone_graph.specs.Grid.{IsGrid};
ghost use Rattle.zone_graph.specs.Route.{IsIn};
ghost use Rattle.market_model.specs.Taking as market;
ghost use Rattle.market_model.specs.WellFormed.{IsLegalOver};
ghost use Rattle.plain_capacity.specs.Sums.{AreCapacitySums};
ghost use Rattle.plain_orders.specs.Listed as listed;
ghost use Rattle.plain_matching.specs.Grown.{GrewByPart};
ghost use Rattle.plain_matching.specs.Over as over;
ghost use Rattle.plain_matching.specs.Summed.{AreHourSums, HasOrders, StaysOrIsAfter};

use crate::hour_sums::HourSums;
use crate::partner::{crosses_best, partner_among};
use crate::trade::trade;
use event_history::History;
use market_model::{Event, NoMemory, OrderName};
use plain_capacity::{CapacitySums, contract_rooms_over};
use plain_orders::{StandingOrder, best_price, left_over};
use std::alloc::Global;
use zone_graph::Grid;

/// Lets the order of this name take from the order book, leg by leg, until it is filled or none is
/// left with which it can trade. Each leg is at the resting order's price and goes to the end of the
/// events. What was summed up of the hour serves each leg, and stays for the caller.
///
/// # Errors
///
/// [`NoMemory`], where there is no memory for what the next leg is made from or for the leg: a first
/// part of the legs then stands behind the events.
pub fn take(
    alloc: Global,
    grid: &Grid,
    events: &mut History,
    sums: &mut HourSums,
    name: OrderName,
) -> Result<(), NoMemory>
    requires legal { IsLegalOver grid.now events.old }
    requires summed { AreHourSums grid.now events.old name.hour sums.old }
    ensures ok { OnOk result (events.new ≡ events.old ++ market.take grid.now events.old name) }
    ensures err { OnErr result (GrewByPart (market.take grid.now events.old name) events.old events.new) }
    ensures legal { IsLegalOver grid.now events.new }
    ensures summed { OnOk result (AreHourSums grid.now events.new name.hour sums.new) }
    ensures orders { OnOk result (HasOrders events.new sums.new) }
    ensures capacity { OnOk result (StaysOrIsAfter (events.new ≡ events.old) (length events.old) sums.old.capacity sums.new.capacity) }
{
    while let Some(leg) = next_leg(alloc, grid, events, sums, name)? {
        events.push(leg)?;
    }
    Ok(())
}

// The next leg of the order of this name: with its partner, if it is open and has one.
fn next_leg(
    alloc: Global,
    grid: &Grid,
    events: &History,
    sums: &mut HourSums,
    name: OrderName,
) -> Result<Option<Event>, NoMemory>
    requires legal { IsLegalOver grid.now events.now }
    requires summed { AreHourSums grid.now events.now name.hour sums.old }
    ensures summed { AreHourSums grid.now events.now name.hour sums.new }
    ensures leg { IfOk result (λ leg. leg ≡ market.next_leg grid.now name events.now) }
    ensures orders { OnOk result (HasOrders events.now sums.new) }
    ensures capacity { IfOk result (λ leg. StaysOrIsAfter (leg ≡ None) (length events.now) sums.old.capacity sums.new.capacity) }
    ensures grid { IsGrid grid.now }
{
    let zones = grid.zones();
    prove!(zones <= 64);
    if left_over(alloc, events, &mut sums.orders, name)? == 0 {
        return Ok(None);
    }
    let listed = sums.list_orders(alloc, events, name.hour)?;
    let capacity = &mut sums.capacity;
    let leg = leg_as(
        alloc,
        grid,
        events,
        capacity,
        listed.orders.as_slice(),
        name,
    )?;
    sums.listed = Some(listed);
    Ok(leg)
}

// The leg of the one of the open orders of an hour that bears a name, with its partner.
fn leg_as(
    alloc: Global,
    grid: &Grid,
    events: &History,
    capacity: &mut Option<CapacitySums>,
    orders: &[StandingOrder],
    name: OrderName,
) -> Result<Option<Event>, NoMemory>
    requires legal { IsLegalOver grid.now events.now }
    requires summed { IfSome capacity.old (AreCapacitySums grid.now events.now name.hour) }
    requires orders { orders.now ≡ listed.open_orders events.now name.hour }
    ensures leg { IfOk result (λ leg. leg ≡ market.next_leg grid.now name events.now) }
    ensures summed { IfSome capacity.new (AreCapacitySums grid.now events.now name.hour) }
    ensures kept { IfOk result (λ leg. StaysOrIsAfter (leg ≡ None) (length events.now) capacity.old capacity.new) }
{
    match open_as(orders, name) {
        Some(own) => leg_with_partner(alloc, grid, events, capacity, orders, &own),
        None => Ok(None),
    }
}

// The first of some orders that is open and bears a name.
fn open_as(orders: &[StandingOrder], name: OrderName) -> Option<StandingOrder>
    ensures { result ≡ find (over.is_open_as name) orders.now }
{
    for order in orders {
        if is_open_as(order, name) {
            return Some(*order);
        }
    }
    None
}

// Whether an order is open and bears a name.
fn is_open_as(order: &StandingOrder, name: OrderName) -> bool
    ensures { result ≡ over.is_open_as name order.now }
{
    order.name() == name && order.left() > 0
}

// The leg of one of the orders of an hour with its partner.
fn leg_with_partner(
    alloc: Global,
    grid: &Grid,
    events: &History,
    capacity: &mut Option<CapacitySums>,
    orders: &[StandingOrder],
    own: &StandingOrder,
) -> Result<Option<Event>, NoMemory>
    requires legal { IsLegalOver grid.now events.now }
    requires summed { IfSome capacity.old (AreCapacitySums grid.now events.now own.now.order.contract.hour) }
    requires orders { orders.now ≡ listed.open_orders events.now own.now.order.contract.hour }
    requires own { IsIn own.now orders.now }
    ensures leg { IfOk result (λ leg. leg ≡ over.leg_with_partner grid.now events.now own.now) }
    ensures summed { IfSome capacity.new (AreCapacitySums grid.now events.now own.now.order.contract.hour) }
    ensures kept { IfOk result (λ leg. StaysOrIsAfter (leg ≡ None) (length events.now) capacity.old capacity.new) }
{
    let order = own.order();
    let zones = grid.zones();
    prove!(order.zone < zones);
    let side = order.side.opposite();
    if !crosses_best(own, best_price(orders, order.contract, side)) {
        return Ok(None);
    }
    let rooms = contract_rooms_over(alloc, grid, events, capacity, order.contract)?;
    match partner_among(grid, &rooms, orders, own) {
        Some(maker) => trade(alloc, grid, &rooms, own, &maker),
        None => Ok(None),
    }
}
