//! The certificate of an order that is not filled.

ghost use Rattle.std.specs.Prelude.{◌≡◌, ◌+◌, ◌*◌, ◌^◌, ◌<◌, ◌≤◌, true, All, IfOk, IfSome, length};
ghost use Rattle.order_kinds.specs.Contract.{is_known};
ghost use Rattle.order_kinds.specs.Period.{contract_quarters};
ghost use Rattle.order_kinds.specs.Same.{same_side};
ghost use Rattle.order_kinds.specs.Side.{opposite};
ghost use Rattle.zone_graph.specs.Graph.{HasZone};
ghost use Rattle.market_model.specs.Certificate as certificates;
ghost use Rattle.market_model.specs.History.{entered_count};
ghost use Rattle.market_model.specs.Lines as lines;
ghost use Rattle.market_model.specs.Room as rooms;
ghost use Rattle.market_model.specs.WellFormed.{IsLegalOver};
ghost use Rattle.plain_capacity.specs.Sums.{AreCapacitySums};
ghost use Rattle.plain_refusals.specs.Crossing as crossing;

use crate::crossing::crossing_lots_inside;
use cut_proof::{border_bound, reach};
use event_history::History;
use market_model::{NoMemory, Order, Side, Zones};
use plain_capacity::{CapacitySums, contract_rooms, contract_rooms_over};
use plain_orders::{StandingOrder, line, open_orders};
use std::alloc::Global;
use zone_graph::Grid;

/// The zones that an order's zone can still trade with after some events: those that a buy is reached
/// from, those that a sell reaches. The capacity of the order's hour is summed up where there is none yet,
/// or takes in the events that have come since, and stays for the next call.
///
/// # Errors
///
/// [`NoMemory`], where there is no memory for the capacity of the hour, for the rooms or for the zones.
pub fn zones_in_reach(
    alloc: Global,
    grid: &Grid,
    events: &History,
    capacity: &mut Option<CapacitySums>,
    order: &Order,
) -> Result<Zones, NoMemory>
    requires legal { IsLegalOver grid.now events.now }
    requires part { is_known order.now.contract.part ≡ true }
    requires zone { HasZone grid.now order.now.zone }
    requires summed { IfSome capacity.old (AreCapacitySums grid.now events.now order.now.contract.hour) }
    ensures zones { IfOk result (λ zones. zones ≡ certificates.zones_in_reach grid.now (rooms.room events.now (contract_quarters order.now.contract)) order.now.side order.now.zone) }
    ensures within { IfOk result (λ zones. All (HasZone grid.now) zones) }
    ensures summed { IfSome capacity.new (AreCapacitySums grid.now events.now order.now.contract.hour) }
{
    let count = grid.zones();
    prove!(count <= 64);
    let rooms = contract_rooms_over(alloc, grid, events, capacity, order.contract)?;
    reach(alloc, grid, &rooms, order.zone, is_buy(order.side))
}

/// The most, in lots, that an order could obtain of some zones and from outside them after some events:
/// what crosses its price inside the zones, and the room across their borders.
///
/// # Errors
///
/// [`NoMemory`], where there is no memory for the rooms or for the orders of the hour.
pub fn bound(
    alloc: Global,
    grid: &Grid,
    events: &History,
    order: &Order,
    zones: &Zones,
) -> Result<u64, NoMemory>
    requires legal { IsLegalOver grid.now events.now }
    requires few { entered_count events.now < 2 ^ 32 }
    requires part { is_known order.now.contract.part ≡ true }
    requires zones { All (HasZone grid.now) zones.now }
    ensures { IfOk result (λ bound. bound ≡ certificates.crossing_inside events.now order.now zones.now + certificates.room_across grid.now (rooms.room events.now (contract_quarters order.now.contract)) order.now.side zones.now) }
{
    let line = opposite_line(alloc, grid, events, order)?;
    let inside = crossing_lots_inside(line.as_slice(), order, zones);
    let across = room_across(alloc, grid, events, order, zones)?;
    Ok(inside + across)
}

// The line of the order's contract on the other side.
fn opposite_line(
    alloc: Global,
    grid: &Grid,
    events: &History,
    order: &Order,
) -> Result<Vec<StandingOrder>, NoMemory>
    requires legal { IsLegalOver grid.now events.now }
    requires few { entered_count events.now < 2 ^ 32 }
    ensures line { IfOk result (λ made. made.items ≡ lines.line events.now order.now.contract (opposite order.now.side)) }
    ensures sound { IfOk result (λ made. crossing.AreSound made.items) }
    ensures few { IfOk result (λ made. length made.items < 2 ^ 32) }
{
    let orders = open_orders(alloc, events, order.contract.hour)?;
    line(
        alloc,
        orders.as_slice(),
        order.contract,
        order.side.opposite(),
    )
}

// The room, in lots, of the arcs over which energy comes to a buy from outside some zones, or goes
// out of them from a sell.
fn room_across(
    alloc: Global,
    grid: &Grid,
    events: &History,
    order: &Order,
    zones: &Zones,
) -> Result<u64, NoMemory>
    requires legal { IsLegalOver grid.now events.now }
    requires part { is_known order.now.contract.part ≡ true }
    requires zones { All (HasZone grid.now) zones.now }
    ensures room { IfOk result (λ room. room ≡ certificates.room_across grid.now (rooms.room events.now (contract_quarters order.now.contract)) order.now.side zones.now) }
    ensures most { IfOk result (λ room. room ≤ 256 * 2000000) }
{
    let borders = grid.borders();
    prove!(borders <= 128);
    let rooms = contract_rooms(alloc, grid, events, order.contract)?;
    Ok(border_bound(grid, &rooms, zones, is_buy(order.side)))
}

// Whether energy comes to an order of this side.
fn is_buy(side: Side) -> bool
    ensures { result ≡ same_side side Side.Buy }
{
    side == Side::Buy
}
