//! The legs of the pour between two blocks.

ghost use Rattle.std.specs.Prelude.{◌≡◌, ◌++◌, ◌<◌, ◌≤◌, IfOk, OnOk, OnErr, length};
ghost use Rattle.zone_graph.specs.declared.route.Arc.{Arc};
ghost use Rattle.zone_graph.specs.Graph.{HasZone};
ghost use Rattle.zone_graph.specs.Grid.{IsGrid};
ghost use Rattle.zone_graph.specs.Rooms.{room_of};
ghost use Rattle.zone_graph.specs.Route.{IsIn};
ghost use Rattle.market_model.specs.Blocks as blocks;
ghost use Rattle.market_model.specs.WellFormed.{IsLegalOver};
ghost use Rattle.plain_matching.specs.Meeting as meeting;
ghost use Rattle.plain_matching.specs.Grown.{Grew};

use crate::routes::best_route;
use cut_proof::carried;
use event_history::History;
use market_model::{Event, Leg, NoMemory, Route, Side};
use plain_capacity::block_rooms;
use plain_orders::{StandingBlock, left};
use std::alloc::Global;
use zone_graph::{Grid, Rooms};

/// Pours what is left of a block into another one of its period: the legs go to the end of the
/// events, each over the best route of the rooms as they then are, at the maker's price, until all is
/// carried or there is no route.
///
/// # Errors
///
/// [`NoMemory`], where there is no memory for what the next leg is made from or for the leg: a first
/// part of the legs then stands behind the events.
pub(crate) fn pour(
    alloc: Global,
    grid: &Grid,
    events: &mut History,
    taker: &StandingBlock,
    maker: &StandingBlock,
) -> Result<(), NoMemory>
    requires pair { meeting.ArePoured grid.now events.old taker.now maker.now }
    ensures ok { OnOk result (events.new ≡ events.old ++ blocks.block_legs grid.now taker.now maker.now events.old) }
    ensures err { OnErr result (Grew events.old events.new) }
    ensures legal { IsLegalOver grid.now events.new }
{
    while let Some(leg) = next_leg(alloc, grid, events, taker, maker)? {
        events.push(leg)?;
    }
    Ok(())
}

// The next leg of the pour between two blocks: none where nothing is left of the taker, or where there
// is no route.
fn next_leg(
    alloc: Global,
    grid: &Grid,
    events: &History,
    taker: &StandingBlock,
    maker: &StandingBlock,
) -> Result<Option<Event>, NoMemory>
    requires legal { IsLegalOver grid.now events.now }
    requires taker { HasZone grid.now taker.now.order.zone }
    requires maker { HasZone grid.now maker.now.order.zone }
    requires period { taker.now.order.first ≤ taker.now.order.last }
    ensures leg { IfOk result (λ leg. leg ≡ blocks.block_leg grid.now taker.now maker.now events.now) }
    ensures grid { IsGrid grid.now }
{
    let zones = grid.zones();
    prove!(zones <= 64);
    let lots = left(events, taker.name());
    if lots == 0 {
        return Ok(None);
    }
    let order = taker.order();
    let rooms = block_rooms(alloc, grid, events, order.first, order.last)?;
    let seller = seller_zone(taker, maker);
    let buyer = buyer_zone(taker, maker);
    prove!(seller < zones);
    match best_route(alloc, grid, &rooms, seller, buyer)? {
        Some(route) => Ok(Some(leg_over(&rooms, taker, maker, lots, route))),
        None => Ok(None),
    }
}

// The zone of the seller.
fn seller_zone(own: &StandingBlock, other: &StandingBlock) -> u32
    ensures { result ≡ blocks.block_seller_zone own.now other.now }
{
    match own.order().side {
        Side::Buy => other.order().zone,
        Side::Sell => own.order().zone,
    }
}

// The zone of the buyer.
fn buyer_zone(own: &StandingBlock, other: &StandingBlock) -> u32
    ensures { result ≡ blocks.block_buyer_zone own.now other.now }
{
    match own.order().side {
        Side::Buy => own.order().zone,
        Side::Sell => other.order().zone,
    }
}

// The leg of a taker with a maker over a route: what the route can carry of so many lots.
fn leg_over(
    rooms: &Rooms,
    taker: &StandingBlock,
    maker: &StandingBlock,
    lots: u32,
    route: Route,
) -> Event
    requires arcs { (arc : Arc) → IsIn arc route → arc.border < length rooms.now }
    ensures { result ≡ meeting.leg_of (room_of rooms.now) taker.now maker.now lots route }
{
    let order = taker.order();
    let lots = carried(rooms, lots, route.as_slice());
    Event::BlockLeg {
        first: order.first,
        last: order.last,
        leg: Leg {
            taker: taker.name(),
            maker: maker.name(),
            lots,
            price: maker.order().price,
            route,
        },
    }
}
