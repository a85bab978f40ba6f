//! The leg of two orders.

ghost use Rattle.std.specs.Prelude.{◌≡◌, ℕ, ◌<◌, IfOk, length};
ghost use Rattle.std.specs.Ordering.{is_lt};
ghost use Rattle.zone_graph.specs.declared.route.Arc.{Arc};
ghost use Rattle.zone_graph.specs.Graph.{HasZone, border_count};
ghost use Rattle.zone_graph.specs.Rooms.{room_of};
ghost use Rattle.zone_graph.specs.Route.{IsIn};
ghost use Rattle.market_model.specs.Lines as lines;
ghost use Rattle.market_model.specs.Taking as taking;
ghost use Rattle.plain_matching.specs.Over as over;

use crate::routes::best_route;
use cut_proof::carried;
use market_model::{Event, Leg, NoMemory, Route, Side};
use plain_orders::StandingOrder;
use std::alloc::Global;
use std::cmp::Ordering;
use zone_graph::{Grid, Rooms};

/// The leg of two resting orders of a contract that can trade: the one that was there earlier is the
/// maker. The rooms are those of the contract.
///
/// # Errors
///
/// [`NoMemory`], where there is no memory for the route.
pub(crate) fn resting_trade(
    alloc: Global,
    grid: &Grid,
    rooms: &Rooms,
    buy: &StandingOrder,
    sell: &StandingOrder,
) -> Result<Option<Event>, NoMemory>
    requires size { length rooms.now ≡ border_count grid.now }
    requires buy { HasZone grid.now buy.now.order.zone }
    requires sell { HasZone grid.now sell.now.order.zone }
    ensures { IfOk result (λ leg. leg ≡ over.resting_trade_over grid.now (room_of rooms.now) buy.now sell.now) }
{
    if is_earlier(buy, sell) {
        trade(alloc, grid, rooms, sell, buy)
    } else {
        trade(alloc, grid, rooms, buy, sell)
    }
}

// Whether an order has priority by time.
fn is_earlier(one: &StandingOrder, other: &StandingOrder) -> bool
    ensures { result ≡ is_lt (lines.time_cmp one.now other.now) }
{
    by_time(one, other) == Ordering::Less
}

// How two orders stand in time.
fn by_time(one: &StandingOrder, other: &StandingOrder) -> Ordering
    ensures { result ≡ lines.time_cmp one.now other.now }
{
    one.moment()
        .cmp(&other.moment())
        .then(one.name().number.cmp(&other.name().number))
}

/// The leg of a taker with a maker of its contract, over the best route from the seller to the buyer:
/// at the maker's price, for the least of what both show and what the route can carry. `None` exactly
/// where no route is there. The rooms are those of the contract.
///
/// # Errors
///
/// [`NoMemory`], where there is no memory for the route.
pub(crate) fn trade(
    alloc: Global,
    grid: &Grid,
    rooms: &Rooms,
    taker: &StandingOrder,
    maker: &StandingOrder,
) -> Result<Option<Event>, NoMemory>
    requires size { length rooms.now ≡ border_count grid.now }
    requires taker { HasZone grid.now taker.now.order.zone }
    requires maker { HasZone grid.now maker.now.order.zone }
    ensures { IfOk result (λ leg. leg ≡ over.trade_over grid.now (room_of rooms.now) taker.now maker.now) }
{
    let count = grid.zones();
    let seller = seller_zone(taker, maker);
    let buyer = buyer_zone(taker, maker);
    prove!(seller < count);
    match best_route(alloc, grid, rooms, seller, buyer)? {
        Some(route) => Ok(Some(leg_over(rooms, taker, maker, route))),
        None => Ok(None),
    }
}

// The zone of the seller.
fn seller_zone(own: &StandingOrder, other: &StandingOrder) -> u32
    ensures { result ≡ lines.seller_zone own.now other.now }
{
    match own.order().side {
        Side::Buy => other.order().zone,
        Side::Sell => own.order().zone,
    }
}

// The zone of the buyer.
fn buyer_zone(own: &StandingOrder, other: &StandingOrder) -> u32
    ensures { result ≡ lines.buyer_zone own.now other.now }
{
    match own.order().side {
        Side::Buy => own.order().zone,
        Side::Sell => other.order().zone,
    }
}

// The leg of a taker with a maker over a route.
fn leg_over(rooms: &Rooms, taker: &StandingOrder, maker: &StandingOrder, route: Route) -> Event
    requires arcs { (arc : Arc) → IsIn arc route → arc.border < length rooms.now }
    ensures { result ≡ taking.leg_over (room_of rooms.now) taker.now maker.now route }
{
    let lots = carried(rooms, taker.shown().min(maker.shown()), route.as_slice());
    Event::Leg {
        contract: taker.order().contract,
        leg: Leg {
            taker: taker.name(),
            maker: maker.name(),
            lots,
            price: maker.price(),
            route,
        },
    }
}
