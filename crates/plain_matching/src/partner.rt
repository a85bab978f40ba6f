//! The partner of an order: in a line of the order book, or among the orders that make one.

ghost use Rattle.std.specs.Prelude.{◌≡◌, length};
ghost use Rattle.std.specs.List.{find};
ghost use Rattle.order_kinds.specs.Side.{opposite};
ghost use Rattle.zone_graph.specs.Graph.{HasZone, border_count};
ghost use Rattle.zone_graph.specs.Grid.{IsGrid};
ghost use Rattle.zone_graph.specs.Rooms.{room_of};
ghost use Rattle.cut_proof.specs.Distance.{AreDistances, directed_room};
ghost use Rattle.plain_orders.specs.Listed as listed;
ghost use Rattle.plain_matching.specs.Over as over;

use crate::routes::is_reached;
use cut_proof::{Distances, distances};
use market_model::{Price, Side};
use plain_orders::{StandingOrder, goes_first, is_in_line};
use zone_graph::{Grid, Rooms};

/// The partner of an order in a line of the other side: the first whose price crosses and to which a route
/// over arcs with room leads, from the seller to the buyer. The rooms are those of the order's contract.
pub(crate) fn partner(
    grid: &Grid,
    rooms: &Rooms,
    line: &[StandingOrder],
    own: &StandingOrder,
) -> Option<StandingOrder>
    requires size { length rooms.now ≡ border_count grid.now }
    requires own { HasZone grid.now own.now.order.zone }
    ensures { result ≡ over.partner_in grid.now (room_of rooms.now) line.now own.now }
{
    first_in_reach(&distances_of(grid, rooms, own), line, own)
}

/// The partner of an order among some orders, in whose line it is sought. They are passed over once, and no
/// line is made. The rooms are those of the order's contract.
pub(crate) fn partner_among(
    grid: &Grid,
    rooms: &Rooms,
    orders: &[StandingOrder],
    own: &StandingOrder,
) -> Option<StandingOrder>
    requires size { length rooms.now ≡ border_count grid.now }
    requires own { HasZone grid.now own.now.order.zone }
    ensures { result ≡ over.partner_in grid.now (room_of rooms.now) (over.other_line orders.now own.now) own.now }
{
    first_among(&distances_of(grid, rooms, own), orders, own)
}

// How far each zone is over arcs with room on the way between its orders and an order, from the seller to the
// buyer.
fn distances_of(grid: &Grid, rooms: &Rooms, own: &StandingOrder) -> Distances
    requires size { length rooms.now ≡ border_count grid.now }
    requires own { HasZone grid.now own.now.order.zone }
    ensures distances { AreDistances grid.now (directed_room (room_of rooms.now) (over.is_buy own.now.order.side)) own.now.order.zone result }
    ensures grid { IsGrid grid.now }
{
    let order = own.order();
    let count = grid.zones();
    prove!(order.zone < count);
    distances(grid, rooms, order.zone, is_buy(order.side))
}

// Whether an order is a buy.
fn is_buy(side: Side) -> bool
    ensures { result ≡ over.is_buy side }
{
    matches!(side, Side::Buy)
}

/// Whether the price of an order crosses the best price of a line of the other side, if that has one.
pub(crate) fn crosses_best(own: &StandingOrder, best: Option<Price>) -> bool
    ensures { result ≡ over.crosses_best own.now best }
{
    match best {
        Some(price) => own.order().side.crosses(own.price(), price),
        None => false,
    }
}

/// Whether the best prices of a line of buys and of one of sells cross, if both have one.
pub(crate) fn best_cross(buy: Option<Price>, sell: Option<Price>) -> bool
    ensures { result ≡ over.best_cross buy sell }
{
    match (buy, sell) {
        (Some(buy), Some(sell)) => Side::Buy.crosses(buy, sell),
        _ => false,
    }
}

// The first in priority among some orders of those of an order's contract and of the other side whose price
// crosses and whose zone has a distance.
fn first_among(
    distances: &[Option<u32>],
    orders: &[StandingOrder],
    own: &StandingOrder,
) -> Option<StandingOrder>
    ensures { result ≡ find (over.is_in_reach distances.now own.now) (over.other_line orders.now own.now) }
{
    let mut first = None;
    for other in orders {
        if is_first(distances, own, other, &first) {
            first = Some(*other);
        }
    }
    first
}

// Whether an order is the first so far.
#[inline(always)]
fn is_first(
    distances: &[Option<u32>],
    own: &StandingOrder,
    other: &StandingOrder,
    first: &Option<StandingOrder>,
) -> bool
    ensures { result ≡ listed.is_first (over.is_in_reach distances.now own.now) own.now.order.contract (opposite own.now.order.side) other.now first.now }
{
    let order = own.order();
    let side = order.side.opposite();
    is_in_line(other, order.contract, side)
        && is_in_reach(distances, own, other)
        && goes_first(side, other, first)
}

// The first order of the line whose price crosses and whose zone has a distance.
fn first_in_reach(
    distances: &[Option<u32>],
    line: &[StandingOrder],
    own: &StandingOrder,
) -> Option<StandingOrder>
    ensures { result ≡ find (over.is_in_reach distances.now own.now) line.now }
{
    for other in line {
        if is_in_reach(distances, own, other) {
            return Some(*other);
        }
    }
    None
}

// Whether the prices of two orders cross and the other one's zone has a distance.
fn is_in_reach(distances: &[Option<u32>], own: &StandingOrder, other: &StandingOrder) -> bool
    ensures { result ≡ over.is_in_reach distances.now own.now other.now }
{
    crosses_price(own, other) && is_reached(distances, other.order().zone)
}

// Whether the prices of two orders cross.
fn crosses_price(own: &StandingOrder, other: &StandingOrder) -> bool
    ensures { result ≡ over.crosses_price own.now other.now }
{
    own.order().side.crosses(own.price(), other.price())
}
