//! The trades of a taker of any quantity at any price, one after the other.

ghost use Rattle.std.specs.Prelude.{◌≡◌, ◌<◌, ℕ, IfOk, length};
ghost use Rattle.std.specs.List.{find};
ghost use Rattle.zone_graph.specs.Graph.{HasZone, border_count};
ghost use Rattle.zone_graph.specs.Grid.{IsGrid};
ghost use Rattle.zone_graph.specs.Rooms.{room_of};
ghost use Rattle.market_model.specs.View as market;
ghost use Rattle.order_kinds.specs.Same.{same_side};
ghost use Rattle.order_kinds.specs.declared.side.Side.TheVariants.{Sell};
ghost use Rattle.laws_of_rows.specs.Depth as depth;
ghost use Rattle.plain_market.specs.InReach as in_reach;

use cut_proof::{carried, distances};
use laws_of_rows::{Fill, Maker};
use market_model::{NoMemory, Price, Side};
use plain_matching::{best_route, is_reached};
use std::alloc::Global;
use zone_graph::{Grid, Rooms};

/// The next trade of a taker in a zone, of which so many lots are left: with the first maker of the
/// line of which something is left and with which a route over arcs with room joins the zone.
///
/// # Errors
///
/// [`NoMemory`], where there is no memory for the route.
pub(crate) fn next_fill(
    alloc: Global,
    grid: &Grid,
    rooms: &Rooms,
    makers: &[Maker],
    side: Side,
    zone: u32,
    left: u32,
) -> Result<Option<Fill>, NoMemory>
    requires size { length rooms.now ≡ border_count grid.now }
    requires zone { HasZone grid.now zone }
    requires makers { depth.AreInZones grid.now makers.now }
    ensures fill { IfOk result (λ fill. fill ≡ depth.next_fill grid.now side zone (depth.depth_of makers.now rooms.now left)) }
    ensures grid { IsGrid grid.now }
{
    let zones = grid.zones();
    prove!(zone < zones);
    if left == 0 {
        return Ok(None);
    }
    let distances = distances(grid, rooms, zone, is_sell(side));
    match first_in_reach(&distances, makers, side) {
        Some(maker) => fill_with(alloc, grid, rooms, &maker, side, zone, left),
        None => Ok(None),
    }
}

// Whether a side is the sellers'.
fn is_sell(side: Side) -> bool
    ensures { result ≡ same_side side Sell }
{
    matches!(side, Side::Sell)
}

// The first maker that is in reach of the taker.
fn first_in_reach(distances: &[Option<u32>], makers: &[Maker], side: Side) -> Option<Maker>
    ensures { result ≡ find (in_reach.is_in_reach distances.now side) makers.now }
{
    for maker in makers {
        if is_in_reach(distances, maker, side) {
            return Some(*maker);
        }
    }
    None
}

// Whether something is left of a maker, its price crosses the taker's and its zone has a distance.
fn is_in_reach(distances: &[Option<u32>], maker: &Maker, side: Side) -> bool
    ensures { result ≡ in_reach.is_in_reach distances.now side maker.now }
{
    let taking = side.opposite();
    maker.left > 0
        && taking.crosses(any_price(taking), maker.price)
        && is_reached(distances, maker.zone)
}

// The price of a side that crosses every other.
fn any_price(side: Side) -> Price
    ensures { result ≡ market.any_price side }
{
    match side {
        Side::Buy => Price::GREATEST,
        Side::Sell => Price::LEAST,
    }
}

// The trade with a maker: over the best route from the seller to the buyer, of the least of what is
// left of both and what the route can carry.
fn fill_with(
    alloc: Global,
    grid: &Grid,
    rooms: &Rooms,
    maker: &Maker,
    side: Side,
    zone: u32,
    left: u32,
) -> Result<Option<Fill>, NoMemory>
    requires size { length rooms.now ≡ border_count grid.now }
    requires zone { HasZone grid.now zone }
    requires maker { HasZone grid.now maker.now.zone }
    ensures { IfOk result (λ fill. fill ≡ depth.fill_with grid.now (room_of rooms.now) side zone left maker.now) }
{
    let zones = grid.zones();
    let seller = seller_zone(side, zone, maker);
    let buyer = buyer_zone(side, zone, maker);
    prove!(seller < zones);
    let Some(route) = best_route(alloc, grid, rooms, seller, buyer)? else {
        return Ok(None);
    };
    let lots = carried(rooms, left.min(maker.left), route.as_slice());
    Ok(Some(Fill {
        maker: maker.name,
        price: maker.price,
        lots,
        route,
    }))
}

// The zone of the seller.
fn seller_zone(side: Side, zone: u32, maker: &Maker) -> u32
    ensures { result ≡ depth.seller_zone side zone maker.now }
{
    match side {
        Side::Buy => zone,
        Side::Sell => maker.zone,
    }
}

// The zone of the buyer.
fn buyer_zone(side: Side, zone: u32, maker: &Maker) -> u32
    ensures { result ≡ depth.buyer_zone side zone maker.now }
{
    match side {
        Side::Buy => maker.zone,
        Side::Sell => zone,
    }
}
