//! The buy that trades first.

ghost use Rattle.std.specs.Prelude.{◌≡◌, ℕ, ◌<◌, ◌==◌, IfOk, None, Some, length, true, if◌then◌else◌};
ghost use Rattle.order_kinds.specs.declared.side.Side.TheVariants.{Sell};
ghost use Rattle.zone_graph.specs.declared.route.Arc.{Arc as RouteArc};
ghost use Rattle.zone_graph.specs.Graph.{HasZone, border_count};
ghost use Rattle.zone_graph.specs.Rooms.{room_of};
ghost use Rattle.zone_graph.specs.Route.{IsIn};
ghost use Rattle.sweep_core.specs.Meeting as meeting;
ghost use Rattle.sweep_core.specs.Sweeping as sweeping;

use crate::marks::no_marks;
use crate::sells::partner_of;
use cut_proof::carried;
use market_model::{Board, Leg, Shown};
use order_kinds::{OrderName, Side};
use route_choice::RouteTree;
use std::alloc::Global;
use zone_graph::{Grid, MOST_ZONES, NoMemory, Rooms, Route};

/// Some sells of a part, and the rooms over which buys can reach them.
#[derive(Drop)]
pub(crate) struct PartSells<'a> {
    /// The grid.
    pub grid: &'a Grid,
    /// The hour.
    pub hour: u32,
    /// The rooms of the part's arcs, in lots.
    pub rooms: &'a Rooms,
    /// The sells, in priority.
    pub fronts: &'a [Shown],
}

/// The leg of the first buy of a part, in priority, that has one. Only the first buy of each zone is
/// asked, and only while the price crosses that of the best sell.
///
/// # Errors
///
/// [`NoMemory`] where memory runs out.
pub(crate) fn leg_of_buys<B: Board>(
    alloc: Global,
    board: &B,
    part: u32,
    best: &Shown,
    sells: &PartSells,
) -> Result<Option<Leg>, NoMemory>
    requires swept { sweeping.IsToBeSwept sells.now.grid.now sells.now.hour (B.state board.now) }
    requires part { part < 7 }
    requires rooms { meeting.AreRoomsOf (B.state board.now) part sells.now.rooms.now }
    requires fronts { meeting.DecideForBuys (B.state board.now) part sells.now.fronts.now }
    requires best { meeting.first_of (meeting.shown_line (B.state board.now) part Sell) ≡ Some best.now }
    ensures { IfOk result (λ found. found ≡ meeting.shown_leg (B.state board.now) part) }
{
    let mut tried = no_marks();
    let mut next = board.first(part, Side::Buy);
    while let Some(buy) = next {
        if !Side::Buy.crosses(buy.price, best.price) {
            return Ok(None);
        }
        if let Some(leg) = leg_of_zone(alloc, sells, &buy, &mut tried)? {
            return Ok(Some(leg));
        }
        next = board.after(buy.number);
    }
    Ok(None)
}

// The leg of a buy, if no buy of its zone was tried before; it is tried then.
fn leg_of_zone(
    alloc: Global,
    sells: &PartSells,
    buy: &Shown,
    tried: &mut [bool; MOST_ZONES],
) -> Result<Option<Leg>, NoMemory>
    requires size { length sells.now.rooms.now ≡ border_count sells.now.grid.now }
    requires zone { HasZone sells.now.grid.now buy.now.zone }
    ensures leg { IfOk result (λ found. found ≡ (if meeting.is_marked tried.old buy.now.zone then None
        else meeting.leg_of_buy sells.now.grid.now sells.now.hour (room_of sells.now.rooms.now) sells.now.fronts.now buy.now)) }
    ensures tried { IfOk result (λ found. (zone : ℕ) → meeting.is_marked tried.new zone ≡ (if zone == buy.now.zone then true else meeting.is_marked tried.old zone)) }
{
    let zones = sells.grid.zones();
    prove!(buy.zone < zones);
    if tried[buy.zone as usize] {
        return Ok(None);
    }
    tried[buy.zone as usize] = true;
    leg_of_buy(alloc, sells, buy)
}

// The leg of a buy, with the first sell that it can trade with.
fn leg_of_buy(alloc: Global, sells: &PartSells, buy: &Shown) -> Result<Option<Leg>, NoMemory>
    requires size { length sells.now.rooms.now ≡ border_count sells.now.grid.now }
    requires zone { HasZone sells.now.grid.now buy.now.zone }
    ensures { IfOk result (λ found. found ≡ meeting.leg_of_buy sells.now.grid.now sells.now.hour (room_of sells.now.rooms.now) sells.now.fronts.now buy.now) }
{
    let zones = sells.grid.zones();
    prove!(buy.zone < zones);
    let search = RouteTree::new(sells.grid, sells.rooms, buy.zone, true);
    let Some(sell) = partner_of(sells.fronts, &search, buy) else {
        return Ok(None);
    };
    let Some(route) = search.route(alloc, sells.grid, sells.rooms, sell.zone)? else {
        return Ok(None);
    };
    Ok(Some(resting_leg(sells.rooms, sells.hour, buy, &sell, route)))
}

// The leg of a buy and a sell over a route: the one that was there earlier is the maker.
fn resting_leg(rooms: &Rooms, hour: u32, buy: &Shown, sell: &Shown, route: Route) -> Leg
    requires { (arc : RouteArc) → IsIn arc route → arc.border < length rooms.now }
    ensures { result ≡ meeting.resting_leg hour (room_of rooms.now) buy.now sell.now route }
{
    if is_earlier(buy, sell) {
        leg_between(rooms, hour, sell, buy, route)
    } else {
        leg_between(rooms, hour, buy, sell, route)
    }
}

// Whether a buy was there earlier than a sell: at the earlier moment, or at the same one with the
// smaller number.
fn is_earlier(buy: &Shown, sell: &Shown) -> bool
    ensures { result ≡ meeting.is_earlier buy.now sell.now }
{
    buy.moment
        .cmp(&sell.moment)
        .then(buy.number.cmp(&sell.number))
        .is_lt()
}

// The leg of a taker with a maker over a route: at the maker's price, for the least of what both show
// and what the route can carry.
fn leg_between(rooms: &Rooms, hour: u32, taker: &Shown, maker: &Shown, route: Route) -> Leg
    requires { (arc : RouteArc) → IsIn arc route → arc.border < length rooms.now }
    ensures { result ≡ meeting.leg_between hour (room_of rooms.now) taker.now maker.now route }
{
    let lots = carried(rooms, taker.lots.min(maker.lots), route.as_slice());
    Leg {
        taker: OrderName {
            hour,
            number: taker.number,
        },
        maker: OrderName {
            hour,
            number: maker.number,
        },
        lots,
        price: maker.price,
        route,
    }
}
