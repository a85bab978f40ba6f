//! The next leg of a sweep.

ghost use Rattle.std.specs.Prelude.{◌≡◌, ◌<◌, IfOk, IfSome, None, length};
ghost use Rattle.std.specs.Option.{option_map};
ghost use Rattle.zone_graph.specs.declared.route.Arc.{Arc as RouteArc};
ghost use Rattle.zone_graph.specs.Graph.{border_count};
ghost use Rattle.zone_graph.specs.Rooms.{room_of};
ghost use Rattle.zone_graph.specs.Route.{IsIn};
ghost use Rattle.sweep_core.specs.Sweeping as sweeping;

use crate::buys::{PartSells, leg_of_buys};
use crate::part_set::PartSet;
use crate::sells::sell_fronts;
use market_model::{Board, Leg};
use order_kinds::Side;
use std::alloc::Global;
use zone_graph::{Arc, Grid, NoMemory, Rooms};

// The parts in the order in which they are tried: the hour, its halves, its quarters.
const ORDER: [u32; 7] = [0, 5, 6, 1, 2, 3, 4];

/// A leg, and the number of the part in which it is.
#[derive(Drop)]
pub(crate) struct PartLeg {
    pub part: u32,
    pub leg: Leg,
    /// Whether the opposite of an arc of its route has no room, and may get its first.
    pub opens: bool,
}

/// The next leg of the sweep of an hour: in the first part that has one. The parts that are not in
/// the set have none, and those that turn out to have none leave it.
///
/// The row of rooms is kept from call to call, and made where a part needs it first: one whose best
/// buy and best sell cross.
///
/// # Errors
///
/// [`NoMemory`] where memory runs out.
pub(crate) fn next_leg<B: Board>(
    alloc: Global,
    board: &B,
    grid: &Grid,
    hour: u32,
    rooms: &mut Option<Rooms>,
    parts: &mut PartSet,
) -> Result<Option<PartLeg>, NoMemory>
    requires swept { sweeping.IsToBeSwept grid.now hour (B.state board.now) }
    requires size { sweeping.AreSized grid.now rooms.old }
    requires quiet { sweeping.OthersAreQuiet (B.state board.now) parts.old }
    ensures next { IfOk result (λ found. sweeping.next_event (B.state board.now) ≡ option_map (sweeping.leg_event (B.state board.now)) found) }
    ensures found { IfOk result (λ found. IfSome found (λ next. sweeping.IsNext (B.state board.now) next)) }
    ensures size { sweeping.AreSized grid.now rooms.new }
    ensures quiet { IfOk result (λ found. sweeping.OthersAreQuiet (B.state board.now) parts.new) }
{
    for part in ORDER {
        if let Some(next) = leg_if_open(alloc, board, grid, hour, part, rooms, parts)? {
            return Ok(Some(next));
        }
    }
    Ok(None)
}

// The leg of a part, if it is in the set; it leaves it where it has none.
fn leg_if_open<B: Board>(
    alloc: Global,
    board: &B,
    grid: &Grid,
    hour: u32,
    part: u32,
    rooms: &mut Option<Rooms>,
    parts: &mut PartSet,
) -> Result<Option<PartLeg>, NoMemory>
    requires swept { sweeping.IsToBeSwept grid.now hour (B.state board.now) }
    requires part { part < 7 }
    requires size { sweeping.AreSized grid.now rooms.old }
    requires quiet { sweeping.OthersAreQuiet (B.state board.now) parts.old }
    ensures leg { IfOk result (λ found. sweeping.part_leg (B.state board.now) part ≡ option_map (sweeping.leg_event (B.state board.now)) found) }
    ensures in_part { IfOk result (λ found. IfSome found (λ next. next.part ≡ part)) }
    ensures found { IfOk result (λ found. IfSome found (λ next. sweeping.IsFoundIn (B.state board.now) next)) }
    ensures size { sweeping.AreSized grid.now rooms.new }
    ensures quiet { IfOk result (λ found. sweeping.OthersAreQuiet (B.state board.now) parts.new) }
{
    if !parts.contains(part) {
        return Ok(None);
    }
    match leg_of_part(alloc, board, grid, hour, part, rooms)? {
        Some(found) => Ok(Some(found)),
        None => {
            *parts = parts.without(part);
            Ok(None)
        }
    }
}

// The leg of a part: `None` exactly where it has none. Where the best buy and the best sell do not
// cross, no rooms are asked and no memory is taken.
fn leg_of_part<B: Board>(
    alloc: Global,
    board: &B,
    grid: &Grid,
    hour: u32,
    part: u32,
    rooms: &mut Option<Rooms>,
) -> Result<Option<PartLeg>, NoMemory>
    requires swept { sweeping.IsToBeSwept grid.now hour (B.state board.now) }
    requires part { part < 7 }
    requires size { sweeping.AreSized grid.now rooms.old }
    ensures leg { IfOk result (λ found. sweeping.part_leg (B.state board.now) part ≡ option_map (sweeping.leg_event (B.state board.now)) found) }
    ensures in_part { IfOk result (λ found. IfSome found (λ next. next.part ≡ part)) }
    ensures found { IfOk result (λ found. IfSome found (λ next. sweeping.IsFoundIn (B.state board.now) next)) }
    ensures size { sweeping.AreSized grid.now rooms.new }
{
    let Some(buy) = board.first(part, Side::Buy) else {
        return Ok(None);
    };
    let Some(sell) = board.first(part, Side::Sell) else {
        return Ok(None);
    };
    if !Side::Buy.crosses(buy.price, sell.price) {
        return Ok(None);
    }
    let fronts = sell_fronts(alloc, board, grid, part, &buy)?;
    let mut row = taken_row(grid, rooms)?;
    board.rooms(part, &mut row);
    let sells = PartSells {
        grid,
        hour,
        rooms: &row,
        fronts: fronts.as_slice(),
    };
    let leg = leg_of_buys(alloc, board, part, &sell, &sells)?;
    let found = with_opening(part, &row, leg);
    *rooms = Some(row);
    Ok(found)
}

// Takes the row of rooms that was kept, or makes one.
fn taken_row(grid: &Grid, rooms: &mut Option<Rooms>) -> Result<Rooms, NoMemory>
    requires { sweeping.AreSized grid.now rooms.old }
    ensures size { IfOk result (λ row. length row ≡ border_count grid.now) }
    ensures none { rooms.new ≡ None }
{
    match rooms.take() {
        Some(row) => Ok(row),
        None => Rooms::new(grid),
    }
}

// A leg with its part, and whether it may give an arc its first room.
fn with_opening(part: u32, rooms: &Rooms, leg: Option<Leg>) -> Option<PartLeg>
    requires { IfSome leg (λ leg. (arc : RouteArc) → IsIn arc leg.route → arc.border < length rooms.now) }
    ensures { result ≡ option_map (λ leg. record { part = part; leg = leg; opens = sweeping.may_open (room_of rooms.now) leg.route }) leg }
{
    let leg = leg?;
    let opens = may_open(rooms, leg.route.as_slice());
    Some(PartLeg { part, leg, opens })
}

/// Whether a leg over a route may give an arc its first room: the opposite of one of its arcs has none. The arcs are those of
/// the rooms.
pub fn may_open(rooms: &Rooms, route: &[Arc]) -> bool
    requires { (arc : RouteArc) → IsIn arc route.now → arc.border < length rooms.now }
    ensures { result ≡ sweeping.may_open (room_of rooms.now) route.now }
{
    for arc in route {
        if rooms.at(arc.opposite()) == 0 {
            return true;
        }
    }
    false
}
