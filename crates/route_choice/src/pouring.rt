//! Pouring lots from zone to zone over one best route after another.

ghost use Rattle.std.specs.Prelude.{◌≡◌, ◌<◌, IfOk, OnErr, length};
ghost use Rattle.zone_graph.specs.Graph.{HasZone, border_count};
ghost use Rattle.zone_graph.specs.Grid.{IsGrid};
ghost use Rattle.zone_graph.specs.Pour.{pour as legs_poured, pour_leg};
ghost use Rattle.zone_graph.specs.Rooms.{room_of};
ghost use Rattle.cut_proof.specs.Carrying.{FitTogether};
ghost use Rattle.route_choice.specs.Poured.{AreRoomsAfter, AreRoomsAfterSome, CarryTheMost};

use crate::choice::best_route;
use cut_proof::{carried, carry};
use std::alloc::Global;
use zone_graph::{Grid, Legs, NoMemory, Rooms, RouteLeg};

/// Pours lots from a zone to a zone: while some are left and a route has room, the best route
/// carries the least of them and of its own room, which lowers the rooms along it and raises the
/// opposite ones. It answers the legs, in the order in which they were chosen, and leaves the rooms
/// that they leave. From a zone to itself the empty route carries all lots.
///
/// As many lots as the rooms allow are carried: all of them, or as many as there was room for into
/// the zones from which the last one can still be reached, of which the first is none.
///
/// The zones are in the grid, and the rooms are those of its arcs; the two of a border are less
/// than 2^32 lots together.
///
/// Where there is no memory the rooms are those after a first part of the legs.
pub fn pour(
    alloc: Global,
    grid: &Grid,
    rooms: &mut Rooms,
    from: u32,
    to: u32,
    most: u32,
) -> Result<Legs, NoMemory>
    requires from { HasZone grid.now from }
    requires to { HasZone grid.now to }
    requires size { length rooms.old ≡ border_count grid.now }
    requires fit { FitTogether grid.now (room_of rooms.old) }
    ensures legs { IfOk result (λ legs. legs ≡ legs_poured grid.now (room_of rooms.old) from to most) }
    ensures size { length rooms.new ≡ length rooms.old }
    ensures rooms { IfOk result (λ legs. AreRoomsAfter (room_of rooms.old) (room_of rooms.new) legs) }
    ensures some { OnErr result (AreRoomsAfterSome (room_of rooms.old) (room_of rooms.new) (legs_poured grid.now (room_of rooms.old) from to most)) }
    ensures most { IfOk result (λ legs. CarryTheMost grid.now (room_of rooms.old) (room_of rooms.new) from to most legs) }
{
    let mut legs = Legs::new(alloc);
    let mut left = most;
    while let Some(leg) = next_leg(alloc, grid, rooms, from, to, left)? {
        carry(rooms, leg.route.as_slice(), leg.lots);
        left -= leg.lots;
        legs.push(leg)?;
    }
    Ok(legs)
}

// The next leg of a pour of so many lots that are left.
fn next_leg(
    alloc: Global,
    grid: &Grid,
    rooms: &Rooms,
    from: u32,
    to: u32,
    left: u32,
) -> Result<Option<RouteLeg>, NoMemory>
    requires from { HasZone grid.now from }
    requires to { HasZone grid.now to }
    requires size { length rooms.now ≡ border_count grid.now }
    ensures leg { IfOk result (λ leg. leg ≡ pour_leg grid.now (room_of rooms.now) from to left) }
    ensures grid { IsGrid grid.now }
{
    let zones = grid.zones();
    prove!(to < zones);
    if left == 0 {
        return Ok(None);
    }
    let Some(route) = best_route(alloc, grid, rooms, from, to)? else {
        return Ok(None);
    };
    let lots = carried(rooms, left, route.as_slice());
    Ok(Some(RouteLeg { route, lots }))
}
