//! The choice of the best route between two zones.

ghost use Rattle.std.specs.Prelude.{◌≡◌, IfOk, length};
ghost use Rattle.zone_graph.specs.Graph.{HasZone, border_count};
ghost use Rattle.zone_graph.specs.Rooms.{room_of};
ghost use Rattle.zone_graph.specs.Route.{best_route as route_of};

use crate::tree::RouteTree;
use std::alloc::Global;
use zone_graph::{Grid, NoMemory, Rooms, Route};

/// The best route from a zone to a zone over arcs that have room: the one with the fewest arcs, and
/// of several of these the one whose border numbers come first in lexicographical order. `None`
/// exactly where there is no route. From a zone to itself it is the empty route. Energy takes it
/// from the seller's zone to the buyer's.
///
/// The zones are in the grid, and the rooms are those of its arcs.
pub fn best_route(
    alloc: Global,
    grid: &Grid,
    rooms: &Rooms,
    from: u32,
    to: u32,
) -> Result<Option<Route>, NoMemory>
    requires from { HasZone grid.now from }
    requires to { HasZone grid.now to }
    requires size { length rooms.now ≡ border_count grid.now }
    ensures { IfOk result (λ found. found ≡ route_of grid.now (room_of rooms.now) from to) }
{
    let tree = RouteTree::new(grid, rooms, to, true);
    tree.route(alloc, grid, rooms, from)
}
