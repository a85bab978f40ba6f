//! How much room the borders around a set of zones have.

ghost use Rattle.std.specs.Prelude.{◌≡◌, All, length};
ghost use Rattle.zone_graph.specs.Graph.{HasZone, border_count};
ghost use Rattle.zone_graph.specs.Rooms.{room_of};
ghost use Rattle.cut_proof.specs.Cut.{crossing_room};

use crate::zone_set::ZoneSet;
use zone_graph::{Arc, Grid, Rooms, Zones};

/// The sum of the rooms of all arcs that lead from outside a set of zones into it (`towards`), or
/// of all that lead out of it (not `towards`), in lots: the most that legs can carry that way, over
/// and above what legs carry back. It takes no memory.
///
/// The zones are in the grid, in any order, and the rooms are those of its arcs.
pub fn border_bound(grid: &Grid, rooms: &Rooms, zones: &Zones, towards: bool) -> u64
    requires zones { All (λ zone. HasZone grid.now zone) zones.now }
    requires size { length rooms.now ≡ border_count grid.now }
    ensures { result ≡ crossing_room grid.now (room_of rooms.now) zones.now towards }
{
    let borders = grid.borders();
    let inside = ZoneSet::of(zones.as_slice());
    let mut sum = 0;
    for border in 0..borders {
        let (first, second) = grid.ends(Arc {
            border,
            forward: true,
        });
        let starts_inside = inside.contains(first);
        let ends_inside = inside.contains(second);
        if starts_inside != ends_inside {
            let forward = ends_inside == towards;
            sum += u64::from(rooms.at(Arc { border, forward }));
        }
    }
    sum
}
