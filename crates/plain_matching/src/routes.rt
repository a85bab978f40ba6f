//! The best route between two zones, and whether a zone is in reach.

ghost use Rattle.std.specs.Prelude.{◌≡◌, ◌+◌, ◌<◌, ◌==◌, None, IfOk, is_some, length, slice_index_or};
ghost use Rattle.zone_graph.specs.Graph.{HasArc, HasZone, border_count};
ghost use Rattle.zone_graph.specs.Rooms.{room_of};
ghost use Rattle.zone_graph.specs.Route.{best_route as route_of};
ghost use Rattle.cut_proof.specs.Distance.{IsLeastStep, arcs_of_distance, distance_at};
ghost use Rattle.plain_matching.specs.Steps.{HasStep, is_step as steps_to};

use cut_proof::distances;
use std::alloc::Global;
use zone_graph::{Arc, Grid, NoMemory, Rooms, Route};

/// The best route from a zone to a zone over arcs that have room: the one with the fewest arcs, and
/// of several of these the one whose border numbers come first in lexicographical order. `None`
/// exactly where there is no route. From a zone to itself it is the empty route. Energy takes it
/// from the seller's zone to the buyer's.
///
/// The zones are in the grid, and the rooms are those of its arcs.
///
/// # Errors
///
/// [`NoMemory`], where there is no memory for the route.
pub fn best_route(
    alloc: Global,
    grid: &Grid,
    rooms: &Rooms,
    from: u32,
    to: u32,
) -> Result<Option<Route>, NoMemory>
    requires from { HasZone grid.now from }
    requires to { HasZone grid.now to }
    requires size { length rooms.now ≡ border_count grid.now }
    ensures { IfOk result (λ found. found ≡ route_of grid.now (room_of rooms.now) from to) }
{
    let zones = grid.zones();
    prove!(from < zones);
    let distances = distances(grid, rooms, to, true);
    let Some(mut distance) = distances[from as usize] else {
        return Ok(None);
    };
    let mut route = Route::new(alloc);
    let mut zone = from;
    while distance > 0 {
        distance -= 1;
        let arc = least_step(grid, rooms, &distances, zone, distance);
        route.push(arc)?;
        zone = grid.ends(arc).1;
    }
    Ok(Some(route))
}

// The arc over the least border that has room and leads from a zone to one at a distance, which is
// nearer by one.
fn least_step(
    grid: &Grid,
    rooms: &Rooms,
    distances: &[Option<u32>],
    zone: u32,
    distance: u32,
) -> Arc
    requires size { length rooms.now ≡ border_count grid.now }
    requires places { length distances.now ≡ 64 }
    requires distance { distance < 64 }
    requires nearer { distance_at distances.now zone ≡ distance + 1 }
    requires step { HasStep grid.now (room_of rooms.now) distances.now zone }
    ensures { IsLeastStep grid.now (room_of rooms.now) distances.now zone result }
{
    let borders = grid.borders();
    for border in 0..borders {
        let forward = Arc::over(border, true);
        if is_step(grid, rooms, distances, zone, distance, forward) {
            return forward;
        }
        let backward = Arc::over(border, false);
        if is_step(grid, rooms, distances, zone, distance, backward) {
            return backward;
        }
    }
    unreachable!()
}

// Whether an arc has room and leads from a zone to one at a distance.
fn is_step(
    grid: &Grid,
    rooms: &Rooms,
    distances: &[Option<u32>],
    zone: u32,
    distance: u32,
    arc: Arc,
) -> bool
    requires arc { HasArc grid.now arc }
    requires size { length rooms.now ≡ border_count grid.now }
    requires places { length distances.now ≡ 64 }
    requires distance { distance < 64 }
    ensures { result ≡ steps_to grid.now (room_of rooms.now) distances.now zone distance arc }
{
    let (start, end) = grid.ends(arc);
    start == zone && rooms.at(arc) > 0 && is_at(distances[end as usize], distance)
}

// Whether a zone is at a distance.
fn is_at(found: Option<u32>, distance: u32) -> bool
    requires { distance < 128 }
    ensures { result ≡ (arcs_of_distance found == distance) }
{
    match found {
        Some(arcs) => arcs == distance,
        None => false,
    }
}

/// Whether a zone has a distance: a number that no zone has does not.
pub fn is_reached(distances: &[Option<u32>], zone: u32) -> bool
    ensures { result ≡ is_some (slice_index_or distances.now zone None) }
{
    matches!(distances.get(zone as usize), Some(Some(_)))
}
