//! Rooms on the arcs of a grid, and legs over them.

ghost use Rattle.std.specs.Prelude.{◌≡◌, ◌<◌, ◌+◌, ◌^◌, IfOk, length, map};
ghost use Rattle.zone_graph.specs.declared.route.Arc.{Arc};
ghost use Rattle.zone_graph.specs.Graph.{border_count};
ghost use Rattle.zone_graph.specs.Pour.{opposite_arc};
ghost use Rattle.zone_graph.specs.Rooms.{room_of};

use std::alloc::Global;
use std::test::Fail;
use zone_graph::{Arc, Grid, Legs, NoMemory, Rooms, Route, RouteLeg};

/// Rooms of so many lots on the forward arc and the backward arc of each border, in turn.
///
/// # Errors
///
/// Where a border has no pair, or memory is wanting.
pub fn rooms_of(grid: &Grid, pairs: &[(u32, u32)]) -> Result<Rooms, Fail>
    ensures { IfOk result (λ rooms. length rooms ≡ border_count grid.now) }
{
    let mut rooms = Rooms::new(grid)?;
    let borders = grid.borders();
    for border in 0..borders {
        let (forward, backward) = *pairs.get(border as usize).ok_or("no room")?;
        rooms.set(Arc::over(border, true), forward);
        rooms.set(Arc::over(border, false), backward);
    }
    Ok(rooms)
}

// Gives an arc a room of few lots, where all arcs have few.
fn give(rooms: &mut Rooms, arc: Arc, room: u32)
    requires arc { arc.border < length rooms.old }
    requires room { room < 256 }
    requires small { (other : Arc) → room_of rooms.old other < 256 }
    ensures size { length rooms.new ≡ length rooms.old }
    ensures small { (other : Arc) → room_of rooms.new other < 256 }
{
    rooms.set(arc, room);
}

/// Rooms of the diamond: over its two sides 6 and 4 lots go from the first zone to the last, and on
/// the second side 1 lot goes back.
///
/// # Errors
///
/// Where memory is wanting.
pub fn rooms_of_diamond(grid: &Grid) -> Result<Rooms, Fail>
    requires { border_count grid.now ≡ 4 }
    ensures size { IfOk result (λ rooms. length rooms ≡ 4) }
    ensures fit { IfOk result (λ rooms. (other : Arc) → room_of rooms other + room_of rooms (opposite_arc other) < 2 ^ 32) }
{
    let mut rooms = Rooms::new(grid)?;
    give(&mut rooms, Arc::over(0, true), 6);
    give(&mut rooms, Arc::over(1, true), 5);
    give(&mut rooms, Arc::over(1, false), 1);
    give(&mut rooms, Arc::over(2, true), 8);
    give(&mut rooms, Arc::over(3, true), 4);
    give(&mut rooms, Arc::over(3, false), 3);
    Ok(rooms)
}

/// Legs over these arcs, with so many lots each.
///
/// # Errors
///
/// Where memory is wanting.
pub fn legs_over(alloc: Global, legs: &[(&[Arc], u32)]) -> Result<Legs, NoMemory>
    ensures { IfOk result (λ made. made ≡ map (λ leg. record { route = leg.0.now; lots = leg.1 }) legs.now) }
{
    let mut made = Legs::new(alloc);
    for (arcs, lots) in legs {
        made.push(RouteLeg {
            route: Route::from(Vec::from_slice(alloc, arcs)?),
            lots: *lots,
        })?;
    }
    Ok(made)
}
