//! Which zones a zone can be reached from, and which it reaches.

ghost use Rattle.std.specs.Prelude.{◌≡◌, All, IfOk, length};
ghost use Rattle.zone_graph.specs.Graph.{HasZone, border_count};
ghost use Rattle.zone_graph.specs.Rooms.{room_of};
ghost use Rattle.cut_proof.specs.Cut.{reached_zones};

use crate::distances;
use std::alloc::Global;
use zone_graph::{Grid, NoMemory, Rooms, Zones};

/// The zones from which a route over arcs with room leads to a zone (`towards`), or those to which
/// one leads from it (not `towards`), by ascending number. The zone itself is among them.
///
/// The zone is in the grid, and the rooms are those of its arcs. The only error is want of memory.
pub fn reach(
    alloc: Global,
    grid: &Grid,
    rooms: &Rooms,
    zone: u32,
    towards: bool,
) -> Result<Zones, NoMemory>
    requires zone { HasZone grid.now zone }
    requires size { length rooms.now ≡ border_count grid.now }
    ensures zones { IfOk result (λ zones. zones ≡ reached_zones grid.now (room_of rooms.now) zone towards) }
    ensures within { IfOk result (λ zones. All (λ zone. HasZone grid.now zone) zones) }
{
    let count = grid.zones();
    let found = distances(grid, rooms, zone, towards);
    let mut zones = Vec::with_capacity(alloc, count as usize)?;
    for other in 0..count {
        if found[other as usize].is_some() {
            zones.push(other)?;
        }
    }
    Ok(Zones::from(zones))
}
