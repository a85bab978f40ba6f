//! The zones near a change: those that can trade with a touched one. Of a set of zones bit z stands for zone z.

ghost use Rattle.std.specs.Prelude.{◌≡◌, ◌-◌, ◌^◌, ◌<◌, ◌≤◌, ℕ, length};
ghost use Rattle.std.specs.Int.RustNames.{count_ones};
ghost use Rattle.cut_proof.specs.ZoneSet.{holds};
ghost use Rattle.zone_graph.specs.Graph.{HasZone, border_count, zone_count};
ghost use Rattle.zone_graph.specs.Rooms.{room_of};
ghost use Rattle.local_view.specs.Nearness.{is_near, near_count};
ghost use Rattle.local_view.specs.Ways.{AreJoined};

use crate::ways::room_for;
use market_model::Side;
use zone_graph::{Grid, Rooms};

/// The zones that are near a touched one: one search from all touched zones, over the arcs that have room.
pub(crate) fn near_zones(grid: &Grid, rooms: &Rooms, side: Side, touched: u64) -> u64
    requires { length rooms.now ≡ border_count grid.now }
    ensures near { (zone : ℕ) → zone < zone_count grid.now → holds result zone ≡ is_near grid.now (room_of rooms.now) side touched zone }
    ensures count { count_ones result ≡ near_count grid.now (room_of rooms.now) side touched }
{
    let all = first_zones(grid.zones());
    let mut near = touched & all;
    let mut asked = 0;
    while near & !asked != 0 {
        let zone = (near & !asked).trailing_zeros();
        asked |= 1 << zone;
        near |= joined_with(grid, rooms, side, zone);
        if near == all {
            return near;
        }
    }
    near
}

/// So many zones, the first ones.
pub(crate) fn first_zones(zones: u32) -> u64
    requires { zones ≤ 64 }
    ensures { result ≡ 2 ^ zones - 1 }
{
    if zones < 64 {
        (1 << zones) - 1
    } else {
        u64::MAX
    }
}

// The zones that an arc with room joins with a zone: takers there can trade with a side's orders in the zone.
fn joined_with(grid: &Grid, rooms: &Rooms, side: Side, zone: u32) -> u64
    requires zone { HasZone grid.now zone }
    requires size { length rooms.now ≡ border_count grid.now }
    ensures { AreJoined grid.now (room_of rooms.now) side zone result }
{
    let mut joined = 0;
    for neighbour in grid.neighbours(zone) {
        if room_for(rooms, side, neighbour.arc.opposite()) > 0 {
            joined |= 1 << neighbour.zone;
        }
    }
    joined
}
