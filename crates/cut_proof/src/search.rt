//! How far each zone is from the one that energy is to reach or to leave.

ghost use Rattle.std.specs.Prelude.{◌≡◌, ◌<◌, ◌+◌, ℕ, Some, None, length, replicate, slice_index_or, slice_set};
ghost use Rattle.zone_graph.specs.Graph.{HasZone, border_count};
ghost use Rattle.zone_graph.specs.Pour.{opposite_arc};
ghost use Rattle.zone_graph.specs.Rooms.{room_of};
ghost use Rattle.cut_proof.specs.Distance.{AreDistances, directed_room};

use zone_graph::{Arc, Grid, MOST_ZONES, Rooms};

/// How many arcs the shortest way from each zone takes, by zone: `None` where there is no way.
pub type Distances = [Option<u32>; MOST_ZONES];

// A search that goes out from one zone: how far the zones are that it has found, and these zones
// in the order in which they were found.
#[derive(Drop)]
struct Search {
    distances: Distances,
    zones: [u32; MOST_ZONES],
    count: usize,
}

impl Search {
    // The search that has found its own zone.
    fn new(zone: u32) -> Search
        requires { zone < 64 }
        ensures distances { result.distances ≡ slice_set (replicate 64 None) zone (Some 0) }
        ensures zones { result.zones ≡ slice_set (replicate 64 0) 0 zone }
        ensures count { result.count ≡ 1 }
    {
        let mut search = Search {
            distances: [None; MOST_ZONES],
            zones: [0; MOST_ZONES],
            count: 0,
        };
        search.add(zone, 0);
        search
    }

    // Adds a zone that was not found before.
    fn add(&mut self, zone: u32, distance: u32)
        requires zone { zone < 64 }
        requires place { self.old.count < 64 }
        ensures distances { self.new.distances ≡ slice_set self.old.distances zone (Some distance) }
        ensures zones { self.new.zones ≡ slice_set self.old.zones self.old.count zone }
        ensures count { self.new.count ≡ self.old.count + 1 }
    {
        self.distances[zone as usize] = Some(distance);
        self.zones[self.count] = zone;
        self.count += 1;
    }

    // How far a zone is, if it has been found.
    fn distance(&self, zone: u32) -> Option<u32>
        requires { zone < 64 }
        ensures { result ≡ slice_index_or self.now.distances zone None }
    {
        self.distances[zone as usize]
    }
}

// The room of the arc over a neighbour's border by which energy takes the way towards the zone, or
// from it.
fn room_over(rooms: &Rooms, arc: Arc, towards: bool) -> u32
    requires { arc.border < length rooms.now }
    ensures { result ≡ directed_room (room_of rooms.now) towards (opposite_arc arc) }
{
    rooms.at(if towards { arc.opposite() } else { arc })
}

/// How far each zone of a grid is, over arcs that have room, from where energy goes towards a zone
/// (`towards`), or that energy reaches from the zone (not `towards`): the number of arcs of the
/// shortest way.
///
/// The zone is in the grid, and the rooms are those of its arcs.
pub fn distances(grid: &Grid, rooms: &Rooms, zone: u32, towards: bool) -> Distances
    requires zone { HasZone grid.now zone }
    requires size { length rooms.now ≡ border_count grid.now }
    ensures { AreDistances grid.now (directed_room (room_of rooms.now) towards) zone result }
{
    let zones = grid.zones();
    prove!(zone < zones);
    let mut search = Search::new(zone);
    let mut next = 0;
    while next < search.count {
        let visited = search.zones[next];
        let distance = search.distance(visited).unwrap() + 1;
        for neighbour in grid.neighbours(visited) {
            let room = room_over(rooms, neighbour.arc, towards);
            if room > 0 && search.distance(neighbour.zone).is_none() {
                search.add(neighbour.zone, distance);
            }
        }
        next += 1;
    }
    search.distances
}
