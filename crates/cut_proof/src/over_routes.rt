//! Lots that go over a route.

ghost use Rattle.std.specs.Prelude.{◌≡◌, ◌<◌, ◌≤◌, ◌+◌, ◌^◌, ◌∷◌, [], length};
ghost use Rattle.zone_graph.specs.declared.route.Arc.{Arc};
ghost use Rattle.zone_graph.specs.Pour.{opposite_arc, room_after};
ghost use Rattle.zone_graph.specs.Rooms.{room_of};
ghost use Rattle.zone_graph.specs.Route.{IsIn, carried as carried_of};
ghost use Rattle.cut_proof.specs.Carrying.{CanCarry};

use zone_graph::{Arc, Rooms};

/// What a route can carry of some lots (tenths of a MW): the least of them and of the rooms of its
/// arcs. The empty route carries all of them.
pub fn carried(rooms: &Rooms, lots: u32, route: &[Arc]) -> u32
    requires arcs { (arc : Arc) → IsIn arc route.now → arc.border < length rooms.now }
    ensures { result ≡ carried_of (room_of rooms.now) lots route.now }
{
    let mut least = lots;
    for arc in route {
        least = least.min(rooms.at(*arc));
    }
    least
}

/// Carries lots (tenths of a MW) over a route: lowers the room of each of its arcs by them, and
/// raises that of the opposite one. All other arcs keep theirs.
///
/// Each arc has room for the lots, each opposite room and they are less than 2^32 together, and the
/// route takes no border twice.
pub fn carry(rooms: &mut Rooms, route: &[Arc], lots: u32)
    requires { CanCarry (length rooms.old) (room_of rooms.old) lots route.now }
    ensures size { length rooms.new ≡ length rooms.old }
    ensures rooms { (arc : Arc) → room_of rooms.new arc ≡ room_after (room_of rooms.old) (record { route = route.now; lots = lots }) arc }
{
    for arc in route {
        carry_over(rooms, *arc, lots);
    }
}

// Carries lots over one arc: lowers its room and raises that of the opposite one.
fn carry_over(rooms: &mut Rooms, arc: Arc, lots: u32)
    requires border { arc.border < length rooms.old }
    requires room { lots ≤ room_of rooms.old arc }
    requires back { room_of rooms.old (opposite_arc arc) + lots < 2 ^ 32 }
    ensures size { length rooms.new ≡ length rooms.old }
    ensures rooms { (other : Arc) → room_of rooms.new other ≡ room_after (room_of rooms.old) (record { route = arc ∷ []; lots = lots }) other }
{
    let room = rooms.at(arc);
    let back = rooms.at(arc.opposite());
    rooms.set(arc, room - lots);
    rooms.set(arc.opposite(), back + lots);
}
