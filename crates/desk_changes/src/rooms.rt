//! What legs leave of the rooms of a period.

ghost use Rattle.std.specs.Prelude.{◌≡◌, length};
ghost use Rattle.zone_graph.specs.declared.route.Arc.{Arc};
ghost use Rattle.zone_graph.specs.Rooms.{room_of};
ghost use Rattle.route_choice.specs.Poured.{rooms_after};
ghost use Rattle.desk_changes.specs.Rooms.{CanCarryEach};

use cut_proof::carry;
use zone_graph::{Rooms, RouteLeg};

/// Carries legs, one after the other: the rooms of their arcs fall, and those of the opposite ones rise.
pub(crate) fn carry_each(rooms: &mut Rooms, legs: &[RouteLeg])
    requires { CanCarryEach (length rooms.old) (room_of rooms.old) legs.now }
    ensures size { length rooms.new ≡ length rooms.old }
    ensures rooms { (arc : Arc) → room_of rooms.new arc ≡ rooms_after (room_of rooms.old) legs.now arc }
{
    for leg in legs {
        carry(rooms, leg.route.as_slice(), leg.lots);
    }
}
