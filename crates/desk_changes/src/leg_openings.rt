//! Whether legs may give an arc of an hour its first room.

ghost use Rattle.std.specs.Prelude.{◌≡◌, nat_lt};
ghost use Rattle.zone_graph.specs.declared.route.Arc.{Arc as RouteArc};
ghost use Rattle.zone_graph.specs.Graph.{HasArc};
ghost use Rattle.zone_graph.specs.Route.{IsIn};
ghost use Rattle.laws_of_joint_commands.specs.PeriodRooms.{hour_room};
ghost use Rattle.desk_changes.specs.LegOpenings as openings;

use crate::openings::has_room_in;
use kept_hour::KeptHour;
use zone_graph::{Arc, RouteLeg};

/// Whether one of some legs goes over an arc whose opposite arc lacks room in some quarter of the hour.
pub(crate) fn may_open(hour: &KeptHour, legs: &[RouteLeg]) -> bool
    requires { openings.AreOver hour.now.board.grid legs.now }
    ensures { result ≡ openings.may_open (hour_room hour.now.board.events hour.now.board.hour) legs.now }
{
    for leg in legs {
        if opens(hour, leg.route.as_slice()) {
            return true;
        }
    }
    false
}

// Whether a route goes over such an arc.
fn opens(hour: &KeptHour, route: &[Arc]) -> bool
    requires { (arc : RouteArc) → IsIn arc route.now → HasArc hour.now.board.grid arc }
    ensures { result ≡ openings.opens (hour_room hour.now.board.events hour.now.board.hour) route.now }
{
    for arc in route {
        if is_shut_back(hour, *arc) {
            return true;
        }
    }
    false
}

// Whether the opposite of an arc lacks room in some quarter of the hour.
fn is_shut_back(hour: &KeptHour, arc: Arc) -> bool
    requires { HasArc hour.now.board.grid arc }
    ensures { result ≡ openings.is_shut_back (hour_room hour.now.board.events hour.now.board.hour) arc }
{
    !has_room(hour, arc.opposite())
}

// Whether an arc has room in all quarters of the hour.
fn has_room(hour: &KeptHour, arc: Arc) -> bool
    requires { HasArc hour.now.board.grid arc }
    ensures { result ≡ nat_lt 0 (hour_room hour.now.board.events hour.now.board.hour arc) }
{
    let one = has_room_in(hour, arc, 1);
    let two = has_room_in(hour, arc, 2);
    let three = has_room_in(hour, arc, 3);
    let four = has_room_in(hour, arc, 4);
    one && two && three && four
}
