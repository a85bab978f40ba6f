//! Laws of cuts: theorems about the definitions, each the contract of a function that does nothing.

ghost use Rattle.cut_proof.specs.Cut.{InnerLegsKeepTheCut, LegsInTakeEnteringRoom, LegsOutTakeLeavingRoom, NoRoomEntersTheZonesTowards, NoRoomLeavesTheZonesBeyond, ReachFromAStartDoesNotGrow, ReachToAnEndDoesNotGrow, RoutesUseBordersOnce};

/// A route takes no border twice, in the same direction or in both.
pub fn routes_use_borders_once()
    ensures { RoutesUseBordersOnce }
{}

/// A leg from outside a set of zones into it takes its lots from the room of the arcs that enter
/// the set, and gives them to the room of those that leave it, however often its route goes in and
/// out.
pub fn legs_in_take_entering_room()
    ensures { LegsInTakeEnteringRoom }
{}

/// A leg from a set of zones to outside it takes its lots from the room of the arcs that leave the
/// set, and gives them to the room of those that enter it.
pub fn legs_out_take_leaving_room()
    ensures { LegsOutTakeLeavingRoom }
{}

/// A leg between two zones of a set, or between two zones outside it, leaves the room of the arcs
/// that enter the set and of those that leave it as it was.
pub fn inner_legs_keep_the_cut()
    ensures { InnerLegsKeepTheCut }
{}

/// Where no route leads from a zone to the one where a leg ends, none does after the leg.
pub fn reach_to_an_end_does_not_grow()
    ensures { ReachToAnEndDoesNotGrow }
{}

/// Where no route leads to a zone from the one where a leg starts, none does after the leg.
pub fn reach_from_a_start_does_not_grow()
    ensures { ReachFromAStartDoesNotGrow }
{}

/// The arcs that enter the set of zones from which a zone is reached have no room.
pub fn no_room_enters_the_zones_towards()
    ensures { NoRoomEntersTheZonesTowards }
{}

/// The arcs that leave the set of zones that a zone reaches have no room.
pub fn no_room_leaves_the_zones_beyond()
    ensures { NoRoomLeavesTheZonesBeyond }
{}
