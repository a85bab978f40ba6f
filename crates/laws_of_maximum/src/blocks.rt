//! Which blocks are passed over.

ghost use Rattle.laws_of_maximum.specs.Passed.{BlocksArePassedOverForWantOfRoom};

/// After a well-formed history an open block finds as its partner the first block of the opposite
/// line of its period behind those that it passes over. To a block that it passes over, though they
/// are of one quantity and their prices cross, no flow carries its whole quantity within the rooms
/// over the whole period, over whatever routes and in whatever parts.
pub fn blocks_are_passed_over_for_want_of_room()
    ensures { BlocksArePassedOverForWantOfRoom }
{}
