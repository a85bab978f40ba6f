//! What the entry of a block and the legs of two blocks make of their hour.

ghost use Rattle.laws_of_hours.specs.BlockEvents.{BlocksEnter};
ghost use Rattle.laws_of_hours.specs.BlockLegEvents.{BlockLegsAreMade, ClosedBlocksAreGone};

/// A block that enters rests in the book of its hour's blocks, whole, under a number that was free there;
/// the book of the orders and the flows are as before, and at most one more is open.
pub fn blocks_enter()
    ensures { BlocksEnter }
{}

/// A leg of two blocks leaves the orders of an hour of its period as they were, and all blocks but the two;
/// its lots can be carried over its route in every quarter, and the flows with them stand for the events
/// with it.
pub fn block_legs_are_made()
    ensures { BlockLegsAreMade }
{}

/// A block of which nothing is left is not in the book of the blocks of its hour.
pub fn closed_blocks_are_gone()
    ensures { ClosedBlocksAreGone }
{}
