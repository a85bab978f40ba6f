//! What each event makes of the book of the blocks of an hour. Each law holds after events of which
//! each fits those before it, as after every first part of a well-formed history.

ghost use Rattle.laws_of_books.specs.BlockLaws.{BlocksComeToRest, EnteringNumbersAreFree, OtherEventsLeaveTheBlocks, WithdrawnBlocksLeave};

/// An event that is nothing to the blocks that start in an hour leaves the hour's book as it was: no
/// such block enters or trades, and what is withdrawn is of another hour or an order.
pub fn other_events_leave_the_blocks()
    ensures { OtherEventsLeaveTheBlocks }
{}

/// In the book of its first hour no block has the number of a block that enters.
pub fn entering_numbers_are_free()
    ensures { EnteringNumbersAreFree }
{}

/// A block that enters comes to rest in the book of its first hour, whole, with the moment of its
/// entry.
pub fn blocks_come_to_rest()
    ensures { BlocksComeToRest }
{}

/// What is withdrawn leaves the book of its hour; an order that is withdrawn never stood in it.
pub fn withdrawn_blocks_leave()
    ensures { WithdrawnBlocksLeave }
{}
