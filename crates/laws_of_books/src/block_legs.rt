//! What one leg of two blocks makes of the book of their hour.

ghost use Rattle.laws_of_books.specs.LegLaws.{ClosedBlocksAreGone, LegsLeaveTheOtherBlocks};

/// A leg of two blocks leaves all others that start in their hour as they were.
pub fn legs_leave_the_other_blocks()
    ensures { LegsLeaveTheOtherBlocks }
{}

/// A block of which nothing is left rests in no book.
pub fn closed_blocks_are_gone()
    ensures { ClosedBlocksAreGone }
{}
