//! What each event makes of the book of an hour. Each law holds after events of which each fits
//! those before it, as after every first part of a well-formed history.

ghost use Rattle.laws_of_books.specs.BookLaws.{EntriesComeToRest, LegsFillBoth, LegsFillTheMaker, OtherEventsLeaveTheBook};
ghost use Rattle.laws_of_books.specs.BookLaws.{ReductionsLessen, WithdrawalsTakeOut};

/// An event that is nothing to the orders of an hour leaves the hour's book as it was: no order of
/// the hour enters or trades, and what is withdrawn or reduced is of another hour or a block.
pub fn other_events_leave_the_book()
    ensures { OtherEventsLeaveTheBook }
{}

/// An order that enters comes to rest in the book of its contract's hour, whole, with the moment of
/// its entry.
pub fn entries_come_to_rest()
    ensures { EntriesComeToRest }
{}

/// What is withdrawn leaves the book of its hour; a block that is withdrawn never stood in it.
pub fn withdrawals_take_out()
    ensures { WithdrawalsTakeOut }
{}

/// An order that is reduced has so many lots less in the book of its hour, and keeps its place.
pub fn reductions_lessen()
    ensures { ReductionsLessen }
{}

/// A leg fills its maker and then its taker in the book of its contract's hour. A peak that follows
/// one that the leg empties has the moment of the leg.
pub fn legs_fill_both()
    ensures { LegsFillBoth }
{}

/// In a book without the taker a leg fills the maker alone.
pub fn legs_fill_the_maker()
    ensures { LegsFillTheMaker }
{}
