//! What is true of every well-formed history.

ghost use Rattle.laws_of_market.specs.Histories.{BlockLegsLowerBoth, JournalsAreHistories, LegsLowerBoth, NamesAreGivenOnce};
ghost use Rattle.laws_of_market.specs.Histories.{NothingFallsBelowZero, OrdersShowWhatIsLeft, RepliesKeepHistories};

/// Every reply keeps a history well-formed: names are given in order, orders and blocks that enter
/// are sound, legs are of open orders at the maker's price, for at least a lot and no more than both
/// show and each arc has room for; and open blocks are whole.
pub fn replies_keep_histories()
    ensures { RepliesKeepHistories }
{}

/// The history of every journal is well-formed.
pub fn journals_are_histories()
    ensures { JournalsAreHistories }
{}

/// What is left, filled and taken off of an order or block is together what was entered.
pub fn nothing_falls_below_zero()
    ensures { NothingFallsBelowZero }
{}

/// An open order shows at least a lot, and no more than is left of it.
pub fn orders_show_what_is_left()
    ensures { OrdersShowWhatIsLeft }
{}

/// A leg lowers what is left of both its orders by its lots.
pub fn legs_lower_both()
    ensures { LegsLowerBoth }
{}

/// A leg of blocks lowers what is left of both its blocks by its lots.
pub fn block_legs_lower_both()
    ensures { BlockLegsLowerBoth }
{}

/// A name is of one order or of one block.
pub fn names_are_given_once()
    ensures { NamesAreGivenOnce }
{}
