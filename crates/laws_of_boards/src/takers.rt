//! How an order takes on a board: theorems about the definitions, the contracts of functions that do
//! nothing.

ghost use Rattle.laws_of_boards.specs.Takers.{BoardTakersPassForGood, BoardTakingsObtainTheMost, LegsStayBehind};

/// Whom a taker of the hour cannot trade with before its next leg, it cannot trade with after it.
pub fn board_takers_pass_for_good()
    ensures { BoardTakersPassForGood }
{}

/// A next leg leaves the opposite line in front of its maker: these orders stand as they stood, and no
/// more are behind them than before.
pub fn legs_stay_behind()
    ensures { LegsStayBehind }
{}

/// Where the events of an hour end with the entry of an order, what it obtains is its whole quantity, or
/// exactly the bound of the zones that are still in reach when its taking ends, and no flow plan for it is
/// worth more, unless it is filled. Of an iceberg this holds where its peaks are all at one price.
pub fn board_takings_obtain_the_most()
    ensures { BoardTakingsObtainTheMost }
{}
