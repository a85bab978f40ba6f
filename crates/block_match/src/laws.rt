//! Laws of the deals of blocks: theorems about the definitions, the contracts of functions that do
//! nothing.

ghost use Rattle.block_match.specs.Market.{EnteringBlocksDealAsInTheMarket, OpenBlocksDealAsInTheMarket, PeriodsDealAsInTheMarket};

/// After a well-formed history an open block finds, in the book of the open blocks that start in its
/// first hour and within the rooms of its period, the partner that the market finds for it; and the
/// legs of its deal are those of the market's pour between the two, event by event.
pub fn open_blocks_deal_as_in_the_market()
    ensures { OpenBlocksDealAsInTheMarket }
{}

/// So does a block that enters, in the book and within the rooms as they were before it entered.
pub fn entering_blocks_deal_as_in_the_market()
    ensures { EnteringBlocksDealAsInTheMarket }
{}

/// After a well-formed history the next deal of a period is the market's, event by event, and there is
/// none exactly where the market has none.
pub fn periods_deal_as_in_the_market()
    ensures { PeriodsDealAsInTheMarket }
{}
