//! What is left to trade.

ghost use Rattle.market_model.specs.HistoryLaws.{NothingLeftToTrade};
ghost use Rattle.laws_of_market.specs.UncrossedBook.{ReductionsEnableNoTrade, RepliesKeepBooksUncrossed, WithdrawalsEnableNoTrade};

/// A reply after a well-formed history leaves no two open orders of one contract that can trade,
/// where there were none before.
pub fn replies_keep_books_uncrossed()
    ensures { RepliesKeepBooksUncrossed }
{}

/// After every entry of a journal no two open orders of one contract can trade: where their prices
/// cross, no route leads from the seller's zone to the buyer's.
pub fn nothing_is_left_to_trade()
    ensures { NothingLeftToTrade }
{}

/// A withdrawal enables no two orders to trade, so that no sweep need follow it.
pub fn withdrawals_enable_no_trade()
    ensures { WithdrawalsEnableNoTrade }
{}

/// A reduction enables no two orders to trade, so that no sweep need follow it.
pub fn reductions_enable_no_trade()
    ensures { ReductionsEnableNoTrade }
{}
