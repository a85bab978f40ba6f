//! Who is traded with first.

ghost use Rattle.laws_of_market.specs.QueueOrder.{NoneIsPassedOver, RepliesPassNoneOver, RestingOrdersTradeFirstBuyFirst};
ghost use Rattle.laws_of_market.specs.QueueOrder.{SweepsBeginWithTheFirstBuy, TakingsPassNoneOver};

/// Each leg of a taking is in its turn: no open order that goes before the maker in its line can
/// trade with the taker, and the price is the maker's, no worse for the taker than its own.
pub fn takings_pass_none_over()
    ensures { TakingsPassNoneOver }
{}

/// Each leg of a sweep is in its turn, and no buy that goes before the one that trades has a partner.
pub fn sweeps_begin_with_the_first_buy()
    ensures { SweepsBeginWithTheFirstBuy }
{}

/// Each leg of a reply after a well-formed history is in its turn.
pub fn replies_pass_none_over()
    ensures { RepliesPassNoneOver }
{}

/// Where the taker of a leg of a reply was there before the command, no buy that goes before the one
/// that trades has a partner.
pub fn resting_orders_trade_first_buy_first()
    ensures { RestingOrdersTradeFirstBuyFirst }
{}

/// Each leg of a journal is in its turn, at its place there.
pub fn none_is_passed_over()
    ensures { NoneIsPassedOver }
{}
