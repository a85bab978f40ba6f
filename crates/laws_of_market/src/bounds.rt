//! What bounds every well-formed history.

ghost use Rattle.laws_of_market.specs.Bounds.{CapacityAddsUp, FewAreOpen, HoursGoOnAlone, LittleIsLeft};
ghost use Rattle.laws_of_market.specs.Bounds.{MomentsDiffer, PricesStayInRange, RepliesLeaveFewOpen, TradesAndWithdrawalsAloneClose};

/// What is left of an order or block is at most 9990 lots, 999.0 MW.
pub fn little_is_left()
    ensures { LittleIsLeft }
{}

/// An event after which an order or block is open no more, and was before, is a leg of it or takes
/// off what is left of it.
pub fn trades_and_withdrawals_alone_close()
    ensures { TradesAndWithdrawalsAloneClose }
{}

/// Two orders of one contract and side have different moments, so that priority by time settles
/// which of them is first.
pub fn moments_differ()
    ensures { MomentsDiffer }
{}

/// While something of an order is left to fill its price is in range: each peak of an iceberg shows
/// at an allowed price.
pub fn prices_stay_in_range()
    ensures { PricesStayInRange }
{}

/// A reply after a well-formed history leaves at most 4096 orders and blocks open that are named by
/// an hour, where no more were.
pub fn replies_leave_few_open()
    ensures { RepliesLeaveFewOpen }
{}

/// After every entry of a journal at most 4096 orders and blocks are open that are named by an hour.
pub fn few_are_open()
    ensures { FewAreOpen }
{}

/// The events of an hour after a reply are those before it and the reply's events of that hour.
pub fn hours_go_on_alone()
    ensures { HoursGoOnAlone }
{}

/// What is allocated on an arc in a quarter and what remains there are together what is offered and
/// what is allocated on the opposite arc.
pub fn capacity_adds_up()
    ensures { CapacityAddsUp }
{}
