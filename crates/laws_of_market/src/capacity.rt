//! The capacity of borders is never oversold.

ghost use Rattle.laws_of_market.specs.CapacityLaws.{OffersCoverTheFlow, RepliesLeaveCapacity, RepliesOversellNothing};
ghost use Rattle.market_model.specs.HistoryLaws.{CapacityRemains, NothingIsOversold};

/// A reply after a well-formed history leaves from nothing to 200000.0 MW on each arc in each
/// quarter.
pub fn replies_leave_capacity()
    ensures { RepliesLeaveCapacity }
{}

/// Each leg and grant of a reply after a well-formed history uses no more of an arc in a quarter
/// than remained there just before it.
pub fn replies_oversell_nothing()
    ensures { RepliesOversellNothing }
{}

/// An offer that is let in is in no quarter below what flows there.
pub fn offers_cover_the_flow()
    ensures { OffersCoverTheFlow }
{}

/// After every entry of a journal something from nothing to 200000.0 MW remains on each arc in each
/// quarter: what is offered, less what flows.
pub fn capacity_remains()
    ensures { CapacityRemains }
{}

/// Each leg, leg of blocks and grant uses no more of an arc in a quarter than remained there just
/// before it.
pub fn nothing_is_oversold()
    ensures { NothingIsOversold }
{}
