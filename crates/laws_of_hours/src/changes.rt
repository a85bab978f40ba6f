//! What each event makes of the flows of an hour.

ghost use Rattle.laws_of_hours.specs.FlowLaws.{BlockLegsStand, GatesStand, GrantsStand, HaltsStand, LegsStand, OffersStand, OtherEventsLeaveTheFlows, ResumptionsStand};

/// An event that does not touch the hour leaves its flows, and so do entries, withdrawals and
/// reductions of any hour.
pub fn other_events_leave_the_flows()
    ensures { OtherEventsLeaveTheFlows }
{}

/// After a leg of orders the flows are those with its lots carried over its route in the quarters of
/// its contract.
pub fn legs_stand()
    ensures { LegsStand }
{}

/// After a leg of blocks the flows of each hour of the period are those with its lots carried over
/// its route in all four quarters.
pub fn block_legs_stand()
    ensures { BlockLegsStand }
{}

/// After a grant the flows are those with its lots granted in each quarter of its range that is in the
/// hour.
pub fn grants_stand()
    ensures { GrantsStand }
{}

/// After an offer the flows are those with its lots offered in each quarter of its range that is in the
/// hour.
pub fn offers_stand()
    ensures { OffersStand }
{}

/// After a halt the flows of each of its hours are those with the border halted.
pub fn halts_stand()
    ensures { HaltsStand }
{}

/// After a resumption the flows of each of its hours are those with trade over the border going on.
pub fn resumptions_stand()
    ensures { ResumptionsStand }
{}

/// After a gate the flows of its hour are those with its phase.
pub fn gates_stand()
    ensures { GatesStand }
{}
