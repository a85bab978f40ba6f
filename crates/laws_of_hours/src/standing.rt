//! Flows that stand for a list of events.

ghost use Rattle.laws_of_hours.specs.FlowLaws.{FlowsBeginIdle, HoursHaveTheirFlows, RemainingIsTheMarkets, RoomsAreTheMarkets};

/// The room of an arc over the quarters of a contract is the one that the events leave.
pub fn rooms_are_the_markets()
    ensures { RoomsAreTheMarkets }
{}

/// What remains on an arc in a quarter is what the events leave.
pub fn remaining_is_the_markets()
    ensures { RemainingIsTheMarkets }
{}

/// The flows of an hour before its first command stand for no event.
pub fn flows_begin_idle()
    ensures { FlowsBeginIdle }
{}

/// Flows that stand for the events of a history stand for those of the hour alone, and the other way
/// round.
pub fn hours_have_their_flows()
    ensures { HoursHaveTheirFlows }
{}
