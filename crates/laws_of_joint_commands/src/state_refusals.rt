//! The rules on the state of orders, hours and capacity.

ghost use Rattle.laws_of_joint_commands.specs.StateRefusals.{HoursAreClosedByThemselves, OffersAreRefusedHourByHour, RequestsAreRefusedHourByHour, StateRefusesHourByHour};

/// The first closed hour of those that a command concerns is the first whose own events closed it.
pub fn hours_are_closed_by_themselves()
    ensures { HoursAreClosedByThemselves }
{}

/// An offer is refused by the first hour of its range that refuses it, by the hour's own events and for those
/// of its quarters that are in the range.
pub fn offers_are_refused_hour_by_hour()
    ensures { OffersAreRefusedHourByHour }
{}

/// So is a request.
pub fn requests_are_refused_hour_by_hour()
    ensures { RequestsAreRefusedHourByHour }
{}

/// So the rules on the state refuse a command as the own events of the hours tell that it concerns.
pub fn state_refuses_hour_by_hour()
    ensures { StateRefusesHourByHour }
{}
