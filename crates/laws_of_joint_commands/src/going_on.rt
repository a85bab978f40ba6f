//! How a history goes on in each of its hours.

ghost use Rattle.laws_of_joint_commands.specs.GoingOn.{FittingEventsGoOnInHours, RepliesGoOnInHours};

/// Where a history goes on with events that fit, each hour goes on with those of them that touch it, one after
/// the other.
pub fn fitting_events_go_on_in_hours()
    ensures { FittingEventsGoOnInHours }
{}

/// So each hour goes on with what it has of a reply to a command of any hours.
pub fn replies_go_on_in_hours()
    ensures { RepliesGoOnInHours }
{}
