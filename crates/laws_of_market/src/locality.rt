//! What a reply depends on.

ghost use Rattle.laws_of_market.specs.Locality.{RepliesStayWithin, TouchedHoursDecide};
ghost use Rattle.market_model.specs.Concerned.{JournalsKeepToTheirHours};
ghost use Rattle.market_model.specs.HistoryLaws.{EventsStayInTheirHours, RepliesAreLocal};

/// Two well-formed histories with the same events of the hours that a command touches, in order,
/// give it the same reply.
pub fn touched_hours_decide()
    ensures { TouchedHoursDecide }
{}

/// After a well-formed history no event of the reply to a command touches an hour that the command
/// does not.
pub fn replies_stay_within()
    ensures { RepliesStayWithin }
{}

/// The reply to a command depends on the events of the hours that it touches alone: it is the same
/// after two journals whose events of these hours are the same.
pub fn replies_are_local()
    ensures { RepliesAreLocal }
{}

/// The reply to a command brings about no event that touches another hour.
pub fn events_stay_in_their_hours()
    ensures { EventsStayInTheirHours }
{}

/// No entry of a journal has an event of an hour that its command does not touch.
pub fn journals_keep_to_their_hours()
    ensures { JournalsKeepToTheirHours }
{}
