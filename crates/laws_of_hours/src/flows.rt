//! What the events of arcs, borders and the phase make of their hour.

ghost use Rattle.laws_of_hours.specs.FlowEvents.{FlowEventsLeaveTheBooks, GrantsFitTheFlows, HaltsFitTheFlows, OffersFitTheFlows, ResumptionsFitTheFlows};

/// An event of an arc, a border or the phase leaves the books of its hour.
pub fn flow_events_leave_the_books()
    ensures { FlowEventsLeaveTheBooks }
{}

/// What is granted next in an hour can be granted in its flows.
pub fn grants_fit_the_flows()
    ensures { GrantsFitTheFlows }
{}

/// What is offered next in an hour can be offered in its flows.
pub fn offers_fit_the_flows()
    ensures { OffersFitTheFlows }
{}

/// A border that is halted next in an hour is one of its flows.
pub fn halts_fit_the_flows()
    ensures { HaltsFitTheFlows }
{}

/// So is a border that is resumed.
pub fn resumptions_fit_the_flows()
    ensures { ResumptionsFitTheFlows }
{}
