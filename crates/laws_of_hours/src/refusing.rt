//! Offers and requests that flows refuse as the market does.

ghost use Rattle.laws_of_hours.specs.Refusing.{OneHourRefusesOffersAlike, OneHourRefusesRequestsAlike, QuarterFlowsAreTheMarkets, QuarterRoomsAreTheMarkets, RangesRefuseOffersHourByHour, RangesRefuseRequestsHourByHour};

/// What flows over an arc in a quarter is what the events let flow.
pub fn quarter_flows_are_the_markets()
    ensures { QuarterFlowsAreTheMarkets }
{}

/// The room of an arc in a quarter is the one that the events leave.
pub fn quarter_rooms_are_the_markets()
    ensures { QuarterRoomsAreTheMarkets }
{}

/// An offer for quarters of one hour is refused as the test of the hour's flows answers: by the first
/// quarter in which more flows, with what flows there, or not at all.
pub fn one_hour_refuses_offers_alike()
    ensures { OneHourRefusesOffersAlike }
{}

/// A request for quarters of one hour is refused as the test of the hour's flows answers: by the first
/// quarter in which there is less room, with its room, or not at all.
pub fn one_hour_refuses_requests_alike()
    ensures { OneHourRefusesRequestsAlike }
{}

/// An offer for the quarters of a range is refused as the first of its hours refuses it whose flows do.
pub fn ranges_refuse_offers_hour_by_hour()
    ensures { RangesRefuseOffersHourByHour }
{}

/// A request for the quarters of a range is refused as the first of its hours refuses it whose flows do.
pub fn ranges_refuse_requests_hour_by_hour()
    ensures { RangesRefuseRequestsHourByHour }
{}
