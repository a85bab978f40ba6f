//! What the book and the rooms of an hour tell of a certificate: theorems about the definitions, the
//! contracts of functions that do nothing.

ghost use Rattle.desk_entering.specs.CertificateLaws.{BoundsAreThoseOfTheLine, EntriesLeaveTheBound, RecordsTellWhatCrosses, RoomsOfEventsFit};

/// What crosses of the records of the line opposite to an order is what crosses of that line.
pub fn records_tell_what_crosses()
    ensures { RecordsTellWhatCrosses }
{}

/// Where a book has the line opposite to an order, and the rooms are those of its contract, the bound is
/// what crosses of the market's line inside the zones, and the market's room across their borders.
pub fn bounds_are_those_of_the_line()
    ensures { BoundsAreThoseOfTheLine }
{}

/// The entry of an order that fits changes neither the opposite line nor the rooms: the bound before it
/// is the one as the order's taking starts.
pub fn entries_leave_the_bound()
    ensures { EntriesLeaveTheBound }
{}

/// Rooms that are those of events of which each fits those before it are no more than a bound asks.
pub fn rooms_of_events_fit()
    ensures { RoomsOfEventsFit }
{}
