//! What an event of a legal history changes can be changed in the flows of an hour.

ghost use Rattle.laws_of_hours.specs.CallLaws.{BlockLegsCanBeCarried, GrantsCanBeMade, LegsCanBeCarried, OffersCanBeMade};

/// The lots of a leg can be carried over its route in the quarters of its contract.
pub fn legs_can_be_carried()
    ensures { LegsCanBeCarried }
{}

/// The lots of a leg of blocks can be carried over its route in all quarters of each hour of the
/// period.
pub fn block_legs_can_be_carried()
    ensures { BlockLegsCanBeCarried }
{}

/// The lots of a grant can be granted on its arc in each quarter of its range that is in the hour.
pub fn grants_can_be_made()
    ensures { GrantsCanBeMade }
{}

/// The lots of an offer can be offered on its arc in each quarter of its range that is in the hour, and
/// none of these offers is below what flows.
pub fn offers_can_be_made()
    ensures { OffersCanBeMade }
{}
