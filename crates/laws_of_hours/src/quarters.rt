//! What is granted and offered in a range of quarters, one quarter after the other.

ghost use Rattle.laws_of_hours.specs.FlowLaws.{NothingIsCarried, NothingIsOffered, QuartersAreCarriedInTurn, QuartersAreOfferedInTurn};

/// Flows are those with any lots carried in no quarter.
pub fn nothing_is_carried()
    ensures { NothingIsCarried }
{}

/// Lots that are carried in some quarters, and then in one more, are carried in all of these.
pub fn quarters_are_carried_in_turn()
    ensures { QuartersAreCarriedInTurn }
{}

/// Flows are those with any lots offered in no quarter.
pub fn nothing_is_offered()
    ensures { NothingIsOffered }
{}

/// Lots that are offered in some quarters, and then in one more, are offered in all of these.
pub fn quarters_are_offered_in_turn()
    ensures { QuartersAreOfferedInTurn }
{}
