//! Laws of lines: theorems about the definitions, the contracts of functions that do nothing.

ghost use Rattle.laws_of_boards.specs.Fronts.{FirstBuysDecide, PartnersStandInFront, UncrossedContractsHaveNoLeg, UnopenedContractsHaveNoLeg};

/// The partner of an order is found among the first orders of each zone in the opposite line: an order
/// behind another of its zone can only do worse.
pub fn partners_stand_in_front()
    ensures { PartnersStandInFront }
{}

/// The leg of a contract in a sweep is found among the first buys of each zone, each of which looks at
/// the first sells of each zone.
pub fn first_buys_decide()
    ensures { FirstBuysDecide }
{}

/// A contract whose best buy and best sell do not cross, or that lacks one of them, has no leg in a
/// sweep.
pub fn uncrossed_contracts_have_no_leg()
    ensures { UncrossedContractsHaveNoLeg }
{}

/// A contract that had no leg in a sweep has none later either, where each of its orders stands in for one
/// that was there before, of its zone and at no worse a price, and no arc got its first room.
pub fn unopened_contracts_have_no_leg()
    ensures { UnopenedContractsHaveNoLeg }
{}
