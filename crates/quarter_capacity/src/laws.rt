//! Laws of capacity: theorems about the definitions, each the contract of a function that does
//! nothing.

ghost use Rattle.quarter_capacity.specs.CapacityLaws.{FlowsAreOpposite, OffersKeepTheFlow, OppositeFlowsNet, TakingMovesTheFlow};

/// What is allocated on an arc and what remains there is together what is offered there and what
/// is allocated on the opposite arc.
pub fn opposite_flows_net()
    ensures { OppositeFlowsNet }
{}

/// What flows over an arc flows over the opposite one with the other sign.
pub fn flows_are_opposite()
    ensures { FlowsAreOpposite }
{}

/// An offer is what is then offered in its direction, and changes neither what is offered in the
/// opposite direction nor any flow.
pub fn offers_keep_the_flow()
    ensures { OffersKeepTheFlow }
{}

/// What is taken in a direction flows there besides, remains there no more, remains besides in the
/// opposite direction, and changes nothing that is offered.
pub fn taking_moves_the_flow()
    ensures { TakingMovesTheFlow }
{}
