//! What bounds every flow plan.

ghost use Rattle.laws_of_maximum.specs.FlowPlan.{NoPlanBeatsABound, NoPlanBeatsTheBound};

/// However lots may be made to flow from orders to a taker's zone, over whatever routes and in
/// whatever parts, they are no more than the bound of any set of zones that has the taker's.
pub fn no_plan_beats_a_bound()
    ensures { NoPlanBeatsABound }
{}

/// After events of which each fits those before it no flow plan for an order that enters is worth more
/// than the bound of any set of zones that has its zone.
pub fn no_plan_beats_the_bound()
    ensures { NoPlanBeatsTheBound }
{}
