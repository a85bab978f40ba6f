//! What an order obtains as it enters.

ghost use Rattle.laws_of_maximum.specs.Takings.{TakingsObtainTheMost, TakingsReachTheirBound};

/// After events of which each fits those before it, what an order obtains of the resting orders as it
/// enters is its whole quantity, or exactly the bound of the zones that are still in reach when its
/// taking ends.
/// Of an iceberg this holds where its peaks are all at one price.
pub fn takings_reach_their_bound()
    ensures { TakingsReachTheirBound }
{}

/// So no flow plan for it is worth more than what it obtains, unless it is filled.
pub fn takings_obtain_the_most()
    ensures { TakingsObtainTheMost }
{}
