//! What the events of orders make of their hour.

ghost use Rattle.laws_of_hours.specs.OrderEvents.{ClosedOrdersAreGone, LegsAreMade, OrdersEnterInHand, ReductionsAreMade, WithdrawalsAreMade};

/// An order that enters is in hand: without it the book of the hour is as before, its blocks and flows
/// are as before, and no more rest than before.
pub fn orders_enter_in_hand()
    ensures { OrdersEnterInHand }
{}

/// A leg fills its maker and then its taker in a book in which the order in hand does not rest, leaves the
/// one of the two that is in hand out, and has its lots carried over its route.
pub fn legs_are_made()
    ensures { LegsAreMade }
{}

/// An order of which nothing is left rests in no book of its hour.
pub fn closed_orders_are_gone()
    ensures { ClosedOrdersAreGone }
{}

/// What is withdrawn leaves the books of its hour, and the order in hand needs no change of a book.
pub fn withdrawals_are_made()
    ensures { WithdrawalsAreMade }
{}

/// An order that is reduced rests in the book of its hour, hides nothing, and has so many lots less then.
pub fn reductions_are_made()
    ensures { ReductionsAreMade }
{}
