//! Baskets: each order in an hour of its own.

ghost use Rattle.laws_of_joint_commands.specs.Baskets.{BasketsAreDoneHourByHour, BasketsAreRefusedHourByHour, OrdersEnterHourByHour, OrdersHaveTheirHours, OrdersLeaveOtherHours};

/// Orders whose hours ascend, entered one after the other, are each entered after the events of its own hour.
pub fn orders_enter_hour_by_hour()
    ensures { OrdersEnterHourByHour }
{}

/// The hour of each of them has of this what the order does itself.
pub fn orders_have_their_hours()
    ensures { OrdersHaveTheirHours }
{}

/// Any other hour has nothing of it.
pub fn orders_leave_other_hours()
    ensures { OrdersLeaveOtherHours }
{}

/// So is the reply to a basket that no rule refuses.
pub fn baskets_are_done_hour_by_hour()
    ensures { BasketsAreDoneHourByHour }
{}

/// A basket is refused by the first of its orders that is not filled after the events of its own hour.
pub fn baskets_are_refused_hour_by_hour()
    ensures { BasketsAreRefusedHourByHour }
{}
