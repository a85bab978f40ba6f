//! Laws of what events change: theorems about the definitions, the contracts of functions that do nothing.

ghost use Rattle.laws_of_views.specs.Changes.{ChangesOfAnHourStayWithin, ChangesStayWithin, DifferencesJoin, DifferencesWiden, EventsStayWithin, NamedOrdersHaveTheZones, OrdersChangeInTheirZones, OtherEventsChangeNoOrders, ZonesOfEventsAreOfTheGrid};

/// An event leaves the orders of a contract and side as they are seen, but for those in the zones of the
/// orders of that contract and side that it names.
pub fn orders_change_in_their_zones()
    ensures { OrdersChangeInTheirZones }
{}

/// An event that names no order has no such zones.
pub fn other_events_change_no_orders()
    ensures { OtherEventsChangeNoOrders }
{}

/// The zones of an event are those of the orders that it names, whichever orders with these names entered.
pub fn named_orders_have_the_zones()
    ensures { NamedOrdersHaveTheZones }
{}

/// Before and after an event the two lists differ within its zones and both ends of each arc whose room it
/// changes.
pub fn events_stay_within()
    ensures { EventsStayWithin }
{}

/// Lists that differ in some zones alone differ in more zones alone.
pub fn differences_widen()
    ensures { DifferencesWiden }
{}

/// Where two lists differ in some zones, and the second and a third in others, the first and the third
/// differ in all these zones alone.
pub fn differences_join()
    ensures { DifferencesJoin }
{}

/// Before and after several events the two lists differ within the zones of these events and both ends of
/// each arc whose room is another one afterwards.
pub fn changes_stay_within()
    ensures { ChangesStayWithin }
{}

/// So they do where the events are those of an hour alone.
pub fn changes_of_an_hour_stay_within()
    ensures { ChangesOfAnHourStayWithin }
{}

/// The zones of an hour's events are zones of the grid.
pub fn zones_of_events_are_of_the_grid()
    ensures { ZonesOfEventsAreOfTheGrid }
{}
