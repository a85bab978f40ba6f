//! What was summed up of an hour.

ghost use Rattle.std.specs.Prelude.{◌≡◌, ℕ, List, None, IfOk, IfSome, IsSome, OnOk};
ghost use Rattle.market_model.specs.declared.event.Event.{Event as TheEvent};
ghost use Rattle.zone_graph.specs.Graph.{Graph};
ghost use Rattle.plain_orders.specs.Histories.{IsSomeHistory};
ghost use Rattle.plain_orders.specs.Listed.{open_orders};
ghost use Rattle.plain_orders.specs.Tallies.{AreCurrent, AreSums};
ghost use Rattle.plain_matching.specs.Summed.{AreHourSums, AreListed, WereOpen};

use event_history::History;
use market_model::NoMemory;
use plain_capacity::CapacitySums;
use plain_orders::{OrderSums, StandingOrder, open_orders_over, sum_orders};
use std::alloc::Global;

/// What was summed up of one hour while a command is answered: of its orders, and of its capacity. What
/// is asked next takes in the events that have come since, and need not sum up all of them again.
#[derive(Debug, Drop)]
pub struct HourSums {
    /// Of its orders, if they were.
    pub orders: Option<OrderSums>,
    /// Of its capacity, if it was.
    pub capacity: Option<CapacitySums>,
    // Its open orders, if they were listed.
    pub(crate) listed: Option<OpenOrders>,
}

/// The open orders of an hour, as they stood after the first events of a history.
#[derive(Debug, Drop)]
pub(crate) struct OpenOrders {
    /// The orders, in order of entry.
    pub(crate) orders: Vec<StandingOrder>,
    // After how many events they stood so.
    count: usize,
}

impl HourSums {
    /// Nothing was summed up.
    pub fn none() -> HourSums
        ensures { (graph : Graph) (events : List TheEvent) (hour : ℕ) → AreHourSums graph events hour result }
    {
        HourSums::of(None)
    }

    /// Nothing was summed up but the orders, if they were.
    pub fn of(orders: Option<OrderSums>) -> HourSums
        ensures summed { (graph : Graph) (events : List TheEvent) (hour : ℕ) → IfSome orders (AreSums events hour) → AreHourSums graph events hour result }
        ensures orders { result.orders ≡ orders }
        ensures capacity { result.capacity ≡ None }
    {
        HourSums {
            orders,
            capacity: None,
            listed: None,
        }
    }

    /// Takes out the open orders of the hour: those that were listed, if no event has come since, or else
    /// listed anew. The sums of the orders are brought up to all events.
    ///
    /// # Errors
    ///
    /// [`NoMemory`], where there is no memory for the sums of the hour or for the list.
    pub(crate) fn list_orders(
        &mut self,
        alloc: Global,
        events: &History,
        hour: u32,
    ) -> Result<OpenOrders, NoMemory>
        requires history { IsSomeHistory events.now }
        requires summed { IfSome self.old.orders (AreSums events.now hour) }
        requires listed { AreListed events.now hour self.old.listed }
        ensures orders { IfOk result (λ made. made.orders.items ≡ open_orders events.now hour) }
        ensures made { IfOk result (WereOpen events.now hour) }
        ensures summed { IfSome self.new.orders (AreSums events.now hour) }
        ensures kept { OnOk result (IsSome self.new.orders) }
        ensures current { IfSome self.new.orders (AreCurrent events.now) }
        ensures capacity { self.new.capacity ≡ self.old.capacity }
        ensures listed { AreListed events.now hour self.new.listed }
    {
        sum_orders(alloc, events, &mut self.orders, hour)?;
        match self.listed.take() {
            Some(listed) if listed.count == events.len() => Ok(listed),
            _ => list_anew(alloc, events, &mut self.orders, hour),
        }
    }
}

// The open orders of an hour as they stand after all events.
fn list_anew(
    alloc: Global,
    events: &History,
    sums: &mut Option<OrderSums>,
    hour: u32,
) -> Result<OpenOrders, NoMemory>
    requires history { IsSomeHistory events.now }
    requires summed { IfSome sums.old (AreSums events.now hour) }
    ensures orders { IfOk result (λ made. made.orders.items ≡ open_orders events.now hour) }
    ensures made { IfOk result (WereOpen events.now hour) }
    ensures summed { IfSome sums.new (AreSums events.now hour) }
    ensures kept { OnOk result (IsSome sums.new) }
    ensures current { IfSome sums.new (AreCurrent events.now) }
{
    let orders = open_orders_over(alloc, events, sums, hour)?;
    Ok(OpenOrders {
        orders,
        count: events.len(),
    })
}
