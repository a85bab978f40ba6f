//! Names.

ghost use Rattle.std.specs.Prelude.{◌≡◌, ◌-◌, ◌^◌, ◌<◌, IfOk, IfSome, IsSome, OnOk, count_by};
ghost use Rattle.market_model.specs.History.{enters_in};
ghost use Rattle.market_model.specs.Orders as orders;
ghost use Rattle.plain_orders.specs.Histories.{IsSomeHistory};
ghost use Rattle.plain_orders.specs.Tallies.{AreCurrent, AreSums};

use crate::tally::{OrderSums, entered_in, sum_up};
use event_history::History;
use market_model::{NoMemory, OrderName};
use std::alloc::Global;

/// The name of the next order or block that enters by an hour: they are numbered from 1.
pub fn next_name(events: &History, hour: u32) -> OrderName
    requires few { count_by (enters_in hour) events.now < 2 ^ 32 - 1 }
    ensures { result ≡ orders.next_name events.now hour }
{
    OrderName {
        hour,
        number: entered_in(events, hour) as u32 + 1,
    }
}

/// The same name, from the sums of the hour: they are made where there are none yet, or take in the
/// events that have come since, and stay for the next call.
///
/// # Errors
///
/// [`NoMemory`], where there is no memory for the sums of the hour.
pub fn next_name_over(
    alloc: Global,
    events: &History,
    sums: &mut Option<OrderSums>,
    hour: u32,
) -> Result<OrderName, NoMemory>
    requires history { IsSomeHistory events.now }
    requires few { count_by (enters_in hour) events.now < 2 ^ 32 - 1 }
    requires summed { IfSome sums.old (AreSums events.now hour) }
    ensures name { IfOk result (λ name. name ≡ orders.next_name events.now hour) }
    ensures summed { IfSome sums.new (AreSums events.now hour) }
    ensures kept { OnOk result (IsSome sums.new) }
    ensures current { IfSome sums.new (AreCurrent events.now) }
{
    let summed = sum_up(alloc, events, hour, sums.take())?;
    let number = summed.tallies.len() as u32;
    *sums = Some(summed);
    Ok(OrderName { hour, number })
}
