//! What is left of one order or block.

ghost use Rattle.std.specs.Prelude.{◌≡◌, ◌+◌, IfOk, IfSome, IsSome, OnOk};
ghost use Rattle.market_model.specs.Orders as orders;
ghost use Rattle.plain_orders.specs.Histories.{IsSomeHistory};
ghost use Rattle.plain_orders.specs.Tallies.{AreCurrent, AreSums, left_at};

use crate::tally::{OrderSums, Tally, sum_up};
use event_history::History;
use market_model::{Event, Leg, NoMemory, OrderName};
use std::alloc::Global;

/// How much is left of an order or block, in lots: what was entered, less what is filled and what
/// was taken off without a trade.
pub fn left(events: &History, name: OrderName) -> u32
    requires history { IsSomeHistory events.now }
    ensures { result ≡ orders.left events.now name }
{
    let mut left = 0;
    for event in events.near(name.hour) {
        left = left + entered_lots(event, name) - lost_lots(event, name);
    }
    left
}

/// The same, from the sums of the hour: they are made where there are none yet, or take in the events that
/// have come since, and stay for the next call.
///
/// # Errors
///
/// [`NoMemory`], where there is no memory for the sums of the hour.
pub fn left_over(
    alloc: Global,
    events: &History,
    sums: &mut Option<OrderSums>,
    name: OrderName,
) -> Result<u32, NoMemory>
    requires history { IsSomeHistory events.now }
    requires summed { IfSome sums.old (AreSums events.now name.hour) }
    ensures left { IfOk result (λ lots. lots ≡ orders.left events.now name) }
    ensures summed { IfSome sums.new (AreSums events.now name.hour) }
    ensures kept { OnOk result (IsSome sums.new) }
    ensures current { IfSome sums.new (AreCurrent events.now) }
{
    let summed = sum_up(alloc, events, name.hour, sums.take())?;
    let lots = left_in(summed.tallies.as_slice(), name.number);
    *sums = Some(summed);
    Ok(lots)
}

// What is left by the tallies of an hour of the order or block of a number: nothing where none has it.
fn left_in(tallies: &[Tally], number: u32) -> u32
    ensures { result ≡ left_at tallies.now number }
{
    match tallies.get(number as usize) {
        Some(tally) => tally.left,
        None => 0,
    }
}

// The lots with which an event enters the order or block of a name.
fn entered_lots(event: &Event, name: OrderName) -> u32
    ensures { result ≡ orders.entered_by name event.now }
{
    match event {
        Event::Entered {
            name: given,
            order,
            ..
        } if *given == name => order.quantity.0,
        Event::EnteredBlock {
            name: given,
            order,
            ..
        } if *given == name => order.quantity.0,
        _ => 0,
    }
}

// The lots that an event fills of the order or block of a name, or takes off it.
fn lost_lots(event: &Event, name: OrderName) -> u32
    ensures { result ≡ orders.filled_by name event.now + orders.taken_off_by name event.now }
{
    match event {
        Event::Leg { leg, .. } | Event::BlockLeg { leg, .. } if names(leg, name) => leg.lots,
        Event::Withdrawn { name: given, lots } if *given == name => *lots,
        Event::Reduced { name: given, by } if *given == name => *by,
        _ => 0,
    }
}

// Whether a leg is of an order or block.
fn names(leg: &Leg, name: OrderName) -> bool
    ensures { result ≡ orders.names leg.now name }
{
    leg.taker == name || leg.maker == name
}
