//! An order that enters.

ghost use Rattle.std.specs.Prelude.{◌≡◌, ◌-◌, ◌<◌, ◌^◌, [], ◌∷◌, ◌++◌, Ok, None, IfOk, IfSome, OnOk, OnErr, count_by};
ghost use Rattle.market_model.specs.Entering as market;
ghost use Rattle.market_model.specs.History.{entered_count, enters_in};
ghost use Rattle.market_model.specs.Orders as orders;
ghost use Rattle.market_model.specs.Rules.{first_broken};
ghost use Rattle.market_model.specs.Sweep as sweeping;
ghost use Rattle.market_model.specs.declared.command.Command.TheVariants as command;
ghost use Rattle.market_model.specs.WellFormed.{IsLegalOver};
ghost use Rattle.market_model.specs.StateRules.{filling_rules};
ghost use Rattle.plain_market.specs.Entering.{CanEnter, StaysWhereRefused};
ghost use Rattle.plain_matching.specs.Grown.{Grew};
ghost use Rattle.plain_matching.specs.Summed.{AreHourSums};
ghost use Rattle.plain_orders.specs.DaySums.{AreDaySums};
ghost use Rattle.plain_orders.specs.Histories.{IsSomeHistory};
ghost use Rattle.plain_orders.specs.Tallies.{AreSums};

use crate::judging::refusal_after;
use event_history::History;
use market_model::{Event, Kind, NoMemory, Order, OrderName, Refusal};
use plain_matching::{HourSums, cut_back, sweep, take};
use plain_orders::{DaySums, OrderSums, left_over, next_name_over};
use std::alloc::Global;
use zone_graph::Grid;

/// Enters an order, unless it is to be filled wholly and cannot be, or what would rest of it has no
/// room on the desk: its entry, the legs that it takes, the withdrawal of an immediate-or-cancel
/// order's rest and the sweep of its hour go to the end of the events. Answers why it is refused; the
/// events are then as before. The sums that are kept of its hour take in the events that have come since,
/// and are kept again if the order is not refused; those of a refused order are of events that are gone.
///
/// # Errors
///
/// [`NoMemory`], where there is no memory for an event, or for what the next leg or the refusal is
/// made from: some of the order's events may then stand behind the others.
pub(crate) fn enter(
    alloc: Global,
    grid: &Grid,
    events: &mut History,
    kept: &mut DaySums,
    caller: u32,
    order: &Order,
) -> Result<Option<Refusal>, NoMemory>
    requires can { CanEnter grid.now events.old caller (order.now ∷ []) }
    requires few { entered_count events.old < 2 ^ 32 - 1 }
    requires summed { AreDaySums events.old kept.old }
    ensures refusal { IfOk result (λ refusal. refusal ≡ first_broken (filling_rules grid.now events.old caller (command.Enter order.now))) }
    ensures entered { result ≡ Ok None → events.new ≡ events.old ++ market.enter sweeping.all_parts grid.now caller order.now events.old }
    ensures kept { StaysWhereRefused result events.old events.new }
    ensures err { OnErr result (Grew events.old events.new) }
    ensures summed { AreDaySums events.new kept.new }
{
    let before = events.as_slice().len();
    let hour = order.contract.hour;
    let mut sums = HourSums::of(kept.take(hour));
    let name = enter_and_take(alloc, grid, events, &mut sums, caller, order)?;
    match refusal_after(alloc, grid, events, &mut sums, before + 1, name, order)? {
        Some(refusal) => {
            cut_back(events, before);
            Ok(Some(refusal))
        }
        None => {
            finish(alloc, grid, events, &mut sums, name, order)?;
            kept.put(hour, sums.orders.take());
            Ok(None)
        }
    }
}

/// Enters an order that no rule refuses.
///
/// # Errors
///
/// [`NoMemory`], where there is no memory for an event or for what the next leg is made from: some of
/// the order's events may then stand behind the others.
pub(crate) fn enter_unrefused(
    alloc: Global,
    grid: &Grid,
    events: &mut History,
    caller: u32,
    order: &Order,
) -> Result<(), NoMemory>
    requires can { CanEnter grid.now events.old caller (order.now ∷ []) }
    requires few { count_by (enters_in order.now.contract.hour) events.old < 2 ^ 32 - 1 }
    ensures ok { OnOk result (events.new ≡ events.old ++ market.enter sweeping.all_parts grid.now caller order.now events.old) }
    ensures err { OnErr result (Grew events.old events.new) }
{
    let mut sums = HourSums::none();
    let name = enter_and_take(alloc, grid, events, &mut sums, caller, order)?;
    finish(alloc, grid, events, &mut sums, name, order)
}

/// Enters an order and lets it take: its entry and the legs that it takes go to the end of the events.
/// Answers the name that it gets.
///
/// # Errors
///
/// [`NoMemory`], where there is no memory for an event or for what the next leg is made from: some of
/// the order's events may then stand behind the others.
pub(crate) fn enter_and_take(
    alloc: Global,
    grid: &Grid,
    events: &mut History,
    sums: &mut HourSums,
    caller: u32,
    order: &Order,
) -> Result<OrderName, NoMemory>
    requires can { CanEnter grid.now events.old caller (order.now ∷ []) }
    requires summed { AreHourSums grid.now events.old order.now.contract.hour sums.old }
    requires few { count_by (enters_in order.now.contract.hour) events.old < 2 ^ 32 - 1 }
    ensures name { IfOk result (λ name. name ≡ market.name_of_next events.old order.now) }
    ensures ok { OnOk result (events.new ≡ market.after_taking grid.now events.old caller order.now) }
    ensures err { OnErr result (Grew events.old events.new) }
    ensures legal { OnOk result (IsLegalOver grid.now events.new) }
    ensures summed { OnOk result (AreHourSums grid.now events.new order.now.contract.hour sums.new) }
{
    let name = next_name_over(alloc, events, &mut sums.orders, order.contract.hour)?;
    events.push(Event::Entered {
        name,
        caller,
        order: *order,
    })?;
    take(alloc, grid, events, sums, name)?;
    Ok(name)
}

// Withdraws what is left of an immediate-or-cancel order whose taking has ended, and sweeps the hour of
// any order.
fn finish(
    alloc: Global,
    grid: &Grid,
    events: &mut History,
    sums: &mut HourSums,
    name: OrderName,
    order: &Order,
) -> Result<(), NoMemory>
    requires legal { IsLegalOver grid.now events.old }
    requires hour { name.hour ≡ order.now.contract.hour }
    requires summed { AreHourSums grid.now events.old order.now.contract.hour sums.old }
    ensures ok { let rested = events.old ++ market.rest_withdrawn order.now.kind name (orders.left events.old name) in
        OnOk result (events.new ≡ rested ++ sweeping.sweep sweeping.all_parts grid.now order.now.contract.hour rested) }
    ensures err { OnErr result (Grew events.old events.new) }
    ensures summed { OnOk result (AreHourSums grid.now events.new order.now.contract.hour sums.new) }
{
    let zones = grid.zones();
    prove!(zones <= 64);
    withdraw_rest(alloc, events, &mut sums.orders, name, order.kind)?;
    sweep(alloc, grid, events, sums, order.contract.hour)
}

// Withdraws what is left of an order, if it is immediate-or-cancel. Where there is no memory the events
// stay as they were.
fn withdraw_rest(
    alloc: Global,
    events: &mut History,
    sums: &mut Option<OrderSums>,
    name: OrderName,
    kind: Kind,
) -> Result<(), NoMemory>
    requires history { IsSomeHistory events.old }
    requires summed { IfSome sums.old (AreSums events.old name.hour) }
    ensures ok { OnOk result (events.new ≡ events.old ++ market.rest_withdrawn kind name (orders.left events.old name)) }
    ensures err { OnErr result (events.new ≡ events.old) }
    ensures summed { IfSome sums.new (AreSums events.old name.hour) }
{
    match kind {
        Kind::Ioc => withdraw(alloc, events, sums, name),
        Kind::Limit | Kind::Fok | Kind::Iceberg { .. } => Ok(()),
    }
}

// Withdraws what is left of an order, if there is something. Where there is no memory the events stay as
// they were.
fn withdraw(
    alloc: Global,
    events: &mut History,
    sums: &mut Option<OrderSums>,
    name: OrderName,
) -> Result<(), NoMemory>
    requires history { IsSomeHistory events.old }
    requires summed { IfSome sums.old (AreSums events.old name.hour) }
    ensures ok { OnOk result (events.new ≡ events.old ++ market.rest_withdrawn Kind.Ioc name (orders.left events.old name)) }
    ensures err { OnErr result (events.new ≡ events.old) }
    ensures summed { IfSome sums.new (AreSums events.old name.hour) }
{
    match left_over(alloc, events, sums, name)? {
        0 => Ok(()),
        lots => events.push(Event::Withdrawn { name, lots }),
    }
}
