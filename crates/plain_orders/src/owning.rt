//! Whose an open order or block is, and whether there is room on the desk for one more.

ghost use Rattle.std.specs.Prelude.{◌≡◌, IfOk, IfSome, IsSome, OnOk};
ghost use Rattle.market_model.specs.Orders as orders;
ghost use Rattle.market_model.specs.Refusals as refusals;
ghost use Rattle.order_kinds.specs.Same.{same_name};
ghost use Rattle.plain_orders.specs.Histories.{IsSomeHistory};
ghost use Rattle.plain_orders.specs.Owned as owned;
ghost use Rattle.plain_orders.specs.Tallies.{AreCurrent, AreSums, AreSumsOf};

use crate::hour::{list_names, open_names};
use crate::placed::{PlacedBlock, PlacedOrder};
use crate::sums::left;
use crate::tally::{OrderSums, entered_in, sum_up};
use event_history::History;
use market_model::{Event, NoMemory, OrderName};
use std::alloc::Global;

/// How many orders and blocks may be open by one hour.
pub const DESK_ROOM: usize = 4096;

/// The order of this name, if it is open.
pub fn open_order(events: &History, name: OrderName) -> Option<PlacedOrder>
    requires history { IsSomeHistory events.now }
    ensures { result ≡ orders.open_order events.now name }
{
    if left(events, name) > 0 {
        placed_order(events.near(name.hour), name)
    } else {
        None
    }
}

/// The block of this name, if it is open.
pub fn open_block(events: &History, name: OrderName) -> Option<PlacedBlock>
    requires history { IsSomeHistory events.now }
    ensures { result ≡ orders.open_block events.now name }
{
    if left(events, name) > 0 {
        placed_block(events.near(name.hour), name)
    } else {
        None
    }
}

// The first order of this name, open or not.
fn placed_order(events: &[Event], name: OrderName) -> Option<PlacedOrder>
    ensures { result ≡ owned.placed_as events.now name }
{
    for event in events {
        if let Event::Entered {
            name: given,
            caller,
            order,
        } = event
            && *given == name
        {
            return Some(PlacedOrder {
                name: *given,
                caller: *caller,
                order: *order,
            });
        }
    }
    None
}

// The first block of this name, open or not.
fn placed_block(events: &[Event], name: OrderName) -> Option<PlacedBlock>
    ensures { result ≡ owned.block_placed_as events.now name }
{
    for event in events {
        if let Event::EnteredBlock {
            name: given,
            caller,
            order,
        } = event
            && *given == name
        {
            return Some(PlacedBlock {
                name: *given,
                caller: *caller,
                order: *order,
            });
        }
    }
    None
}

/// The order of this name, if it is open, a plain limit order, and the caller's.
pub fn own_limit(events: &History, caller: u32, name: OrderName) -> Option<PlacedOrder>
    requires history { IsSomeHistory events.now }
    ensures { result ≡ refusals.own_limit events.now caller name }
{
    match open_order(events, name) {
        Some(placed) if placed.caller == caller && placed.order.kind.is_limit() => Some(placed),
        _ => None,
    }
}

/// Whether the caller has an open order or block of this name.
pub fn has_own(events: &History, caller: u32, name: OrderName) -> bool
    requires history { IsSomeHistory events.now }
    ensures { result ≡ refusals.has_own events.now caller name }
{
    let own_order = matches!(open_order(events, name), Some(placed) if placed.caller == caller);
    let own_block = matches!(open_block(events, name), Some(placed) if placed.caller == caller);
    own_order || own_block
}

/// Whether the order or block of this name can rest beside the other open orders and blocks of its
/// hour: fewer than [`DESK_ROOM`] of them are open.
///
/// # Errors
///
/// [`NoMemory`], where there is no memory for the open names of the hour.
pub fn has_desk_room(alloc: Global, events: &History, name: OrderName) -> Result<bool, NoMemory>
    requires history { IsSomeHistory events.now }
    ensures { IfOk result (λ has. has ≡ refusals.has_desk_room events.now name) }
{
    if entered_in(events, name.hour) < DESK_ROOM {
        return Ok(true);
    }
    let names = open_names(alloc, events, name.hour)?;
    Ok(count_others(names.as_slice(), name) < DESK_ROOM)
}

/// The same, from the sums of the hour: they are made where there are none yet, or take in the events
/// that have come since, and stay for the next call.
///
/// # Errors
///
/// [`NoMemory`], where there is no memory for the sums of the hour or for its open names.
pub fn has_desk_room_over(
    alloc: Global,
    events: &History,
    sums: &mut Option<OrderSums>,
    name: OrderName,
) -> Result<bool, NoMemory>
    requires history { IsSomeHistory events.now }
    requires summed { IfSome sums.old (AreSums events.now name.hour) }
    ensures has { IfOk result (λ has. has ≡ refusals.has_desk_room events.now name) }
    ensures summed { IfSome sums.new (AreSums events.now name.hour) }
    ensures kept { OnOk result (IsSome sums.new) }
    ensures current { IfSome sums.new (AreCurrent events.now) }
{
    let summed = sum_up(alloc, events, name.hour, sums.take())?;
    let has = has_room_by(alloc, events, &summed, name);
    *sums = Some(summed);
    has
}

// The same, by the sums of the hour over all events.
fn has_room_by(
    alloc: Global,
    events: &History,
    sums: &OrderSums,
    name: OrderName,
) -> Result<bool, NoMemory>
    requires history { IsSomeHistory events.now }
    requires sums { AreSumsOf events.now name.hour sums.now.tallies.items sums.now.moment sums.now.place }
    ensures { IfOk result (λ has. has ≡ refusals.has_desk_room events.now name) }
{
    let places = sums.tallies.len();
    if places <= DESK_ROOM {
        return Ok(true);
    }
    let names = list_names(alloc, events, name.hour, sums)?;
    Ok(count_others(names.as_slice(), name) < DESK_ROOM)
}

// How many of the names are another one.
fn count_others(names: &[OrderName], name: OrderName) -> usize
    ensures { result ≡ owned.other_count names.now name }
{
    names.iter().filter(|other| **other != name).count()
}
