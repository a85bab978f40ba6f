//! The orders and blocks of an hour.

ghost use Rattle.std.specs.Prelude.{◌≡◌, IfOk, IfSome, IsSome, OnOk};
ghost use Rattle.market_model.specs.Market as market;
ghost use Rattle.market_model.specs.Orders as orders;
ghost use Rattle.order_kinds.specs.declared.phase.Phase.TheVariants as phase;
ghost use Rattle.plain_orders.specs.Histories.{IsSomeHistory};
ghost use Rattle.plain_orders.specs.Listed as listed;
ghost use Rattle.plain_orders.specs.Tallies.{AreCurrent, AreSums, AreSumsOf};

use crate::placed::{PlacedBlock, order_given};
use crate::standing::{StandingBlock, StandingOrder};
use crate::tally::{OrderSums, sum_up, tallies_of};
use event_history::History;
use market_model::{Event, Events, NoMemory, OrderName};
use std::alloc::Global;

/// The open orders that are named by an hour, in order of entry, as they stand.
///
/// # Errors
///
/// [`NoMemory`], where there is no memory for the sums of the hour or for the list.
pub fn open_orders(
    alloc: Global,
    events: &History,
    hour: u32,
) -> Result<Vec<StandingOrder>, NoMemory>
    requires history { IsSomeHistory events.now }
    ensures { IfOk result (λ made. made.items ≡ listed.open_orders events.now hour) }
{
    open_orders_over(alloc, events, &mut None, hour)
}

/// The same orders, from the sums of the hour: they are made where there are none yet, or take in the
/// events that have come since, and stay for the next call.
///
/// # Errors
///
/// [`NoMemory`], where there is no memory for the sums of the hour or for the list.
pub fn open_orders_over(
    alloc: Global,
    events: &History,
    sums: &mut Option<OrderSums>,
    hour: u32,
) -> Result<Vec<StandingOrder>, NoMemory>
    requires history { IsSomeHistory events.now }
    requires summed { IfSome sums.old (AreSums events.now hour) }
    ensures orders { IfOk result (λ made. made.items ≡ listed.open_orders events.now hour) }
    ensures summed { IfSome sums.new (AreSums events.now hour) }
    ensures kept { OnOk result (IsSome sums.new) }
    ensures current { IfSome sums.new (AreCurrent events.now) }
{
    let summed = sum_up(alloc, events, hour, sums.take())?;
    let orders = list_open(alloc, events, hour, &summed)?;
    *sums = Some(summed);
    Ok(orders)
}

// The open orders of an hour, by its sums over all events.
fn list_open(
    alloc: Global,
    events: &History,
    hour: u32,
    sums: &OrderSums,
) -> Result<Vec<StandingOrder>, NoMemory>
    requires history { IsSomeHistory events.now }
    requires sums { AreSumsOf events.now hour sums.now.tallies.items sums.now.moment sums.now.place }
    ensures { IfOk result (λ made. made.items ≡ listed.open_orders events.now hour) }
{
    let list = events.listed(hour);
    let mut standing = Vec::with_capacity(alloc, sums.tallies.len())?;
    for tally in &sums.tallies.as_slice()[1..] {
        if tally.left > 0 {
            match order_given(&list[tally.place], hour) {
                Some(placed) => standing.push(StandingOrder::new(&placed, *tally))?,
                None => {}
            }
        }
    }
    Ok(standing)
}

/// All blocks that are named by an hour, their first, open or not, in order of entry, as they
/// stand.
///
/// # Errors
///
/// [`NoMemory`], where there is no memory for the sums of the hour or for the list.
pub fn blocks_of(
    alloc: Global,
    events: &History,
    first: u32,
) -> Result<Vec<StandingBlock>, NoMemory>
    requires history { IsSomeHistory events.now }
    ensures { IfOk result (λ made. made.items ≡ listed.blocks_of events.now first) }
{
    let tallies = tallies_of(alloc, events, first)?;
    let mut blocks = Vec::new(alloc);
    for event in events.near(first) {
        match block_given(event, first) {
            Some(placed) => {
                let tally = tallies[placed.name().number as usize];
                blocks.push(StandingBlock::new(&placed, tally))?;
            }
            None => {}
        }
    }
    Ok(blocks)
}

/// The names of the open orders and blocks that are named by an hour, in order of entry.
///
/// # Errors
///
/// [`NoMemory`], where there is no memory for the sums of the hour or for the names.
pub fn open_names(alloc: Global, events: &History, hour: u32) -> Result<Vec<OrderName>, NoMemory>
    requires history { IsSomeHistory events.now }
    ensures { IfOk result (λ made. made.items ≡ orders.open_names events.now hour) }
{
    let summed = sum_up(alloc, events, hour, None)?;
    list_names(alloc, events, hour, &summed)
}

/// The same names, by the sums of the hour over all events.
///
/// # Errors
///
/// [`NoMemory`], where there is no memory for the names.
pub(crate) fn list_names(
    alloc: Global,
    events: &History,
    hour: u32,
    sums: &OrderSums,
) -> Result<Vec<OrderName>, NoMemory>
    requires history { IsSomeHistory events.now }
    requires sums { AreSumsOf events.now hour sums.now.tallies.items sums.now.moment sums.now.place }
    ensures { IfOk result (λ made. made.items ≡ orders.open_names events.now hour) }
{
    let mut names = Vec::new(alloc);
    for event in events.near(hour) {
        match name_given(event, hour) {
            Some(name) => {
                if sums.tallies[name.number as usize].left > 0 {
                    names.push(name)?;
                }
            }
            None => {}
        }
    }
    Ok(names)
}

/// What withdrawing all open orders and blocks that are named by an hour brings about, in order of
/// entry: of each what is left of it.
///
/// # Errors
///
/// [`NoMemory`], where there is no memory for the sums of the hour or for the events.
pub fn withdrawals(alloc: Global, events: &History, hour: u32) -> Result<Events, NoMemory>
    requires history { IsSomeHistory events.now }
    ensures { IfOk result (λ made. made ≡ market.withdrawals events.now hour phase.Closed) }
{
    let tallies = tallies_of(alloc, events, hour)?;
    let mut made = Events::new(alloc);
    for event in events.near(hour) {
        match name_given(event, hour) {
            Some(name) => {
                let lots = tallies[name.number as usize].left;
                if lots > 0 {
                    made.push(Event::Withdrawn { name, lots })?;
                }
            }
            None => {}
        }
    }
    Ok(made)
}

// The block that an event enters, if it is named by an hour.
fn block_given(event: &Event, first: u32) -> Option<PlacedBlock>
    ensures { result ≡ listed.block_given first event.now }
{
    match event {
        Event::EnteredBlock {
            name,
            caller,
            order,
        } if name.hour == first => Some(PlacedBlock {
            name: *name,
            caller: *caller,
            order: *order,
        }),
        _ => None,
    }
}

// The name that an event gives to an order or block of an hour.
fn name_given(event: &Event, hour: u32) -> Option<OrderName>
    ensures { result ≡ orders.name_given hour event.now }
{
    match event {
        Event::Entered { name, .. } | Event::EnteredBlock { name, .. } if name.hour == hour => {
            Some(*name)
        }
        _ => None,
    }
}
