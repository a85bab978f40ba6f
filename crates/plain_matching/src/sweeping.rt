//! The legs of an hour's sweep.

ghost use Rattle.std.specs.Prelude.{◌≡◌, ◌++◌, true, IfOk, IfSome, OnOk, OnErr, None, length};
ghost use Rattle.std.specs.List.{list_all};
ghost use Rattle.order_kinds.specs.Contract as contracts;
ghost use Rattle.order_kinds.specs.Period.{hours_from};
ghost use Rattle.order_kinds.specs.declared.side.Side.TheVariants.{Buy};
ghost use Rattle.zone_graph.specs.Graph.{HasZone, border_count};
ghost use Rattle.zone_graph.specs.Grid.{IsGrid};
ghost use Rattle.zone_graph.specs.Rooms.{room_of};
ghost use Rattle.market_model.specs.Sweep as market;
ghost use Rattle.market_model.specs.WellFormed.{IsLegalOver};
ghost use Rattle.plain_capacity.specs.Sums.{AreCapacitySums};
ghost use Rattle.plain_orders.specs.DaySums.{AreDaySums};
ghost use Rattle.plain_orders.specs.Listed as listed;
ghost use Rattle.plain_orders.specs.Prices.{AreBestOf};
ghost use Rattle.plain_matching.specs.Grown.{Grew, GrewByPart};
ghost use Rattle.plain_matching.specs.Over as over;
ghost use Rattle.plain_matching.specs.Summed.{AreHourSums, HasOrders, StaysOrIsAfter};

use crate::hour_sums::HourSums;
use crate::partner::{best_cross, crosses_best, partner};
use crate::trade::resting_trade;
use event_history::History;
use market_model::{Contract, Event, NoMemory, Part, Price, Side};
use plain_capacity::{CapacitySums, contract_rooms_over};
use plain_orders::{BestPrices, DaySums, PartPrices, StandingOrder, line};
use std::alloc::Global;
use zone_graph::{Grid, Rooms};

/// Sweeps an hour: resting orders of the hour that can trade do, leg by leg, until none can. Each leg
/// is at the price of the order that was there earlier and goes to the end of the events. What was summed
/// up of the hour serves each leg.
///
/// # Errors
///
/// [`NoMemory`], where there is no memory for what the next leg is made from or for the leg: a first
/// part of the legs then stands behind the events.
pub fn sweep(
    alloc: Global,
    grid: &Grid,
    events: &mut History,
    sums: &mut HourSums,
    hour: u32,
) -> Result<(), NoMemory>
    requires legal { IsLegalOver grid.now events.old }
    requires summed { AreHourSums grid.now events.old hour sums.old }
    ensures ok { OnOk result (events.new ≡ events.old ++ market.sweep market.all_parts grid.now hour events.old) }
    ensures err { OnErr result (GrewByPart (market.sweep market.all_parts grid.now hour events.old) events.old events.new) }
    ensures legal { IsLegalOver grid.now events.new }
    ensures summed { OnOk result (AreHourSums grid.now events.new hour sums.new) }
    ensures orders { OnOk result (HasOrders events.new sums.new) }
    ensures capacity { OnOk result (StaysOrIsAfter (events.new ≡ events.old) (length events.old) sums.old.capacity sums.new.capacity) }
{
    while let Some(leg) = sweep_leg(alloc, grid, events, sums, hour)? {
        events.push(leg)?;
    }
    Ok(())
}

/// Sweeps the hours from the first to the last, one after the other. The sums that are kept of the orders of
/// each hour take in the events that have come since, and are kept again once it is swept.
///
/// # Errors
///
/// [`NoMemory`], where there is no memory for what a leg is made from or for the leg: some of the legs
/// then stand behind the events.
pub fn sweeps(
    alloc: Global,
    grid: &Grid,
    events: &mut History,
    kept: &mut DaySums,
    first: u32,
    last: u32,
) -> Result<(), NoMemory>
    requires legal { IsLegalOver grid.now events.old }
    requires summed { AreDaySums events.old kept.old }
    ensures ok { OnOk result (events.new ≡ events.old ++ market.sweeps market.all_parts grid.now (hours_from first last) events.old) }
    ensures err { OnErr result (Grew events.old events.new) }
    ensures legal { IsLegalOver grid.now events.new }
    ensures summed { AreDaySums events.new kept.new }
{
    for hour in first..=last {
        sweep_kept(alloc, grid, events, kept, hour)?;
    }
    Ok(())
}

// Sweeps an hour, of which the sums of the orders may be kept.
fn sweep_kept(
    alloc: Global,
    grid: &Grid,
    events: &mut History,
    kept: &mut DaySums,
    hour: u32,
) -> Result<(), NoMemory>
    requires legal { IsLegalOver grid.now events.old }
    requires summed { AreDaySums events.old kept.old }
    ensures ok { OnOk result (events.new ≡ events.old ++ market.sweep market.all_parts grid.now hour events.old) }
    ensures err { OnErr result (GrewByPart (market.sweep market.all_parts grid.now hour events.old) events.old events.new) }
    ensures legal { IsLegalOver grid.now events.new }
    ensures summed { AreDaySums events.new kept.new }
{
    let mut sums = HourSums::of(kept.take(hour));
    sweep(alloc, grid, events, &mut sums, hour)?;
    kept.put(hour, sums.orders.take());
    Ok(())
}

// The next leg of an hour's sweep: in the first of the hour, its halves and its quarters in which a
// buy has a partner, that of the first such buy in priority.
fn sweep_leg(
    alloc: Global,
    grid: &Grid,
    events: &History,
    sums: &mut HourSums,
    hour: u32,
) -> Result<Option<Event>, NoMemory>
    requires legal { IsLegalOver grid.now events.now }
    requires summed { AreHourSums grid.now events.now hour sums.old }
    ensures summed { AreHourSums grid.now events.now hour sums.new }
    ensures leg { IfOk result (λ leg. leg ≡ market.sweep_leg market.all_parts grid.now hour events.now) }
    ensures orders { OnOk result (HasOrders events.now sums.new) }
    ensures capacity { IfOk result (λ leg. StaysOrIsAfter (leg ≡ None) (length events.now) sums.old.capacity sums.new.capacity) }
    ensures grid { IsGrid grid.now }
{
    let zones = grid.zones();
    prove!(zones <= 64);
    let listed = sums.list_orders(alloc, events, hour)?;
    let parts = [
        Part::Hour,
        Part::Half(1),
        Part::Half(2),
        Part::Quarter(1),
        Part::Quarter(2),
        Part::Quarter(3),
        Part::Quarter(4),
    ];
    let capacity = &mut sums.capacity;
    let orders = listed.orders.as_slice();
    let leg = leg_in_parts(alloc, grid, events, capacity, orders, hour, &parts)?;
    sums.listed = Some(listed);
    Ok(leg)
}

// The leg in the first of some parts of an hour that has one. The best prices of all parts are found in one
// pass over the orders.
fn leg_in_parts(
    alloc: Global,
    grid: &Grid,
    events: &History,
    capacity: &mut Option<CapacitySums>,
    orders: &[StandingOrder],
    hour: u32,
    parts: &[Part],
) -> Result<Option<Event>, NoMemory>
    requires legal { IsLegalOver grid.now events.now }
    requires summed { IfSome capacity.old (AreCapacitySums grid.now events.now hour) }
    requires orders { orders.now ≡ listed.open_orders events.now hour }
    requires parts { list_all contracts.is_known parts.now ≡ true }
    ensures leg { IfOk result (λ leg. leg ≡ over.leg_in_parts grid.now events.now hour parts.now) }
    ensures summed { IfSome capacity.new (AreCapacitySums grid.now events.now hour) }
    ensures kept { IfOk result (λ leg. StaysOrIsAfter (leg ≡ None) (length events.now) capacity.old capacity.new) }
{
    let prices = PartPrices::of(orders, hour);
    for part in parts {
        let contract = Contract { hour, part: *part };
        let best = prices.at(*part);
        if let Some(leg) = leg_in(alloc, grid, events, capacity, orders, contract, best)? {
            return Ok(Some(leg));
        }
    }
    Ok(None)
}

// The leg of the first buy of a contract's line that has a partner. Where the best prices of the contract,
// which these are, do not cross, no line is made. The capacity of the hour is summed up where it is asked for.
fn leg_in(
    alloc: Global,
    grid: &Grid,
    events: &History,
    capacity: &mut Option<CapacitySums>,
    orders: &[StandingOrder],
    contract: Contract,
    best: BestPrices,
) -> Result<Option<Event>, NoMemory>
    requires legal { IsLegalOver grid.now events.now }
    requires orders { orders.now ≡ listed.open_orders events.now contract.hour }
    requires best { AreBestOf orders.now contract best }
    requires part { contracts.is_known contract.part ≡ true }
    requires summed { IfSome capacity.old (AreCapacitySums grid.now events.now contract.hour) }
    ensures leg { IfOk result (λ leg. leg ≡ market.leg_in grid.now events.now contract) }
    ensures summed { IfSome capacity.new (AreCapacitySums grid.now events.now contract.hour) }
    ensures kept { IfOk result (λ leg. StaysOrIsAfter (leg ≡ None) (length events.now) capacity.old capacity.new) }
{
    let zones = grid.zones();
    prove!(zones <= 64);
    if !best_cross(best.buy, best.sell) {
        return Ok(None);
    }
    let buys = line(alloc, orders, contract, Side::Buy)?;
    let sells = line(alloc, orders, contract, Side::Sell)?;
    let rooms = contract_rooms_over(alloc, grid, events, capacity, contract)?;
    first_leg(
        alloc,
        grid,
        &rooms,
        buys.as_slice(),
        sells.as_slice(),
        best.sell,
    )
}

// The leg of the first of some buys that has a partner in a line of sells, of which this is the best price.
fn first_leg(
    alloc: Global,
    grid: &Grid,
    rooms: &Rooms,
    buys: &[StandingOrder],
    sells: &[StandingOrder],
    best: Option<Price>,
) -> Result<Option<Event>, NoMemory>
    requires size { length rooms.now ≡ border_count grid.now }
    requires buys { over.AreInZones grid.now buys.now }
    requires sides { over.AreBuys buys.now }
    requires sells { over.AreInZones grid.now sells.now }
    requires best { over.IsBestOfSells best sells.now }
    ensures { IfOk result (λ leg. leg ≡ market.first_answer (over.leg_of_buy_over grid.now (room_of rooms.now) sells.now) buys.now) }
{
    for buy in buys {
        if let Some(leg) = leg_of_buy(alloc, grid, rooms, sells, best, buy)? {
            return Ok(Some(leg));
        }
    }
    Ok(None)
}

// The leg of a buy with its partner in a line of sells, of which this is the best price: where it does not
// cross that, no sell is looked at.
fn leg_of_buy(
    alloc: Global,
    grid: &Grid,
    rooms: &Rooms,
    sells: &[StandingOrder],
    best: Option<Price>,
    buy: &StandingOrder,
) -> Result<Option<Event>, NoMemory>
    requires size { length rooms.now ≡ border_count grid.now }
    requires sells { over.AreInZones grid.now sells.now }
    requires best { over.IsBestOfSells best sells.now }
    requires buy { HasZone grid.now buy.now.order.zone }
    requires side { buy.now.order.side ≡ Buy }
    ensures { IfOk result (λ leg. leg ≡ over.leg_of_buy_over grid.now (room_of rooms.now) sells.now buy.now) }
{
    if !crosses_best(buy, best) {
        return Ok(None);
    }
    match partner(grid, rooms, sells, buy) {
        Some(sell) => resting_trade(alloc, grid, rooms, buy, &sell),
        None => Ok(None),
    }
}
