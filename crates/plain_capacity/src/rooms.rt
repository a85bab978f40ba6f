//! The rooms of all arcs for a contract and for blocks.

ghost use Rattle.std.specs.Prelude.{◌≡◌, ◌≤◌, true, IfOk, IfSome, IsSome, OnOk, length};
ghost use Rattle.order_kinds.specs.Contract as contracts;
ghost use Rattle.order_kinds.specs.Period as periods;
ghost use Rattle.zone_graph.specs.declared.route.Arc.{Arc};
ghost use Rattle.zone_graph.specs.Graph as graphs;
ghost use Rattle.zone_graph.specs.Rooms as rows;
ghost use Rattle.market_model.specs.Room as rooms;
ghost use Rattle.market_model.specs.WellFormed.{IsLegalOver};
ghost use Rattle.plain_capacity.specs.Hour as hours;
ghost use Rattle.plain_capacity.specs.Sums.{AreCapacitySums, IsCurrent};

use crate::hour::{HourCapacity, hour_capacity};
use event_history::History;
use order_kinds::{Contract, Part};
use std::alloc::Global;
use zone_graph::{Grid, NoMemory, Rooms};

/// The capacity of one hour after the first events of a history. Where more events have come since, they
/// alone are taken in.
#[derive(Debug, Drop)]
pub struct CapacitySums {
    capacity: HourCapacity,
    // After how many events it is.
    count: usize,
}

/// The room that each arc has for a contract after the events of a first part of a legal history
/// over a grid: the least over the quarters in which the contract delivers.
pub fn contract_rooms(
    alloc: Global,
    grid: &Grid,
    events: &History,
    contract: Contract,
) -> Result<Rooms, NoMemory>
    requires legal { IsLegalOver grid.now events.now }
    requires part { contracts.is_known contract.part ≡ true }
    ensures size { IfOk result (λ made. length made ≡ graphs.border_count grid.now) }
    ensures rooms { IfOk result (λ made. (arc : Arc) → graphs.HasArc grid.now arc → rows.room_of made arc ≡ rooms.room events.now (periods.contract_quarters contract) arc) }
{
    contract_rooms_over(alloc, grid, events, &mut None, contract)
}

/// The same rooms, from the capacity of the contract's hour: it is summed up where there is none yet, or
/// takes in the events that have come since, and stays for the next call and for the other contracts of
/// the hour.
///
/// # Errors
///
/// [`NoMemory`], where there is no memory for the capacity of the hour or for the rooms.
pub fn contract_rooms_over(
    alloc: Global,
    grid: &Grid,
    events: &History,
    capacity: &mut Option<CapacitySums>,
    contract: Contract,
) -> Result<Rooms, NoMemory>
    requires legal { IsLegalOver grid.now events.now }
    requires part { contracts.is_known contract.part ≡ true }
    requires summed { IfSome capacity.old (AreCapacitySums grid.now events.now contract.hour) }
    ensures size { IfOk result (λ made. length made ≡ graphs.border_count grid.now) }
    ensures rooms { IfOk result (λ made. (arc : Arc) → graphs.HasArc grid.now arc → rows.room_of made arc ≡ rooms.room events.now (periods.contract_quarters contract) arc) }
    ensures summed { IfSome capacity.new (AreCapacitySums grid.now events.now contract.hour) }
    ensures kept { OnOk result (IsSome capacity.new) }
    ensures current { IfSome capacity.new (IsCurrent events.now) }
{
    let summed = sum_up(alloc, grid, events, contract.hour, capacity.take())?;
    let rooms = summed.rooms(grid, contract.part)?;
    *capacity = Some(CapacitySums {
        capacity: summed,
        count: events.len(),
    });
    Ok(rooms)
}

// The capacity of an hour after all events: that which is given, with the events that have come since, or
// else summed up anew.
fn sum_up(
    alloc: Global,
    grid: &Grid,
    events: &History,
    hour: u32,
    given: Option<CapacitySums>,
) -> Result<HourCapacity, NoMemory>
    requires legal { IsLegalOver grid.now events.now }
    requires given { IfSome given (AreCapacitySums grid.now events.now hour) }
    ensures { IfOk result (hours.IsCapacityOf grid.now events.now hour) }
{
    match given {
        Some(given) => {
            let mut capacity = given.capacity;
            capacity.note_from(grid, events, events.as_slice(), given.count, hour);
            Ok(capacity)
        }
        None => hour_capacity(alloc, grid, events, hour),
    }
}

/// The room that each arc has for blocks of these hours after the events of a first part of a legal
/// history over a grid: the least over all quarters of the hours.
pub fn block_rooms(
    alloc: Global,
    grid: &Grid,
    events: &History,
    first: u32,
    last: u32,
) -> Result<Rooms, NoMemory>
    requires legal { IsLegalOver grid.now events.now }
    requires order { first ≤ last }
    ensures size { IfOk result (λ made. length made ≡ graphs.border_count grid.now) }
    ensures rooms { IfOk result (λ made. (arc : Arc) → graphs.HasArc grid.now arc → rows.room_of made arc ≡ rooms.room events.now (periods.block_quarters first last) arc) }
{
    let mut rooms = hour_rooms(alloc, grid, events, first)?;
    for hour in first..last {
        rooms.least_with(&hour_rooms(alloc, grid, events, hour + 1)?);
    }
    Ok(rooms)
}

// The rooms of a whole hour.
fn hour_rooms(alloc: Global, grid: &Grid, events: &History, hour: u32) -> Result<Rooms, NoMemory>
    requires { IsLegalOver grid.now events.now }
    ensures size { IfOk result (λ made. length made ≡ graphs.border_count grid.now) }
    ensures rooms { IfOk result (λ made. (arc : Arc) → graphs.HasArc grid.now arc → rows.room_of made arc ≡ rooms.room events.now (periods.hour_quarters hour) arc) }
{
    let contract = Contract {
        hour,
        part: Part::Hour,
    };
    contract_rooms(alloc, grid, events, contract)
}
