//! The rows of a view.

ghost use Rattle.std.specs.Prelude.{◌≡◌, true, IfOk};
ghost use Rattle.order_kinds.specs.Contract.{is_known};
ghost use Rattle.zone_graph.specs.Graph.{HasZone};
ghost use Rattle.market_model.specs.View as market;
ghost use Rattle.market_model.specs.WellFormed.{IsLegalOver};

use crate::maker::makers_of;
use crate::rows::{rows_filled, rows_of};
use event_history::History;
use market_model::{Contract, NoMemory, Rows, Side};
use plain_capacity::contract_rooms;
use plain_orders::{line, open_orders};
use std::alloc::Global;
use zone_graph::Grid;

/// The view of a contract, a side and a zone after the events of a first part of a legal history
/// over a grid: what a taker of any quantity at any price in that zone would take of the resting
/// orders of that side, of what they show. Each row is a resting order, its price in cents per MWh
/// and the lots that would be taken of it, in the order of the first trade with each.
///
/// # Errors
///
/// [`NoMemory`], where there is no memory for the orders, the line, the rooms, a route or the rows.
pub(crate) fn view(
    alloc: Global,
    grid: &Grid,
    events: &History,
    contract: Contract,
    side: Side,
    zone: u32,
) -> Result<Rows, NoMemory>
    requires legal { IsLegalOver grid.now events.now }
    requires part { is_known contract.part ≡ true }
    requires zone { HasZone grid.now zone }
    ensures rows { IfOk result (λ rows. rows ≡ market.view grid.now events.now contract side zone) }
{
    let zones = grid.zones();
    prove!(zone < zones);
    let orders = open_orders(alloc, events, contract.hour)?;
    let line = line(alloc, orders.as_slice(), contract, side)?;
    let rooms = contract_rooms(alloc, grid, events, contract)?;
    let mut makers = makers_of(alloc, line.as_slice())?;
    let rows = rows_filled(alloc, grid, rooms, makers.as_mut_slice(), side, zone)?;
    rows_of(alloc, rows.as_slice())
}
