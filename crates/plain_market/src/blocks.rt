//! Blocks.

ghost use Rattle.std.specs.Prelude.{◌≡◌, ◌-◌, ◌^◌, ◌<◌, ◌++◌, ◌||◌, Ok, Some, None, IfOk, OnErr};
ghost use Rattle.market_model.specs.declared.refusal.Refusal.{Refusal as TheRefusal};
ghost use Rattle.market_model.specs.Blocks as market;
ghost use Rattle.market_model.specs.History.{entered_count};
ghost use Rattle.market_model.specs.Refusals.{block_desk_refusal, has_desk_room as has_room};
ghost use Rattle.market_model.specs.Sweep.{all_parts};
ghost use Rattle.plain_matching.specs.BlockEntering.{CanEnterBlock};
ghost use Rattle.plain_matching.specs.Grown.{Grew};
ghost use Rattle.plain_orders.specs.DaySums.{AreDaySums};
ghost use Rattle.plain_orders.specs.Histories.{IsSomeHistory};

use event_history::History;
use market_model::{BlockOrder, NoMemory, OrderName, Refusal};
use plain_matching::{cut_back, sweeps, take_block};
use plain_orders::{DaySums, has_desk_room, next_name};
use std::alloc::Global;
use zone_graph::Grid;

/// Enters a block, unless it finds no partner and has no room on the desk of its first hour: its
/// entry, the legs with its partner and the sweeps of its hours go to the end of the events. It answers
/// why the block is refused; the events are then as they were. The sums that are kept of the orders of each
/// hour serve the sweeps.
///
/// # Errors
///
/// [`NoMemory`], where there is no memory for the events or for what they are made from: some of them
/// may then stand behind those before.
pub(crate) fn enter_block(
    alloc: Global,
    grid: &Grid,
    events: &mut History,
    sums: &mut DaySums,
    caller: u32,
    order: &BlockOrder,
) -> Result<Option<Refusal>, NoMemory>
    requires can { CanEnterBlock grid.now events.old caller order.now }
    requires few { entered_count events.old < 2 ^ 32 - 1 }
    requires summed { AreDaySums events.old sums.old }
    ensures refusal { IfOk result (λ refusal. refusal ≡ block_desk_refusal grid.now events.old caller order.now) }
    ensures done { result ≡ Ok None → events.new ≡ events.old ++ market.enter_block all_parts grid.now caller order.now events.old }
    ensures kept { (refusal : TheRefusal) → result ≡ Ok (Some refusal) → events.new ≡ events.old }
    ensures err { OnErr result (Grew events.old events.new) }
    ensures summed { AreDaySums events.new sums.new }
{
    let zones = grid.zones();
    prove!(zones <= 64);
    let before = events.len();
    let name = next_name(events, order.first);
    let found = take_block(alloc, grid, events, caller, order)?;
    if may_stay(alloc, events, name, found)? {
        sweeps(alloc, grid, events, sums, order.first, order.last)?;
        Ok(None)
    } else {
        cut_back(events, before);
        Ok(Some(Refusal::DeskFull))
    }
}

// Whether a block may stay: it found a partner, or it has room on the desk.
fn may_stay(alloc: Global, events: &History, name: OrderName, found: bool) -> Result<bool, NoMemory>
    requires history { IsSomeHistory events.now }
    ensures { IfOk result (λ may. may ≡ (found || has_room events.now name)) }
{
    Ok(found || has_desk_room(alloc, events, name)?)
}
