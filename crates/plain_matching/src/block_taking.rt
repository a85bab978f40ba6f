//! Blocks that enter.

ghost use Rattle.std.specs.Prelude.{◌≡◌, ◌++◌, ◌-◌, ◌^◌, ◌<◌, IfOk, OnOk, OnErr, count_by, is_some};
ghost use Rattle.market_model.specs.Blocks as blocks;
ghost use Rattle.market_model.specs.History.{enters_in};
ghost use Rattle.plain_matching.specs.BlockEntering.{CanEnterBlock};
ghost use Rattle.plain_matching.specs.Grown.{Grew};

use crate::deal::deal_with_first;
use event_history::History;
use market_model::{BlockOrder, Event, NoMemory};
use plain_orders::{block_line, blocks_of, next_name};
use std::alloc::Global;
use zone_graph::Grid;

/// Enters a block and lets it trade with its partner: its entry and the legs go to the end of the
/// events, each leg at the partner's price. It answers whether it found one.
///
/// # Errors
///
/// [`NoMemory`], where there is no memory for the entry, for what a leg is made from or for a leg:
/// some of these events, and legs that were tried, can then stand behind the events.
pub fn take_block(
    alloc: Global,
    grid: &Grid,
    events: &mut History,
    caller: u32,
    order: &BlockOrder,
) -> Result<bool, NoMemory>
    requires can { CanEnterBlock grid.now events.old caller order.now }
    requires few { count_by (enters_in order.now.first) events.old < 2 ^ 32 - 1 }
    ensures found { IfOk result (λ found. found ≡ is_some (blocks.partner_found grid.now events.old caller order.now)) }
    ensures ok { OnOk result (events.new ≡ blocks.with_block events.old caller order.now ++ blocks.legs_with grid.now (blocks.with_block events.old caller order.now) (blocks.entering_block events.old caller order.now) (blocks.partner_found grid.now events.old caller order.now)) }
    ensures err { OnErr result (Grew events.old events.new) }
{
    let name = next_name(events, order.first);
    events.push(Event::EnteredBlock {
        name,
        caller,
        order: *order,
    })?;
    let entered = blocks_of(alloc, events, order.first)?;
    let others = order.side.opposite();
    let line = block_line(alloc, entered.as_slice(), order.first, order.last, others)?;
    match entered.as_slice() {
        [.., own] => deal_with_first(alloc, grid, events, own, line.as_slice()),
        [] => unreachable!(),
    }
}
