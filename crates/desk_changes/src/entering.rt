//! A block that enters its first hour.

ghost use Rattle.std.specs.Prelude.{◌≡◌, ◌-◌, ◌<◌, ◌^◌, None, Some, IfSome, OnErr, OnOk, length};
ghost use Rattle.std.specs.Option.{option_copied};
ghost use Rattle.laws_of_boards.specs.Settled.{IsSettled};
ghost use Rattle.kept_hour.specs.Kept.{names_given};
ghost use Rattle.kept_hour.specs.Planned.{CanFollow, IsUnplanned, with_planned};
ghost use Rattle.market_model.specs.Orders.{open_names};
ghost use Rattle.market_model.specs.Refusals.{desk_room};
ghost use Rattle.desk_changes.specs.Plans as plans;

use crate::leg_openings::may_open;
use crate::sweeping::sweep_if;
use block_match::BlockDeal;
use kept_hour::KeptHour;
use market_model::BlockOrder;
use std::alloc::Global;
use zone_graph::{Grid, NoMemory};

/// Plans a caller's block that enters its first hour: its entry, the legs of the deal that it has found,
/// if there is one, and the sweep of the hour.
///
/// Nothing is planned before, and nothing is left to trade. A block that finds no deal rests, so that the
/// desk must have room for one more; in a deal the block takes under the next number of the hour, and the
/// deal closes both blocks.
///
/// # Errors
///
/// [`NoMemory`] where memory runs out; nothing is planned then.
pub fn enter_block(
    alloc: Global,
    hour: &mut KeptHour,
    grid: &Grid,
    caller: u32,
    order: &BlockOrder,
    deal: Option<&BlockDeal>,
) -> Result<(), NoMemory>
    requires grid { grid.now ≡ hour.old.board.grid }
    requires unplanned { IsUnplanned hour.old }
    requires few { names_given hour.old.board < 2 ^ 32 - 1 }
    requires room { option_copied deal ≡ None → length (open_names hour.old.board.events hour.old.board.hour) < desk_room }
    requires next { CanFollow hour.old (plans.entry_events hour.old caller order.now (option_copied deal)) }
    requires whole { IfSome (option_copied deal) (plans.IsEntryDeal hour.old caller order.now) }
    requires quiet { IsSettled grid.now hour.old.board.hour hour.old.settled }
    ensures planned { OnOk result (hour.new ≡ with_planned hour.old (plans.then_sweep_all grid.now hour.old (plans.entry_events hour.old caller order.now (option_copied deal.entry)))) }
    ensures unchanged { OnErr result (hour.new ≡ hour.old) }
{
    match deal {
        None => enter_at_rest(hour, caller, order),
        Some(deal) => enter_and_deal(alloc, hour, grid, caller, order, deal),
    }
}

// Plans the entry of a block that rests. No arc gains room by it, so that the sweep of the hour finds
// nothing, and is not made.
fn enter_at_rest(hour: &mut KeptHour, caller: u32, order: &BlockOrder) -> Result<(), NoMemory>
    requires unplanned { IsUnplanned hour.old }
    requires few { names_given hour.old.board < 2 ^ 32 - 1 }
    requires room { length (open_names hour.old.board.events hour.old.board.hour) < desk_room }
    requires next { CanFollow hour.old (plans.entry_events hour.old caller order.now None) }
    requires quiet { IsSettled hour.old.board.grid hour.old.board.hour hour.old.settled }
    ensures planned { OnOk result (hour.new ≡ with_planned hour.old (plans.then_sweep_all hour.old.board.grid hour.old (plans.entry_events hour.old caller order.now None))) }
    ensures unchanged { OnErr result (hour.new ≡ hour.old) }
{
    hour.enter_block(caller, order)?;
    Ok(())
}

// Plans the entry of a block that trades at once, the legs of its deal and the sweep of the hour.
fn enter_and_deal(
    alloc: Global,
    hour: &mut KeptHour,
    grid: &Grid,
    caller: u32,
    order: &BlockOrder,
    deal: &BlockDeal,
) -> Result<(), NoMemory>
    requires grid { grid.now ≡ hour.old.board.grid }
    requires unplanned { IsUnplanned hour.old }
    requires few { names_given hour.old.board < 2 ^ 32 - 1 }
    requires next { CanFollow hour.old (plans.entry_events hour.old caller order.now (Some deal.now)) }
    requires whole { plans.IsEntryDeal hour.old caller order.now deal.now }
    requires quiet { IsSettled grid.now hour.old.board.hour hour.old.settled }
    ensures planned { OnOk result (hour.new ≡ with_planned hour.old (plans.then_sweep_all grid.now hour.old (plans.entry_events hour.old caller order.now (Some deal.now)))) }
    ensures unchanged { OnErr result (hour.new ≡ hour.old) }
{
    let opened = may_open(hour, deal.legs.as_slice());
    hour.enter_dealt_block(caller, order, deal)?;
    sweep_if(alloc, hour, grid, opened)
}
