//! An order that enters.

ghost use Rattle.std.specs.Prelude.{◌≡◌, ◌-◌, ◌<◌, ◌≤◌, ◌^◌, Ok, None, Some, IfOk, IfSome, OnErr};
ghost use Rattle.order_kinds.specs.Contract as contracts;
ghost use Rattle.market_model.specs.declared.command.Command.TheVariants as command;
ghost use Rattle.market_model.specs.declared.refusal.Refusal.{Refusal as Reason};
ghost use Rattle.market_model.specs.Entering as market;
ghost use Rattle.market_model.specs.Rules.{first_broken};
ghost use Rattle.market_model.specs.Sweep.{all_parts};
ghost use Rattle.market_model.specs.StateRules.{filling_rules};
ghost use Rattle.laws_of_boards.specs.Settled.{IsSettled};
ghost use Rattle.match_core.specs.Walks.{AreRoomsOf};
ghost use Rattle.kept_hour.specs.Kept.{names_given};
ghost use Rattle.kept_hour.specs.Planned.{IsUnplanned, with_planned};
ghost use Rattle.kept_hour.specs.State.{CanBeNext, entry_of};
ghost use Rattle.desk_entering.specs.Entries.{AreZonesOf, Enters, IsJudged, IsSettledAs};

use crate::ending::{end_taking, refusal_for};
use crate::obstacle::Obstacle;
use crate::opening::sweep_if_opened;
use crate::taking::enter_and_take;
use kept_hour::{KeptHour, number_of};
use market_model::{NoMemory, Order, Refusal};
use std::alloc::Global;
use zone_graph::{Grid, Rooms};

/// Lets a caller's order enter an hour: its entry, the legs that it takes, the withdrawal of an
/// immediate-or-cancel order's rest and the sweep of the hour are planned, unless it is to be filled
/// wholly and cannot be, or what would rest of it has no room on the desk. Answers why it is refused;
/// nothing is planned then.
///
/// The hour has nothing planned, and nothing is left to trade in it. `rooms`
/// are the rooms of the order's part, as they are settled.
///
/// # Errors
///
/// [`NoMemory`] where memory runs out; nothing is planned then.
pub fn enter_order(
    alloc: Global,
    hour: &mut KeptHour,
    grid: &Grid,
    rooms: &Rooms,
    caller: u32,
    order: &Order,
) -> Result<Option<Refusal>, NoMemory>
    requires grid { grid.now ≡ hour.old.board.grid }
    requires unplanned { IsUnplanned hour.old }
    requires few { names_given hour.old.board < 2 ^ 32 - 1 }
    requires in_hour { order.now.contract.hour ≡ hour.old.board.hour }
    requires rooms { AreRoomsOf hour.old.board (contracts.part_number order.now.contract.part) rooms.now }
    requires next { CanBeNext hour.old (entry_of hour.old caller order.now) }
    requires quiet { IsSettled grid.now hour.old.board.hour hour.old.settled }
    ensures refusal { IfOk result (λ refusal. refusal ≡ first_broken (filling_rules grid.now hour.old.settled caller (command.Enter order.now))) }
    ensures planned { result ≡ Ok None → hour.new ≡ with_planned hour.old (market.enter all_parts grid.now caller order.now hour.old.settled) }
    ensures refused { (refusal : Reason) → result ≡ Ok (Some refusal) → hour.new ≡ hour.old }
    ensures unchanged { OnErr result (hour.new ≡ hour.old) }
{
    let part = number_of(order.contract.part);
    match plan(alloc, hour, grid, rooms, part, caller, order) {
        Ok(None) => Ok(None),
        Ok(Some(obstacle)) => {
            hour.undo();
            let refusal = refusal_for(hour, grid, rooms, part, order, obstacle);
            Ok(Some(refusal))
        }
        Err(error) => {
            hour.undo();
            Err(error)
        }
    }
}

// Plans what an order of a part does as it enters. Answers why it is to be refused: then what was planned
// is to be taken back.
fn plan(
    alloc: Global,
    hour: &mut KeptHour,
    grid: &Grid,
    rooms: &Rooms,
    part: u32,
    caller: u32,
    order: &Order,
) -> Result<Option<Obstacle>, NoMemory>
    requires grid { grid.now ≡ hour.old.board.grid }
    requires unplanned { IsUnplanned hour.old }
    requires few { names_given hour.old.board < 2 ^ 32 - 1 }
    requires enters { Enters hour.old.board.grid hour.old.board.hour hour.old.settled caller order.now }
    requires part { part ≡ contracts.part_number order.now.contract.part }
    requires rooms { AreRoomsOf hour.old.board part rooms.now }
    requires quiet { IsSettled hour.old.board.grid hour.old.board.hour hour.old.settled }
    ensures planned { result ≡ Ok None
        → hour.new ≡ with_planned hour.old (market.enter all_parts hour.old.board.grid caller order.now hour.old.settled) }
    ensures judged { IfOk result (λ found. IsJudged hour.old caller order.now found) }
    ensures zones { IfOk result (λ found. IfSome found (AreZonesOf hour.old.board.grid)) }
    ensures kept { IsSettledAs hour.old hour.new }
{
    let taker = enter_and_take(alloc, hour, grid, part, caller, order)?;
    match end_taking(alloc, hour, grid, part, caller, order, &taker)? {
        Some(obstacle) => Ok(Some(obstacle)),
        None => {
            sweep_if_opened(alloc, hour, grid, rooms)?;
            Ok(None)
        }
    }
}
