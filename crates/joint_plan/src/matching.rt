//! Resting blocks that are matched.

ghost use Rattle.std.specs.Prelude.{◌≡◌, ◌<◌, ◌≤◌, IfOk, List, OnErr, Some, length, slice_get, slice_set};
ghost use Rattle.market_model.specs.declared.command.Command.TheVariants as commands;
ghost use Rattle.market_model.specs.declared.event.Event.{Event as AnEvent};
ghost use Rattle.market_model.specs.History.{events_of};
ghost use Rattle.market_model.specs.Market.{reply_to};
ghost use Rattle.laws_of_joint_commands.specs.MatchingBlocks.{legs_of};
ghost use Rattle.hour_desk.specs.Periods.{AreDealsOf};
ghost use Rattle.hour_desk.specs.Desk.{DeskState, planned_events, planning, with_nothing_planned};
ghost use Rattle.hour_desk.specs.Shared.{then_swept};
ghost use Rattle.joint_plan.specs.Rooms.{CanMatch};
ghost use Rattle.joint_plan.specs.Rows.{AreAsked, IsHistoryOf, dropped, planning_all};

use crate::desks::Desks;
use crate::parts::{legs_in, plan_others};
use crate::period_rooms::period_rooms;
use crate::refusing::refuse_closed;
use crate::undoing::refuse;
use hour_desk::{BlockDeals, PartWork, events_from};
use market_model::{Events, Reply, Setup};
use std::alloc::Global;
use zone_graph::{Grid, NoMemory, Rooms};

/// Plans that the resting blocks of a period are matched, and answers the market's reply to a caller that asks for it.
///
/// # Errors
///
/// [`NoMemory`] where memory runs out; some hours may have their part planned then.
pub(crate) fn plan_matching<D: Desks>(
    alloc: Global,
    row: &mut D,
    grid: &Grid,
    setup: &Setup,
    caller: u32,
    first: u32,
    last: u32,
) -> Result<Reply, NoMemory>
    requires asked { AreAsked setup.now grid.now caller (commands.Blocks first last) (D.desks row.old) }
    ensures reply { (history : List AnEvent) → IsHistoryOf setup.now (D.desks row.old) history → IfOk result (λ reply. reply ≡ reply_to setup.now history caller (commands.Blocks first last)) }
    ensures planned { IfOk result (λ reply. D.desks row.new ≡ planning_all (D.desks row.old) (events_of reply)) }
    ensures failed { OnErr result (dropped (D.desks row.new) ≡ dropped (D.desks row.old)) }
    ensures rest { D.rest row.new ≡ D.rest row.old }
{
    if let Some(refusal) = refuse_closed(row) {
        return Ok(refuse(row, refusal));
    }
    let mut rooms = period_rooms(row, grid)?;
    let deals = match_first(row, grid, &mut rooms, last)?;
    let planned = planned_at_first(alloc, row)?;
    let legs = legs_in(first, last, deals.as_slice(), planned.len());
    let work = PartWork::Block {
        first,
        last,
        entered: None,
        deals,
    };
    let events = plan_others(alloc, row, grid, &work, legs, planned)?;
    Ok(Reply::Done(events))
}

// Finds and plans the deals of the period on its first desk, with the sweep of its hour. The rooms are those of the
// period, and are left as the deals leave them.
fn match_first<D: Desks>(
    row: &mut D,
    grid: &Grid,
    rooms: &mut Rooms,
    last: u32,
) -> Result<BlockDeals, NoMemory>
    requires some { 0 < length (D.desks row.old) }
    requires can { (desk : DeskState) → slice_get (D.desks row.old) 0 ≡ Some desk → CanMatch grid.now last rooms.old desk }
    ensures deals { (desk : DeskState) → slice_get (D.desks row.old) 0 ≡ Some desk → IfOk result (λ deals. AreDealsOf desk.grid desk.hour last desk.settled rooms.old deals) }
    ensures planned { (desk : DeskState) → slice_get (D.desks row.old) 0 ≡ Some desk
        → IfOk result (λ deals. D.desks row.new ≡ slice_set (D.desks row.old) 0 (planning desk (then_swept desk (legs_of desk.hour last deals)))) }
    ensures failed { (desk : DeskState) → slice_get (D.desks row.old) 0 ≡ Some desk → OnErr result (D.desks row.new ≡ slice_set (D.desks row.old) 0 (with_nothing_planned desk)) }
    ensures rest { D.rest row.new ≡ D.rest row.old }
{
    row.desk_mut(0).match_blocks(grid, rooms, last)
}

// The events that the first desk plans.
fn planned_at_first<D: Desks>(alloc: Global, row: &D) -> Result<Events, NoMemory>
    requires { 0 < length (D.desks row.now) }
    ensures { (desk : DeskState) → slice_get (D.desks row.now) 0 ≡ Some desk → IfOk result (λ events. events ≡ planned_events desk) }
{
    events_from(alloc, row.desk(0).planned(), 0)
}
