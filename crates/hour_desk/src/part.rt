//! What an hour shares with others of what happens in several hours, and then its own sweep.

ghost use Rattle.std.specs.Prelude.{◌≡◌, ◌<◌, ◌-◌, ◌^◌, IfOk, OnErr, OnOk, false, length};
ghost use Rattle.zone_graph.specs.Graph.{border_count};
ghost use Rattle.laws_of_boards.specs.Settled.{IsSettled};
ghost use Rattle.desk_changes.specs.Kept.{names_given};
ghost use Rattle.desk_changes.specs.Planned.{CanFollow, IsUnplanned, with_planned};
ghost use Rattle.desk_changes.specs.State.{settled_board};
ghost use Rattle.desk_views.specs.Desk.{forgotten};
ghost use Rattle.desk_views.specs.Standing.{IsNext, StandAt};
ghost use Rattle.desk_changes.specs.Periods as periods;
ghost use Rattle.laws_of_joint_commands.specs.MatchingBlocks.{legs_of};
ghost use Rattle.hour_desk.specs.Insides.{desk_of};
ghost use Rattle.hour_desk.specs.Shared as shared;

use crate::part_work::{BlockDeals, BlockEntry, PartWork};
use crate::replying::{refresh, told};
use block_match::BlockDeal;
use desk_changes::{KeptHour, enter_block, grant, halt, make_deals, match_period, offer, resume};
use desk_views::DeskViews;
use market_model::Events;
use std::alloc::Global;
use zone_graph::{Grid, NoMemory, Rooms};

/// Plans an hour's part of a command that touches several hours, makes what comes of it for the hour's views,
/// and answers the events. Nothing is planned and nothing is next before.
///
/// # Errors
///
/// [`NoMemory`] where memory runs out; nothing is planned and nothing is next then.
pub(crate) fn share_and_refresh(
    alloc: Global,
    hour: &mut KeptHour,
    views: &mut DeskViews,
    grid: &Grid,
    work: &PartWork,
) -> Result<Events, NoMemory>
    requires grid { grid.now ≡ hour.old.board.grid }
    requires seven { hour.old.board.parts ≡ 7 }
    requires unplanned { IsUnplanned hour.old }
    requires few { names_given hour.old.board < 2 ^ 32 - 1 }
    requires quiet { IsSettled grid.now hour.old.board.hour hour.old.settled }
    requires can { shared.CanShare (desk_of hour.old false) work.now }
    requires stands { StandAt (settled_board hour.old) views.old }
    requires none_next { forgotten views.old ≡ views.old }
    ensures events { IfOk result (λ events. events ≡ shared.part_events (desk_of hour.old false) work.now) }
    ensures planned { OnOk result (hour.new ≡ with_planned hour.old (shared.part_events (desk_of hour.old false) work.now)) }
    ensures next { OnOk result (IsNext hour.new.board views.new) }
    ensures stands { StandAt (settled_board hour.old) views.new }
    ensures quiet { OnOk result (IsSettled hour.new.board.grid hour.new.board.hour hour.new.board.events) }
    ensures unplanned { OnErr result (hour.new ≡ hour.old) }
    ensures none_next { OnErr result (forgotten views.new ≡ views.new) }
{
    share(alloc, hour, grid, work)?;
    let events = told(alloc, hour)?;
    refresh(hour, views, grid)?;
    Ok(events)
}

/// Finds and plans the deals of the resting blocks of a period, whose first hour this is, with the sweep of the hour,
/// makes what comes of it for the hour's views, and answers the deals; the rooms are left as these leave
/// them. Nothing is planned and nothing is next before.
///
/// # Errors
///
/// [`NoMemory`] where memory runs out; nothing is planned and nothing is next then.
pub(crate) fn match_and_refresh(
    alloc: Global,
    hour: &mut KeptHour,
    views: &mut DeskViews,
    grid: &Grid,
    rooms: &mut Rooms,
    last: u32,
) -> Result<BlockDeals, NoMemory>
    requires grid { grid.now ≡ hour.old.board.grid }
    requires unplanned { IsUnplanned hour.old }
    requires quiet { IsSettled grid.now hour.old.board.hour hour.old.settled }
    requires size { length rooms.old ≡ border_count hour.old.board.grid }
    requires period { periods.IsFirstOfPeriod hour.old.board.grid hour.old.board.hour last hour.old.settled rooms.old }
    requires stands { StandAt (settled_board hour.old) views.old }
    requires none_next { forgotten views.old ≡ views.old }
    ensures deals { IfOk result (λ deals. periods.AreDealsOf hour.old.board.grid hour.old.board.hour last hour.old.settled rooms.old deals) }
    ensures planned { IfOk result (λ deals. hour.new ≡ with_planned hour.old (shared.then_swept (desk_of hour.old false) (legs_of hour.old.board.hour last deals))) }
    ensures rooms { IfOk result (λ deals. periods.AreRoomsAfter hour.old.board.grid hour.old.board.hour last hour.old.settled rooms.old deals rooms.new) }
    ensures size { length rooms.new ≡ length rooms.old }
    ensures next { OnOk result (IsNext hour.new.board views.new) }
    ensures stands { StandAt (settled_board hour.old) views.new }
    ensures quiet { OnOk result (IsSettled hour.new.board.grid hour.new.board.hour hour.new.board.events) }
    ensures unplanned { OnErr result (hour.new ≡ hour.old) }
    ensures none_next { OnErr result (forgotten views.new ≡ views.new) }
{
    let deals = match_period(alloc, hour, grid, rooms, last)?;
    refresh(hour, views, grid)?;
    Ok(BlockDeals::from(deals))
}

/// Plans an hour's part of a command over some hours: the events that it shares with them, and then its sweep.
///
/// # Errors
///
/// [`NoMemory`] where memory runs out; nothing is planned then.
pub(crate) fn share(
    alloc: Global,
    hour: &mut KeptHour,
    grid: &Grid,
    work: &PartWork,
) -> Result<(), NoMemory>
    requires grid { grid.now ≡ hour.old.board.grid }
    requires seven { hour.old.board.parts ≡ 7 }
    requires unplanned { IsUnplanned hour.old }
    requires few { names_given hour.old.board < 2 ^ 32 - 1 }
    requires quiet { IsSettled grid.now hour.old.board.hour hour.old.settled }
    requires can { shared.CanShare (desk_of hour.old false) work.now }
    ensures planned { OnOk result (hour.new ≡ with_planned hour.old (shared.part_events (desk_of hour.old false) work.now)) }
    ensures unchanged { OnErr result (hour.new ≡ hour.old) }
{
    match work {
        PartWork::Offer {
            arc,
            first,
            last,
            lots,
        } => offer(alloc, hour, grid, *arc, *first, *last, *lots),
        PartWork::Grant {
            arc,
            first,
            last,
            lots,
        } => grant(alloc, hour, grid, *arc, *first, *last, *lots),
        PartWork::Halt {
            border,
            first,
            last,
        } => halt(hour, *border, *first, *last),
        PartWork::Resume {
            border,
            first,
            last,
        } => resume(alloc, hour, grid, *border, *first, *last),
        PartWork::Block {
            first,
            last,
            entered,
            deals,
        } => share_blocks(alloc, hour, grid, *first, *last, *entered, deals.as_slice()),
    }
}

// The same, for blocks of a period.
fn share_blocks(
    alloc: Global,
    hour: &mut KeptHour,
    grid: &Grid,
    first: u32,
    last: u32,
    entered: Option<BlockEntry>,
    deals: &[BlockDeal],
) -> Result<(), NoMemory>
    requires grid { grid.now ≡ hour.old.board.grid }
    requires seven { hour.old.board.parts ≡ 7 }
    requires unplanned { IsUnplanned hour.old }
    requires few { names_given hour.old.board < 2 ^ 32 - 1 }
    requires quiet { IsSettled grid.now hour.old.board.hour hour.old.settled }
    requires next { CanFollow hour.old (shared.block_events hour.old.settled first last entered deals.now) }
    requires trades { shared.TradesBlocks (desk_of hour.old false) first last entered deals.now }
    ensures planned { OnOk result (hour.new ≡ with_planned hour.old (shared.then_swept (desk_of hour.old false) (shared.block_events hour.old.settled first last entered deals.now))) }
    ensures unchanged { OnErr result (hour.new ≡ hour.old) }
{
    match entered {
        Some(entry) => enter_block(alloc, hour, grid, entry.caller, &entry.order, deals.first()),
        None => make_deals(alloc, hour, grid, first, last, deals),
    }
}
