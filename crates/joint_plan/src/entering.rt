//! Blocks that enter.

ghost use Rattle.std.specs.Prelude.{◌≡◌, ◌<◌, ◌∷◌, ◌++◌, ℕ, IfOk, List, OnErr, OnOk, Some, drop, flat_map, length, map, slice_get};
ghost use Rattle.std.specs.Option.{option_to_list};
ghost use Rattle.zone_graph.specs.Route.{IsIn};
ghost use Rattle.market_model.specs.declared.command.Command.TheVariants as commands;
ghost use Rattle.market_model.specs.declared.event.Event.{Event as AnEvent};
ghost use Rattle.market_model.specs.History.{events_of};
ghost use Rattle.market_model.specs.Market.{reply_to};
ghost use Rattle.laws_of_joint_commands.specs.MatchingBlocks.{legs_of};
ghost use Rattle.hour_desk.specs.Desk.{DeskState};
ghost use Rattle.hour_desk.specs.Shared.{part_events};
ghost use Rattle.joint_plan.specs.Entering as entering;
ghost use Rattle.joint_plan.specs.Rows.{AreAsked, IsHistoryOf, dropped, planning_all};
ghost use Rattle.joint_plan.specs.Works as works;

use crate::desks::Desks;
use crate::parts::{plan_at, plan_others};
use crate::period_rooms::period_rooms;
use crate::refusing::refuse_closed;
use crate::undoing::refuse;
use block_match::{BlockDeal, match_block};
use hour_desk::{BlockDeals, BlockEntry, PartWork, entered_block};
use market_model::{Events, Refusal, Reply, Setup};
use order_kinds::BlockOrder;
use std::alloc::Global;
use zone_graph::{Grid, NoMemory, Rooms};

/// Plans a caller's block that enters, and answers the market's reply to it.
///
/// # Errors
///
/// [`NoMemory`] where memory runs out; some hours may have their part planned then.
pub(crate) fn plan_entry<D: Desks>(
    alloc: Global,
    row: &mut D,
    grid: &Grid,
    setup: &Setup,
    caller: u32,
    order: &BlockOrder,
) -> Result<Reply, NoMemory>
    requires asked { AreAsked setup.now grid.now caller (commands.EnterBlock order.now) (D.desks row.old) }
    ensures reply { (history : List AnEvent) → IsHistoryOf setup.now (D.desks row.old) history → IfOk result (λ reply. reply ≡ reply_to setup.now history caller (commands.EnterBlock order.now)) }
    ensures planned { IfOk result (λ reply. D.desks row.new ≡ planning_all (D.desks row.old) (events_of reply)) }
    ensures failed { OnErr result (dropped (D.desks row.new) ≡ dropped (D.desks row.old)) }
    ensures rest { D.rest row.new ≡ D.rest row.old }
{
    if let Some(refusal) = refuse_closed(row) {
        return Ok(refuse(row, refusal));
    }
    let rooms = period_rooms(row, grid)?;
    let deal = find_deal(alloc, row, grid, &rooms, caller, order)?;
    if let Some(refusal) = refuse_full(row, &deal) {
        return Ok(refuse(row, refusal));
    }
    let events = plan_entered(alloc, row, grid, caller, order, deal)?;
    Ok(Reply::Done(events))
}

// The deal that a block finds on the desk of its first hour as it enters, within the rooms of its period.
fn find_deal<D: Desks>(
    alloc: Global,
    row: &D,
    grid: &Grid,
    rooms: &Rooms,
    caller: u32,
    order: &BlockOrder,
) -> Result<Option<BlockDeal>, NoMemory>
    requires some { 0 < length (D.desks row.now) }
    requires can { (desk : DeskState) → slice_get (D.desks row.now) 0 ≡ Some desk → entering.CanSeek grid.now rooms.now order.now desk }
    ensures { (desk : DeskState) → slice_get (D.desks row.now) 0 ≡ Some desk → IfOk result (λ deal. deal ≡ entering.deal_within grid.now rooms.now caller order.now desk) }
{
    let desk = row.desk(0);
    let number = desk.next_number();
    let moment = desk.settled().len() as u64 + 1;
    let block = entered_block(number, caller, order, moment);
    match_block(alloc, grid, desk.blocks(), rooms, &block)
}

// The refusal of a block that finds no deal and has no room on the desk of its first hour.
fn refuse_full<D: Desks>(row: &D, deal: &Option<BlockDeal>) -> Option<Refusal>
    requires some { 0 < length (D.desks row.now) }
    requires unplanned { (desk : DeskState) → slice_get (D.desks row.now) 0 ≡ Some desk → desk.planned ≡ None }
    ensures { (desk : DeskState) → slice_get (D.desks row.now) 0 ≡ Some desk → result ≡ entering.full_refusal deal.now desk }
{
    match deal {
        Some(_) => None,
        None => {
            if row.desk(0).open() < 4096 {
                None
            } else {
                Some(Refusal::DeskFull)
            }
        }
    }
}

// Plans the entry of a block on its first desk, with the deal that it has found, and the deal on each other one. Answers
// the events: those of the first hour, and then the sweeps of the others.
fn plan_entered<D: Desks>(
    alloc: Global,
    row: &mut D,
    grid: &Grid,
    caller: u32,
    order: &BlockOrder,
    deal: Option<BlockDeal>,
) -> Result<Events, NoMemory>
    requires some { 0 < length (D.desks row.old) }
    requires first { (desk : DeskState) → slice_get (D.desks row.old) 0 ≡ Some desk → works.CanPlanPart grid.now (entering.first_work caller order.now (option_to_list deal)) desk }
    requires others { (desk : DeskState) → IsIn desk (drop 1 (D.desks row.old)) → works.CanPlanPart grid.now (entering.other_work order.now (option_to_list deal)) desk }
    ensures events { (desk : DeskState) → slice_get (D.desks row.old) 0 ≡ Some desk
        → IfOk result (λ events. events ≡ part_events desk (entering.first_work caller order.now (option_to_list deal)) ++ flat_map (works.swept (entering.other_work order.now (option_to_list deal))) (drop 1 (D.desks row.old))) }
    ensures planned { (desk : DeskState) → slice_get (D.desks row.old) 0 ≡ Some desk
        → OnOk result (D.desks row.new ≡ works.with_part (entering.first_work caller order.now (option_to_list deal)) desk ∷ map (works.with_part (entering.other_work order.now (option_to_list deal))) (drop 1 (D.desks row.old))) }
    ensures failed { OnErr result (dropped (D.desks row.new) ≡ dropped (D.desks row.old)) }
    ensures rest { D.rest row.new ≡ D.rest row.old }
{
    let legs = legs_of_deal(order.first, order.last, &deal);
    let work = PartWork::Block {
        first: order.first,
        last: order.last,
        entered: Some(BlockEntry {
            caller,
            order: *order,
        }),
        deals: deals_of(alloc, deal)?,
    };
    let first = plan_at(row, grid, 0, &work)?;
    let work = without_entry(work);
    plan_others(alloc, row, grid, &work, legs, first)
}

// The deal, if there is one, in a list.
fn deals_of(alloc: Global, deal: Option<BlockDeal>) -> Result<BlockDeals, NoMemory>
    ensures { IfOk result (λ deals. deals ≡ option_to_list deal) }
{
    let mut deals = BlockDeals::new(alloc);
    if let Some(deal) = deal {
        deals.push(deal)?;
    }
    Ok(deals)
}

// How many legs the deal of a period has, if there is one.
fn legs_of_deal(first: u32, last: u32, deal: &Option<BlockDeal>) -> usize
    ensures { length (legs_of first last (option_to_list deal.now)) ≡ result }
{
    match deal {
        Some(deal) => deal.legs.len(),
        None => 0,
    }
}

// The same work without an entry.
fn without_entry(work: PartWork) -> PartWork
    ensures { result ≡ entering.without_entry work }
{
    match work {
        PartWork::Block {
            first,
            last,
            entered: _,
            deals,
        } => PartWork::Block {
            first,
            last,
            entered: None,
            deals,
        },
        other => other,
    }
}
