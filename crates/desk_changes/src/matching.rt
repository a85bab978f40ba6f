//! The deals of the resting blocks of a period are found and made.

ghost use Rattle.std.specs.Prelude.{◌≡◌, false, None, IfOk, OnErr, length};
ghost use Rattle.desk_changes.specs.Quiet.{HasNoLeg};
ghost use Rattle.laws_of_boards.specs.Settled.{IsSettled};
ghost use Rattle.laws_of_joint_commands.specs.MatchingBlocks.{legs_of};
ghost use Rattle.kept_hour.specs.Planned.{IsUnplanned, after_events, with_planned};
ghost use Rattle.kept_hour.specs.State.{undone};
ghost use Rattle.zone_graph.specs.Graph.{border_count};
ghost use Rattle.desk_changes.specs.Periods as periods;
ghost use Rattle.desk_changes.specs.Plans as plans;

use crate::dealing::make_deal;
use crate::rooms::carry_each;
use crate::sweeping::sweep_if;
use block_match::{BlockDeal, match_resting};
use kept_hour::KeptHour;
use std::alloc::Global;
use zone_graph::{Grid, NoMemory, Rooms};

/// Finds the deals of the resting blocks of a period, whose first hour this is, one after the other within
/// the rooms of the period, and plans them with the sweep of the hour. They are answered. The rooms are
/// left as the deals leave them.
///
/// Nothing is planned before, and nothing is left to trade.
///
/// # Errors
///
/// [`NoMemory`] where memory runs out; nothing is planned then, and the rooms may be those after some of
/// the deals.
pub fn match_period(
    alloc: Global,
    hour: &mut KeptHour,
    grid: &Grid,
    rooms: &mut Rooms,
    last: u32,
) -> Result<Vec<BlockDeal>, NoMemory>
    requires grid { grid.now ≡ hour.old.board.grid }
    requires unplanned { IsUnplanned hour.old }
    requires size { length rooms.old ≡ border_count grid.now }
    requires first { periods.IsFirstOfPeriod grid.now hour.old.board.hour last hour.old.settled rooms.old }
    requires quiet { IsSettled grid.now hour.old.board.hour hour.old.settled }
    ensures deals { IfOk result (λ deals. periods.AreDealsOf grid.now hour.old.board.hour last hour.old.settled rooms.old deals.items) }
    ensures planned { IfOk result (λ deals. hour.new ≡ with_planned hour.old (plans.then_sweep_all grid.now hour.old (legs_of hour.old.board.hour last deals.items))) }
    ensures rooms { IfOk result (λ deals. periods.AreRoomsAfter grid.now hour.old.board.hour last hour.old.settled rooms.old deals.items rooms.new) }
    ensures size { length rooms.new ≡ length rooms.old }
    ensures unchanged { OnErr result (hour.new ≡ hour.old) }
{
    match deal_all(alloc, hour, grid, rooms, last) {
        Ok(Dealt { deals, opened }) => {
            sweep_if(alloc, hour, grid, opened)?;
            Ok(deals)
        }
        Err(error) => {
            hour.undo();
            Err(error)
        }
    }
}

// The deals that were made, and whether one of their legs may have given an arc its first room.
#[derive(Drop)]
struct Dealt {
    deals: Vec<BlockDeal>,
    opened: bool,
}

// Finds the deals of a period and makes them, one after the other. No order is in hand.
//
// Where memory runs out, some of them may be made.
fn deal_all(
    alloc: Global,
    hour: &mut KeptHour,
    grid: &Grid,
    rooms: &mut Rooms,
    last: u32,
) -> Result<Dealt, NoMemory>
    requires grid { grid.now ≡ hour.old.board.grid }
    requires free { hour.old.board.hand ≡ None }
    requires size { length rooms.old ≡ border_count grid.now }
    requires first { periods.IsFirstOfPeriod grid.now hour.old.board.hour last hour.old.board.events rooms.old }
    requires quiet { HasNoLeg hour.old.board.grid hour.old.board.hour hour.old.board.events }
    ensures deals { IfOk result (λ dealt. periods.AreDealsOf grid.now hour.old.board.hour last hour.old.board.events rooms.old dealt.deals.items) }
    ensures made { IfOk result (λ dealt. hour.new ≡ after_events hour.old (legs_of hour.old.board.hour last dealt.deals.items)) }
    ensures rooms { IfOk result (λ dealt. periods.AreRoomsAfter grid.now hour.old.board.hour last hour.old.board.events rooms.old dealt.deals.items rooms.new) }
    ensures size { length rooms.new ≡ length rooms.old }
    ensures quiet { IfOk result (λ dealt. dealt.opened ≡ false → HasNoLeg hour.new.board.grid hour.new.board.hour hour.new.board.events) }
    ensures planned { OnErr result (undone hour.new ≡ undone hour.old) }
{
    let first = hour.hour();
    let mut deals = Vec::new(alloc);
    let mut opened = false;
    while let Some(deal) = match_resting(alloc, grid, hour.blocks(), rooms, last)? {
        let opens = make_deal(hour, first, last, &deal)?;
        opened = opened || opens;
        carry_each(rooms, deal.legs.as_slice());
        deals.push(deal)?;
    }
    Ok(Dealt { deals, opened })
}
