//! Deals of a period are made.

ghost use Rattle.std.specs.Prelude.{◌≡◌, ◌++◌, false, None, IfOk, OnErr, OnOk};
ghost use Rattle.block_match.specs.Market.{deal_events};
ghost use Rattle.desk_changes.specs.Quiet.{HasNoLeg};
ghost use Rattle.laws_of_boards.specs.Settled.{IsSettled};
ghost use Rattle.laws_of_joint_commands.specs.EnteringBlocks.{AreClosed};
ghost use Rattle.laws_of_joint_commands.specs.MatchingBlocks.{legs_of};
ghost use Rattle.kept_hour.specs.Planned.{CanFollow, IsUnplanned, after_events, with_planned};
ghost use Rattle.kept_hour.specs.State.{undone};
ghost use Rattle.desk_changes.specs.Plans as plans;

use crate::leg_openings::may_open;
use crate::sweeping::sweep_if;
use block_match::BlockDeal;
use kept_hour::KeptHour;
use std::alloc::Global;
use zone_graph::{Grid, NoMemory};

/// Plans the legs of some deals of a period, this hour among its hours, and the sweep of the hour.
///
/// Nothing is planned before, and nothing is left to trade. Each deal can follow those before it; in the
/// first hour of the period each closes both its blocks.
///
/// # Errors
///
/// [`NoMemory`] where memory runs out; nothing is planned then.
pub fn make_deals(
    alloc: Global,
    hour: &mut KeptHour,
    grid: &Grid,
    first: u32,
    last: u32,
    deals: &[BlockDeal],
) -> Result<(), NoMemory>
    requires grid { grid.now ≡ hour.old.board.grid }
    requires unplanned { IsUnplanned hour.old }
    requires next { CanFollow hour.old (legs_of first last deals.now) }
    requires whole { hour.old.board.hour ≡ first → plans.CloseInTurn first last hour.old.board.events deals.now }
    requires quiet { IsSettled grid.now hour.old.board.hour hour.old.settled }
    ensures planned { OnOk result (hour.new ≡ with_planned hour.old (plans.then_sweep_all grid.now hour.old (legs_of first last deals.now))) }
    ensures unchanged { OnErr result (hour.new ≡ hour.old) }
{
    match make_all(hour, first, last, deals) {
        Ok(opened) => sweep_if(alloc, hour, grid, opened),
        Err(error) => {
            hour.undo();
            Err(error)
        }
    }
}

// Makes some deals, one after the other. Answers whether one of their legs may have given an arc its
// first room. No order is in hand.
//
// Where memory runs out, some of them may be made.
fn make_all(
    hour: &mut KeptHour,
    first: u32,
    last: u32,
    deals: &[BlockDeal],
) -> Result<bool, NoMemory>
    requires free { hour.old.board.hand ≡ None }
    requires next { CanFollow hour.old (legs_of first last deals.now) }
    requires whole { hour.old.board.hour ≡ first → plans.CloseInTurn first last hour.old.board.events deals.now }
    requires quiet { HasNoLeg hour.old.board.grid hour.old.board.hour hour.old.board.events }
    ensures made { OnOk result (hour.new ≡ after_events hour.old (legs_of first last deals.now)) }
    ensures quiet { IfOk result (λ opened. opened ≡ false → HasNoLeg hour.new.board.grid hour.new.board.hour hour.new.board.events) }
    ensures planned { OnErr result (undone hour.new ≡ undone hour.old) }
{
    let mut opened = false;
    for deal in deals {
        let opens = make_deal(hour, first, last, deal)?;
        opened = opened || opens;
    }
    Ok(opened)
}

/// Makes a deal of a period, this hour among its hours. Answers whether one of its legs may have given an
/// arc its first room. No order is in hand.
///
/// # Errors
///
/// [`NoMemory`] where memory runs out, and then nothing changes.
pub(crate) fn make_deal(
    hour: &mut KeptHour,
    first: u32,
    last: u32,
    deal: &BlockDeal,
) -> Result<bool, NoMemory>
    requires free { hour.old.board.hand ≡ None }
    requires next { CanFollow hour.old (deal_events first last deal.now) }
    requires whole { hour.old.board.hour ≡ first → AreClosed first deal.now (hour.old.board.events ++ deal_events first last deal.now) }
    ensures made { OnOk result (hour.new ≡ after_events hour.old (deal_events first last deal.now)) }
    ensures quiet { IfOk result (λ opened. opened ≡ false → HasNoLeg hour.old.board.grid hour.old.board.hour hour.old.board.events
        → HasNoLeg hour.new.board.grid hour.new.board.hour hour.new.board.events) }
    ensures unchanged { OnErr result (hour.new ≡ hour.old) }
{
    let opened = may_open(hour, deal.legs.as_slice());
    hour.deal(first, last, deal)?;
    Ok(opened)
}
