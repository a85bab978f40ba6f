//! Commands over a range of hours: offers, requests, halts and resumptions.

ghost use Rattle.std.specs.Prelude.{◌≡◌, IfOk, List, OnErr};
ghost use Rattle.market_model.specs.declared.event.Event.{Event as AnEvent};
ghost use Rattle.market_model.specs.declared.reply.Reply.TheVariants as replies;
ghost use Rattle.market_model.specs.History.{events_of};
ghost use Rattle.market_model.specs.Market.{reply_to};
ghost use Rattle.hour_desk.specs.Ranges.{IsOverRange};
ghost use Rattle.joint_plan.specs.Rows.{AreAsked, IsHistoryOf, dropped, planning_all};

use crate::desks::Desks;
use crate::parts::plan_over;
use crate::refusing::refuse_by_state;
use crate::undoing::refuse;
use hour_desk::range_work;
use market_model::{Command, Reply, Setup};
use std::alloc::Global;
use zone_graph::{Grid, NoMemory};

/// Plans a caller's command over a range of hours, and answers the market's reply to it.
///
/// # Errors
///
/// [`NoMemory`] where memory runs out; some hours may have their part planned then.
pub(crate) fn plan_range<D: Desks>(
    alloc: Global,
    row: &mut D,
    grid: &Grid,
    setup: &Setup,
    caller: u32,
    command: &Command,
) -> Result<Reply, NoMemory>
    requires asked { AreAsked setup.now grid.now caller command.now (D.desks row.old) }
    requires range { IsOverRange command.now }
    ensures reply { (history : List AnEvent) → IsHistoryOf setup.now (D.desks row.old) history → IfOk result (λ reply. reply ≡ reply_to setup.now history caller command.now) }
    ensures planned { IfOk result (λ reply. D.desks row.new ≡ planning_all (D.desks row.old) (events_of reply)) }
    ensures failed { OnErr result (dropped (D.desks row.new) ≡ dropped (D.desks row.old)) }
    ensures rest { D.rest row.new ≡ D.rest row.old }
{
    if let Some(refusal) = refuse_by_state(row, grid, command) {
        return Ok(refuse(row, refusal));
    }
    match range_work(grid, command) {
        Some(work) => {
            let events = plan_over(alloc, row, grid, &work)?;
            Ok(Reply::Done(events))
        }
        None => unreachable!(),
    }
}
