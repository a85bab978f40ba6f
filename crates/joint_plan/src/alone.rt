//! Commands that touch one hour alone.

ghost use Rattle.std.specs.Prelude.{◌≡◌, ◌<◌, IfOk, List, OnErr, length};
ghost use Rattle.market_model.specs.declared.event.Event.{Event as AnEvent};
ghost use Rattle.market_model.specs.History.{events_of};
ghost use Rattle.market_model.specs.Market.{reply_to};
ghost use Rattle.joint_plan.specs.Rows.{AreAsked, IsHistoryOf, dropped, planning_all};

use crate::desks::Desks;
use market_model::{Command, Reply, Setup};
use zone_graph::{Grid, NoMemory};

/// Plans a caller's command on the one desk that there is, and answers the market's reply to it.
///
/// # Errors
///
/// [`NoMemory`] where memory runs out; nothing is planned then.
pub(crate) fn plan_alone<D: Desks>(
    row: &mut D,
    grid: &Grid,
    setup: &Setup,
    caller: u32,
    command: &Command,
) -> Result<Reply, NoMemory>
    requires asked { AreAsked setup.now grid.now caller command.now (D.desks row.old) }
    requires known { caller < length setup.now.callers }
    requires one { length (D.desks row.old) ≡ 1 }
    ensures reply { (history : List AnEvent) → IsHistoryOf setup.now (D.desks row.old) history → IfOk result (λ reply. reply ≡ reply_to setup.now history caller command.now) }
    ensures planned { IfOk result (λ reply. D.desks row.new ≡ planning_all (D.desks row.old) (events_of reply)) }
    ensures failed { OnErr result (dropped (D.desks row.new) ≡ dropped (D.desks row.old)) }
    ensures rest { D.rest row.new ≡ D.rest row.old }
{
    row.desk_mut(0).plan(grid, setup, caller, command)
}
