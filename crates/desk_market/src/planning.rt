//! A command is planned on the desks of the hours that it touches.

ghost use Rattle.std.specs.Prelude.{◌≡◌, ◌<◌, IfOk, OnErr, length};
ghost use Rattle.market_model.specs.Grid.{graph_of};
ghost use Rattle.market_model.specs.History.{events_of, journal_events};
ghost use Rattle.market_model.specs.HourSet.{IsSetOf};
ghost use Rattle.market_model.specs.Market.{reply_to};
ghost use Rattle.market_model.specs.Rules.{touched_hours};
ghost use Rattle.desk_market.specs.Standing as standing;

use crate::day::DayDesks;
use basket_match::{plan_basket, plan_joint};
use market_model::{Command, Hours, Reply, refuse_early, touches};
use std::alloc::Global;
use trade_journal::Journal;
use zone_graph::{Grid, NoMemory};

/// Plans a caller's command on the desks of the hours that it touches, which are chosen then, and answers the
/// market's reply after a journal. Where a rule refuses the command by itself no desk is chosen, and nothing is planned.
/// The desks stand after the journal.
///
/// # Errors
///
/// [`NoMemory`] where memory runs out; nothing is planned then.
pub(crate) fn plan(
    alloc: Global,
    day: &mut DayDesks,
    grid: &Grid,
    journal: &Journal,
    caller: u32,
    command: &Command,
) -> Result<Reply, NoMemory>
    requires grid { grid.now ≡ graph_of journal.now.setup }
    requires of_day { standing.IsOfDay journal.now.setup }
    requires stand { day.old.desks ≡ standing.settled_desks journal.now.setup journal.now.entries }
    requires known { caller < length journal.now.setup.callers }
    ensures reply { IfOk result (λ reply. reply ≡ reply_to journal.now.setup (journal_events journal.now.entries) caller command.now) }
    ensures planned { IfOk result (λ reply. day.new.desks ≡ standing.planned_desks journal.now.setup journal.now.entries (standing.planned_hours journal.now.setup caller command.now) (events_of reply)) }
    ensures chosen { IsSetOf (standing.planned_hours journal.now.setup caller command.now) day.new.chosen }
    ensures failed { OnErr result (day.new.desks ≡ day.old.desks) }
{
    // It shows that the journal is legal.
    let _ = journal.entries();
    let setup = journal.setup();
    match refuse_early(grid, setup, caller, command) {
        Some(refusal) => {
            day.choose(Hours::EMPTY);
            Ok(Reply::Refused(refusal))
        }
        None => {
            day.choose(touches(grid, setup, caller, command));
            plan_chosen(alloc, day, grid, journal, caller, command)
        }
    }
}

// The same for a command that breaks no rule by itself, on the desks that are chosen for it.
fn plan_chosen(
    alloc: Global,
    day: &mut DayDesks,
    grid: &Grid,
    journal: &Journal,
    caller: u32,
    command: &Command,
) -> Result<Reply, NoMemory>
    requires grid { grid.now ≡ graph_of journal.now.setup }
    requires known { caller < length journal.now.setup.callers }
    requires chosen { standing.IsChosen journal.now.setup journal.now.entries caller command.now day.old }
    ensures reply { IfOk result (λ reply. reply ≡ reply_to journal.now.setup (journal_events journal.now.entries) caller command.now) }
    ensures planned { IfOk result (λ reply. day.new.desks ≡ standing.planned_desks journal.now.setup journal.now.entries (touched_hours journal.now.setup caller command.now) (events_of reply)) }
    ensures chosen { day.new.chosen ≡ day.old.chosen }
    ensures failed { OnErr result (day.new.desks ≡ day.old.desks) }
{
    let setup = journal.setup();
    match command {
        Command::EnterBasket { orders } => plan_basket(alloc, day, grid, setup, caller, orders),
        _ => plan_joint(alloc, day, grid, setup, caller, command),
    }
}
