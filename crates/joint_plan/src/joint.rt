//! Commands are planned on the desks of the hours that they touch.

ghost use Rattle.std.specs.Prelude.{◌≡◌, ℕ, ◌<◌, None, IfOk, List, OnErr, length};
ghost use Rattle.market_model.specs.declared.entry.Entry.{Entry as AnEntry};
ghost use Rattle.market_model.specs.declared.event.Event.{Event as AnEvent};
ghost use Rattle.market_model.specs.declared.refusal.Refusal.TheVariants as refusals;
ghost use Rattle.market_model.specs.declared.reply.Reply.TheVariants as replies;
ghost use Rattle.market_model.specs.History.{events_of, journal_events};
ghost use Rattle.market_model.specs.Market.{reply_to};
ghost use Rattle.market_model.specs.Rules.{early_refusal, touched_hours};
ghost use Rattle.laws_of_maximum.specs.Unfilled.{IsUnfilledOrder};
ghost use Rattle.joint_plan.specs.Kinds.{IsNoBasket};
ghost use Rattle.joint_plan.specs.Rows.{AreAsked, AreReady, IsHistoryOf, IsJournalOf, dropped, hours_of, planning_all};

use crate::alone::plan_alone;
use crate::desks::Desks;
use crate::entering::plan_entry;
use crate::matching::plan_matching;
use crate::ranges::plan_range;
use crate::undoing::undo_all;
use market_model::{Command, Reply, Setup};
use std::alloc::Global;
use zone_graph::{Grid, NoMemory};

/// Plans a caller's command, which breaks no rule by itself and is no basket, on the desks of the hours that it touches,
/// by ascending hour. Answers the market's reply to it after the journal, and each desk plans, behind its settled
/// events, those of the reply that are of its hour: none where the command is refused. What was planned before is
/// dropped first.
///
/// It refuses as [`Unfilled`](market_model::Refusal::Unfilled) a fill-or-kill order alone, with the zones that are still
/// in reach where its taking would end, and with their bound: it is below the order's quantity, and so is the value of
/// every flow plan for it.
///
/// The setup's zones and borders are the grid of the desks, and the settled events of each are those that a legal
/// journal of the setup leaves for its hour.
///
/// # Errors
///
/// [`NoMemory`] where memory runs out; no desk has anything planned then.
pub fn plan_joint<D: Desks>(
    alloc: Global,
    row: &mut D,
    grid: &Grid,
    setup: &Setup,
    caller: u32,
    command: &Command,
) -> Result<Reply, NoMemory>
    requires ready { AreReady setup.now grid.now (D.desks row.old) }
    requires known { caller < length setup.now.callers }
    requires early { early_refusal setup.now caller command.now ≡ None }
    requires kind { IsNoBasket command.now }
    requires hours { hours_of (D.desks row.old) ≡ touched_hours setup.now caller command.now }
    ensures reply { (entries : List AnEntry) → IsJournalOf setup.now (D.desks row.old) entries
        → IfOk result (λ reply. reply ≡ reply_to setup.now (journal_events entries) caller command.now) }
    ensures certified { (entries : List AnEntry) → IsJournalOf setup.now (D.desks row.old) entries
        → IfOk result (λ reply. (zones : List ℕ) (bound : ℕ) → reply ≡ replies.Refused (refusals.Unfilled zones bound)
        → IsUnfilledOrder grid.now (journal_events entries) caller command.now zones bound) }
    ensures planned { IfOk result (λ reply. D.desks row.new ≡ planning_all (D.desks row.old) (events_of reply)) }
    ensures failed { OnErr result (D.desks row.new ≡ dropped (D.desks row.old)) }
    ensures rest { D.rest row.new ≡ D.rest row.old }
{
    undo_all(row);
    match plan_asked(alloc, row, grid, setup, caller, command) {
        Ok(reply) => Ok(reply),
        Err(error) => {
            undo_all(row);
            Err(error)
        }
    }
}

// The same, where nothing is planned. Where memory runs out some desks may have something planned.
fn plan_asked<D: Desks>(
    alloc: Global,
    row: &mut D,
    grid: &Grid,
    setup: &Setup,
    caller: u32,
    command: &Command,
) -> Result<Reply, NoMemory>
    requires asked { AreAsked setup.now grid.now caller command.now (D.desks row.old) }
    requires known { caller < length setup.now.callers }
    requires kind { IsNoBasket command.now }
    ensures reply { (history : List AnEvent) → IsHistoryOf setup.now (D.desks row.old) history → IfOk result (λ reply. reply ≡ reply_to setup.now history caller command.now) }
    ensures planned { IfOk result (λ reply. D.desks row.new ≡ planning_all (D.desks row.old) (events_of reply)) }
    ensures failed { OnErr result (dropped (D.desks row.new) ≡ dropped (D.desks row.old)) }
    ensures rest { D.rest row.new ≡ D.rest row.old }
{
    if row.len() == 1 {
        return plan_alone(row, grid, setup, caller, command);
    }
    match command {
        Command::Offer { .. }
        | Command::Request { .. }
        | Command::Halt { .. }
        | Command::Resume { .. } => plan_range(alloc, row, grid, setup, caller, command),
        Command::EnterBlock { order } => plan_entry(alloc, row, grid, setup, caller, order),
        Command::Blocks { first, last } => {
            plan_matching(alloc, row, grid, setup, caller, *first, *last)
        }
        Command::Enter { .. }
        | Command::EnterBasket { .. }
        | Command::Cancel { .. }
        | Command::Reduce { .. }
        | Command::Gate { .. }
        | Command::View { .. } => unreachable!(),
    }
}
