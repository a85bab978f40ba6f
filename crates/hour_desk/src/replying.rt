//! The reply to a command, with what it does in an hour planned.

ghost use Rattle.std.specs.Prelude.{◌≡◌, ◌<◌, ◌≤◌, ◌-◌, ◌^◌, IfOk, None, OnErr, OnOk, drop, length};
ghost use Rattle.market_model.specs.declared.reply.Reply.TheVariants as reply;
ghost use Rattle.market_model.specs.Board.{IsBoard};
ghost use Rattle.market_model.specs.History.{events_of};
ghost use Rattle.market_model.specs.Market.{reply_to};
ghost use Rattle.market_model.specs.Rules.{early_refusal};
ghost use Rattle.laws_of_boards.specs.Settled.{IsSettled};
ghost use Rattle.desk_changes.specs.Kept.{names_given};
ghost use Rattle.desk_changes.specs.Planned.{with_planned};
ghost use Rattle.desk_changes.specs.State.{settled_board, undone};
ghost use Rattle.desk_views.specs.Desk.{forgotten};
ghost use Rattle.desk_views.specs.Standing.{IsNext, StandAt};
ghost use Rattle.hour_desk.specs.Placed.{CanChange, IsPlaced};

use crate::changing::change;
use crate::copying::{events_from, rows_of};
use desk_changes::{KeptHour, number_of};
use desk_refusals::refuse_by_state;
use desk_views::DeskViews;
use market_model::{Command, Events, Reply, Setup};
use std::alloc::Global;
use zone_graph::{Grid, NoMemory};

/// Plans what a command does in an hour that it touches alone, makes what comes of it for the hour's views,
/// and answers the market's reply. Nothing is planned and nothing is next before.
///
/// # Errors
///
/// [`NoMemory`] where memory runs out; nothing is planned and nothing is next then.
pub(crate) fn reply_and_refresh(
    alloc: Global,
    hour: &mut KeptHour,
    views: &mut DeskViews,
    grid: &Grid,
    setup: &Setup,
    caller: u32,
    command: &Command,
) -> Result<Reply, NoMemory>
    requires grid { grid.now ≡ hour.old.board.grid }
    requires placed { IsPlaced setup.now hour.old caller command.now }
    requires early { early_refusal setup.now caller command.now ≡ None }
    requires few { names_given hour.old.board < 2 ^ 32 - 1 }
    requires stands { StandAt (settled_board hour.old) views.old }
    requires none_next { forgotten views.old ≡ views.old }
    ensures reply { IfOk result (λ reply. reply ≡ reply_to setup.now hour.old.settled caller command.now) }
    ensures planned { OnOk result (hour.new ≡ with_planned hour.old (events_of (reply_to setup.now hour.old.settled caller command.now))) }
    ensures next { OnOk result (IsNext hour.new.board views.new) }
    ensures stands { StandAt (settled_board hour.old) views.new }
    ensures quiet { OnOk result (IsSettled hour.new.board.grid hour.new.board.hour hour.new.board.events) }
    ensures unplanned { OnErr result (hour.new ≡ hour.old) }
    ensures none_next { OnErr result (forgotten views.new ≡ views.new) }
{
    let reply = reply_in(alloc, hour, views, grid, setup, caller, command)?;
    refresh(hour, views, grid)?;
    Ok(reply)
}

/// Makes what is next for an hour's views of what is planned there. Nothing is next before.
///
/// # Errors
///
/// [`NoMemory`] where memory runs out; nothing is planned and nothing is next then.
pub(crate) fn refresh(
    hour: &mut KeptHour,
    views: &mut DeskViews,
    grid: &Grid,
) -> Result<(), NoMemory>
    requires grid { grid.now ≡ hour.old.board.grid }
    requires free { hour.old.board.hand ≡ None }
    requires stands { StandAt (settled_board hour.old) views.old }
    requires none_next { forgotten views.old ≡ views.old }
    ensures kept { OnOk result (hour.new ≡ hour.old) }
    ensures board { OnOk result (IsBoard hour.new.board) }
    ensures next { OnOk result (IsNext hour.new.board views.new) }
    ensures stands { StandAt (settled_board hour.old) views.new }
    ensures dropped { OnErr result (hour.new ≡ undone hour.old) }
    ensures none_next { OnErr result (forgotten views.new ≡ views.new) }
{
    // It shows that the hour stands.
    let _events = hour.events();
    match views.refresh(hour, grid) {
        Ok(()) => Ok(()),
        Err(error) => {
            hour.undo();
            Err(error)
        }
    }
}

// Plans what a command does in an hour that it touches alone, and answers the market's reply.
//
// Where memory runs out nothing is planned.
fn reply_in(
    alloc: Global,
    hour: &mut KeptHour,
    views: &DeskViews,
    grid: &Grid,
    setup: &Setup,
    caller: u32,
    command: &Command,
) -> Result<Reply, NoMemory>
    requires grid { grid.now ≡ hour.old.board.grid }
    requires placed { IsPlaced setup.now hour.old caller command.now }
    requires early { early_refusal setup.now caller command.now ≡ None }
    requires few { names_given hour.old.board < 2 ^ 32 - 1 }
    requires stands { StandAt (settled_board hour.old) views.now }
    ensures reply { IfOk result (λ reply. reply ≡ reply_to setup.now hour.old.settled caller command.now) }
    ensures planned { OnOk result (hour.new ≡ with_planned hour.old (events_of (reply_to setup.now hour.old.settled caller command.now))) }
    ensures unplanned { OnErr result (hour.new ≡ hour.old) }
{
    match refuse_by_state(hour, grid, caller, command) {
        Some(refusal) => Ok(Reply::Refused(refusal)),
        None => reply_let_in(alloc, hour, views, grid, setup, caller, command),
    }
}

// The same, for a command that no rule on the state refuses.
fn reply_let_in(
    alloc: Global,
    hour: &mut KeptHour,
    views: &DeskViews,
    grid: &Grid,
    setup: &Setup,
    caller: u32,
    command: &Command,
) -> Result<Reply, NoMemory>
    requires grid { grid.now ≡ hour.old.board.grid }
    requires can { CanChange setup.now hour.old caller command.now }
    requires few { names_given hour.old.board < 2 ^ 32 - 1 }
    requires stands { StandAt (settled_board hour.old) views.now }
    ensures reply { IfOk result (λ reply. reply ≡ reply_to setup.now hour.old.settled caller command.now) }
    ensures planned { OnOk result (hour.new ≡ with_planned hour.old (events_of (reply_to setup.now hour.old.settled caller command.now))) }
    ensures unplanned { OnErr result (hour.new ≡ hour.old) }
{
    if let Command::View {
        contract,
        side,
        zone,
    } = command
    {
        let rows = views.rows(number_of(contract.part), *side, *zone);
        return Ok(Reply::Seen(rows_of(alloc, rows)?));
    }
    match change(alloc, hour, views, grid, setup, caller, command)? {
        Some(refusal) => Ok(Reply::Refused(refusal)),
        None => done(alloc, hour),
    }
}

// The reply that tells what an hour has planned. Where there is no memory for it the plan is dropped.
fn done(alloc: Global, hour: &mut KeptHour) -> Result<Reply, NoMemory>
    requires { length hour.old.settled ≤ length hour.old.board.events }
    ensures told { IfOk result (λ made. made ≡ reply.Done (drop (length hour.old.settled) hour.old.board.events)) }
    ensures kept { OnOk result (hour.new ≡ hour.old) }
    ensures dropped { OnErr result (hour.new ≡ undone hour.old) }
{
    Ok(Reply::Done(told(alloc, hour)?))
}

/// The events that an hour has planned.
///
/// # Errors
///
/// [`NoMemory`] where memory runs out; nothing is planned then.
pub(crate) fn told(alloc: Global, hour: &mut KeptHour) -> Result<Events, NoMemory>
    requires { length hour.old.settled ≤ length hour.old.board.events }
    ensures events { IfOk result (λ made. made ≡ drop (length hour.old.settled) hour.old.board.events) }
    ensures kept { OnOk result (hour.new ≡ hour.old) }
    ensures dropped { OnErr result (hour.new ≡ undone hour.old) }
{
    let settled = hour.settled_len();
    match events_from(alloc, hour.events(), settled) {
        Ok(events) => Ok(events),
        Err(error) => {
            hour.undo();
            Err(error)
        }
    }
}
