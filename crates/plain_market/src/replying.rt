//! The reply to a command.

ghost use Rattle.std.specs.Prelude.{◌≡◌, ◌-◌, ◌^◌, ◌<◌, ◌≤◌, ◌++◌, Ok, Some, None, length, drop, IfOk, OnOk, OnErr};
ghost use Rattle.market_model.specs.declared.refusal.Refusal.{Refusal as TheRefusal};
ghost use Rattle.market_model.specs.Grid.{graph_of};
ghost use Rattle.market_model.specs.History.{entered_count, events_of};
ghost use Rattle.market_model.specs.Market as market;
ghost use Rattle.market_model.specs.Rules.{first_broken};
ghost use Rattle.market_model.specs.Sweep.{all_parts};
ghost use Rattle.market_model.specs.WellFormed.{IsHistory};
ghost use Rattle.market_model.specs.StateRules.{filling_rules};
ghost use Rattle.market_model.specs.LetIn.{IsLetIn};
ghost use Rattle.plain_matching.specs.Grown.{Grew};
ghost use Rattle.plain_orders.specs.DaySums.{AreDaySums};

use crate::basket::enter_basket;
use crate::blocks::enter_block;
use crate::changes::change;
use crate::entering::enter;
use crate::local_view::view;
use event_history::History;
use market_model::{
    Command, Duplicate, Event, Events, NoMemory, Refusal, Reply, Setup, refuse_early,
};
use plain_orders::DaySums;
use plain_refusals::refuse_by_state;
use std::alloc::Global;
use zone_graph::Grid;

/// The reply to a caller's command after these events.
///
/// The events are those of a legal journal of the setup, with fewer than 2^32 - 1 orders and blocks
/// entered; the grid is the setup's.
///
/// # Errors
///
/// [`NoMemory`], where there is no memory for the reply or for what it is made from.
pub fn reply(
    alloc: Global,
    grid: &Grid,
    setup: &Setup,
    events: &Events,
    caller: u32,
    command: &Command,
) -> Result<Reply, NoMemory>
    requires known { caller < length setup.now.callers }
    requires grid { grid.now ≡ graph_of setup.now }
    requires history { IsHistory setup.now events.now }
    requires few { entered_count events.now < 2 ^ 32 - 1 }
    ensures reply { IfOk result (λ reply. reply ≡ market.reply_to setup.now events.now caller command.now) }
{
    let mut history = History::of(alloc, events.as_slice())?;
    let mut sums = DaySums::new(alloc)?;
    reply_and_append(alloc, grid, setup, &mut history, &mut sums, caller, command)
}

/// The same, and what the command brings about goes to the end of the events: so the next command can
/// be answered. A refused command and a view leave the events as they were. The sums of the orders of
/// each hour are kept for the next command, where they are at hand.
///
/// # Errors
///
/// [`NoMemory`], where there is no memory for the reply or for what it is made from: some events of
/// the command may then stand behind those before it.
pub fn reply_and_append(
    alloc: Global,
    grid: &Grid,
    setup: &Setup,
    events: &mut History,
    sums: &mut DaySums,
    caller: u32,
    command: &Command,
) -> Result<Reply, NoMemory>
    requires known { caller < length setup.now.callers }
    requires grid { grid.now ≡ graph_of setup.now }
    requires history { IsHistory setup.now events.old }
    requires few { entered_count events.old < 2 ^ 32 - 1 }
    requires summed { AreDaySums events.old sums.old }
    ensures reply { IfOk result (λ reply. reply ≡ market.reply_to setup.now events.old caller command.now) }
    ensures events { OnOk result (events.new ≡ events.old ++ events_of (market.reply_to setup.now events.old caller command.now)) }
    ensures err { OnErr result (Grew events.old events.new) }
    ensures summed { AreDaySums events.new sums.new }
{
    let early = refuse_early(grid, setup, caller, command);
    if let Some(refusal) = early {
        return Ok(Reply::Refused(refusal));
    }
    let broken = refuse_by_state(alloc, grid, events, caller, command)?;
    if let Some(refusal) = broken {
        return Ok(Reply::Refused(refusal));
    }
    reply_to_let_in(alloc, grid, setup, events, sums, caller, command)
}

// The reply to a command that breaks no rule by itself and none on the state before it.
fn reply_to_let_in(
    alloc: Global,
    grid: &Grid,
    setup: &Setup,
    events: &mut History,
    sums: &mut DaySums,
    caller: u32,
    command: &Command,
) -> Result<Reply, NoMemory>
    requires grid { grid.now ≡ graph_of setup.now }
    requires history { IsHistory setup.now events.old }
    requires few { entered_count events.old < 2 ^ 32 - 1 }
    requires summed { AreDaySums events.old sums.old }
    requires let_in { IsLetIn setup.now events.old caller command.now }
    ensures reply { IfOk result (λ reply. reply ≡ market.reply_to setup.now events.old caller command.now) }
    ensures events { OnOk result (events.new ≡ events.old ++ events_of (market.reply_to setup.now events.old caller command.now)) }
    ensures err { OnErr result (Grew events.old events.new) }
    ensures summed { AreDaySums events.new sums.new }
{
    if let Command::View {
        contract,
        side,
        zone,
    } = command
    {
        let rows = view(alloc, grid, events, *contract, *side, *zone)?;
        return Ok(Reply::Seen(rows));
    }
    let before = events.len();
    match carry_out(alloc, grid, setup, events, sums, caller, command)? {
        Some(refusal) => Ok(Reply::Refused(refusal)),
        None => Ok(Reply::Done(events_from(alloc, events.as_slice(), before)?)),
    }
}

// Carries out a command, unless a rule on what its entry leads to refuses it.
fn carry_out(
    alloc: Global,
    grid: &Grid,
    setup: &Setup,
    events: &mut History,
    sums: &mut DaySums,
    caller: u32,
    command: &Command,
) -> Result<Option<Refusal>, NoMemory>
    requires grid { grid.now ≡ graph_of setup.now }
    requires history { IsHistory setup.now events.old }
    requires few { entered_count events.old < 2 ^ 32 - 1 }
    requires summed { AreDaySums events.old sums.old }
    requires let_in { IsLetIn setup.now events.old caller command.now }
    ensures refusal { IfOk result (λ refusal. refusal ≡ first_broken (filling_rules grid.now events.old caller command.now)) }
    ensures done { result ≡ Ok None → events.new ≡ events.old ++ market.events_done all_parts setup.now events.old caller command.now }
    ensures kept { (refusal : TheRefusal) → result ≡ Ok (Some refusal) → events.new ≡ events.old }
    ensures err { OnErr result (Grew events.old events.new) }
    ensures summed { AreDaySums events.new sums.new }
{
    let zones = grid.zones();
    prove!(zones <= 64);
    match command {
        Command::Enter { order } => enter(alloc, grid, events, sums, caller, order),
        Command::EnterBasket { orders } => {
            enter_basket(alloc, grid, events, caller, orders.as_slice())
        }
        Command::EnterBlock { order } => enter_block(alloc, grid, events, sums, caller, order),
        _ => {
            change(alloc, grid, setup, events, sums, command)?;
            Ok(None)
        }
    }
}

// The events from a place on.
fn events_from(alloc: Global, events: &[Event], place: usize) -> Result<Events, NoMemory>
    requires { place ≤ length events.now }
    ensures { IfOk result (λ made. made ≡ drop place events.now) }
{
    let mut made = Events::new(alloc);
    for event in &events[place..] {
        made.push(event.copy()?)?;
    }
    Ok(made)
}
