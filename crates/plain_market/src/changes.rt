//! What commands other than entries bring about.

ghost use Rattle.std.specs.Prelude.{◌≡◌, ◌-◌, ◌≤◌, ◌++◌, ℕ, None, OnOk, OnErr};
ghost use Rattle.order_kinds.specs.Period.{hours_from};
ghost use Rattle.market_model.specs.declared.event.Event.TheVariants as event;
ghost use Rattle.market_model.specs.Blocks as blocks;
ghost use Rattle.market_model.specs.Grid.{graph_of};
ghost use Rattle.market_model.specs.History.{and_then};
ghost use Rattle.market_model.specs.Market as market;
ghost use Rattle.market_model.specs.Orders as orders;
ghost use Rattle.market_model.specs.Sweep.{all_parts};
ghost use Rattle.market_model.specs.WellFormed.{IsHistory, IsLegalOver};
ghost use Rattle.market_model.specs.LetIn.{IsNoEntry};
ghost use Rattle.plain_matching.specs.BlockEntering.{IsHistoryOver};
ghost use Rattle.plain_market.specs.Borders as borders;
ghost use Rattle.plain_matching.specs.Grown.{Grew};
ghost use Rattle.plain_orders.specs.DaySums.{AreDaySums};
ghost use Rattle.plain_orders.specs.Histories.{IsSomeHistory};

use crate::border_events::{BorderEvent, border_event};
use crate::gates::move_hour;
use event_history::History;
use market_model::{Command, Event, NoMemory, OrderName, Setup};
use plain_matching::{match_deals, sweeps};
use plain_orders::{DaySums, left};
use std::alloc::Global;
use zone_graph::Grid;

/// Carries out a command that no rule refuses and that enters nothing: what it brings about goes to
/// the end of the events. The sums that are kept of the orders of each hour serve the sweeps.
///
/// # Errors
///
/// [`NoMemory`], where there is no memory for the events or for what they are made from: some of them
/// may then stand behind those before.
pub(crate) fn change(
    alloc: Global,
    grid: &Grid,
    setup: &Setup,
    events: &mut History,
    kept: &mut DaySums,
    command: &Command,
) -> Result<(), NoMemory>
    requires grid { grid.now ≡ graph_of setup.now }
    requires history { IsHistory setup.now events.old }
    requires summed { AreDaySums events.old kept.old }
    requires after { (caller : ℕ) → IsHistory setup.now (events.old ++ market.events_done all_parts setup.now events.old caller command.now) }
    requires no_entry { IsNoEntry command.now }
    ensures ok { (caller : ℕ) → OnOk result (events.new ≡ events.old ++ market.events_done all_parts setup.now events.old caller command.now) }
    ensures err { OnErr result (Grew events.old events.new) }
    ensures summed { AreDaySums events.new kept.new }
{
    match border_event(grid, command) {
        Some(happening) => then_sweeps(alloc, grid, events, kept, happening),
        None => change_others(alloc, grid, setup, events, kept, command),
    }
}

// Lets an event happen, and sweeps the hours of which it is.
fn then_sweeps(
    alloc: Global,
    grid: &Grid,
    events: &mut History,
    kept: &mut DaySums,
    happening: BorderEvent,
) -> Result<(), NoMemory>
    requires legal { IsLegalOver grid.now (and_then events.old happening.event) }
    requires summed { AreDaySums events.old kept.old }
    ensures ok { OnOk result (events.new ≡ events.old ++ market.then_sweeps all_parts grid.now (hours_from happening.first happening.last) events.old happening.event) }
    ensures err { OnErr result (Grew events.old events.new) }
    ensures summed { AreDaySums events.new kept.new }
{
    events.push(happening.event)?;
    sweeps(alloc, grid, events, kept, happening.first, happening.last)
}

// The same for commands that make no event on a border.
fn change_others(
    alloc: Global,
    grid: &Grid,
    setup: &Setup,
    events: &mut History,
    kept: &mut DaySums,
    command: &Command,
) -> Result<(), NoMemory>
    requires grid { grid.now ≡ graph_of setup.now }
    requires history { IsHistory setup.now events.old }
    requires summed { AreDaySums events.old kept.old }
    requires after { (caller : ℕ) → IsHistory setup.now (events.old ++ market.events_done all_parts setup.now events.old caller command.now) }
    requires no_entry { IsNoEntry command.now }
    requires no_border { borders.border_event grid.now command.now ≡ None }
    ensures ok { (caller : ℕ) → OnOk result (events.new ≡ events.old ++ market.events_done all_parts setup.now events.old caller command.now) }
    ensures err { OnErr result (Grew events.old events.new) }
    ensures summed { AreDaySums events.new kept.new }
{
    match command {
        Command::Cancel { name } => withdraw(events, *name),
        Command::Reduce { name, to } => reduce(events, *name, *to),
        Command::Blocks { first, last } => match_blocks(alloc, grid, events, kept, *first, *last),
        Command::Gate { hour, phase } => move_hour(alloc, grid, events, *hour, *phase),
        _ => Ok(()),
    }
}

// Matches the resting blocks of a period, and sweeps its hours.
fn match_blocks(
    alloc: Global,
    grid: &Grid,
    events: &mut History,
    kept: &mut DaySums,
    first: u32,
    last: u32,
) -> Result<(), NoMemory>
    requires history { IsHistoryOver grid.now events.old }
    requires summed { AreDaySums events.old kept.old }
    ensures ok { OnOk result (events.new ≡ events.old ++ blocks.match_blocks all_parts grid.now first last events.old) }
    ensures err { OnErr result (Grew events.old events.new) }
    ensures summed { AreDaySums events.new kept.new }
{
    let zones = grid.zones();
    prove!(zones <= 64);
    match_deals(alloc, grid, events, first, last)?;
    sweeps(alloc, grid, events, kept, first, last)
}

// Withdraws all that is left of an order or block.
#[tactic(auto, using(crate::proofs::Growing::stays))]
fn withdraw(events: &mut History, name: OrderName) -> Result<(), NoMemory>
    requires history { IsSomeHistory events.old }
    ensures ok { OnOk result (events.new ≡ and_then events.old (event.Withdrawn name (orders.left events.old name))) }
    ensures err { OnErr result (Grew events.old events.new) }
{
    let lots = left(events, name);
    events.push(Event::Withdrawn { name, lots })?;
    Ok(())
}

// Takes off an order all but some lots.
#[tactic(auto, using(crate::proofs::Growing::stays))]
fn reduce(events: &mut History, name: OrderName, to: u32) -> Result<(), NoMemory>
    requires history { IsSomeHistory events.old }
    requires less { to ≤ orders.left events.old name }
    ensures ok { OnOk result (events.new ≡ and_then events.old (event.Reduced name (orders.left events.old name - to))) }
    ensures err { OnErr result (Grew events.old events.new) }
{
    let by = left(events, name) - to;
    events.push(Event::Reduced { name, by })?;
    Ok(())
}
