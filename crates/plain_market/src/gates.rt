//! Gates.

ghost use Rattle.std.specs.Prelude.{◌≡◌, ◌∷◌, ◌++◌, IfOk, OnOk, OnErr};
ghost use Rattle.market_model.specs.declared.event.Event.TheVariants as event;
ghost use Rattle.market_model.specs.Market as market;
ghost use Rattle.market_model.specs.Sweep.{all_parts};
ghost use Rattle.market_model.specs.WellFormed.{IsLegalOver};
ghost use Rattle.plain_matching.specs.Grown.{Grew};
ghost use Rattle.plain_orders.specs.Histories.{IsSomeHistory};

use event_history::History;
use market_model::{Duplicate, Event, Events, NoMemory, Phase};
use plain_matching::{HourSums, sweep};
use plain_orders::withdrawals;
use std::alloc::Global;
use zone_graph::Grid;

/// Moves an hour to a later phase: the gate, what closing withdraws and the sweep of the hour go to the
/// end of the events.
///
/// # Errors
///
/// [`NoMemory`], where there is no memory for the events or for what they are made from: some of them
/// may then stand behind those before.
pub(crate) fn move_hour(
    alloc: Global,
    grid: &Grid,
    events: &mut History,
    hour: u32,
    phase: Phase,
) -> Result<(), NoMemory>
    requires legal { IsLegalOver grid.now events.old }
    requires moved { IsLegalOver grid.now (events.old ++ (event.Gated hour phase ∷ market.withdrawals events.old hour phase)) }
    ensures ok { OnOk result (events.new ≡ events.old ++ market.gate all_parts grid.now hour phase events.old) }
    ensures err { OnErr result (Grew events.old events.new) }
{
    let withdrawn = withdrawn_by(alloc, events, hour, phase)?;
    events.push(Event::Gated { hour, phase })?;
    append(events, withdrawn.as_slice())?;
    sweep(alloc, grid, events, &mut HourSums::none(), hour)
}

// Puts events behind others.
#[tactic(auto, using(crate::proofs::Growing::grows))]
fn append(events: &mut History, more: &[Event]) -> Result<(), NoMemory>
    ensures ok { OnOk result (events.new ≡ events.old ++ more.now) }
    ensures err { OnErr result (Grew events.old events.new) }
{
    for event in more {
        events.push(event.copy()?)?;
    }
    Ok(())
}

// The withdrawals of the open orders and blocks that are named by an hour, in order of entry, where a
// gate closes it.
fn withdrawn_by(
    alloc: Global,
    events: &History,
    hour: u32,
    phase: Phase,
) -> Result<Events, NoMemory>
    requires history { IsSomeHistory events.now }
    ensures { IfOk result (λ made. made ≡ market.withdrawals events.now hour phase) }
{
    if phase == Phase::Closed {
        withdrawals(alloc, events, hour)
    } else {
        Ok(Events::new(alloc))
    }
}
