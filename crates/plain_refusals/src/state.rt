//! The rules in their order.

ghost use Rattle.std.specs.Prelude.{◌≡◌, IfOk};
ghost use Rattle.market_model.specs.WellFormed.{IsLegalOver};
ghost use Rattle.plain_orders.specs.Histories.{IsSomeHistory};
ghost use Rattle.market_model.specs.StateRules as state;

use crate::capacity::refuse_by_capacity;
use crate::closing::{refuse_closed, refuse_gate};
use crate::orders::{refuse_reduction, refuse_unknown};
use event_history::History;
use market_model::{Command, NoMemory, Refusal};
use std::alloc::Global;
use zone_graph::Grid;

/// The first rule on the state of orders, hours and capacity that a command breaks: `None` exactly
/// where it breaks none.
///
/// The rules are, in this order: a reduction lowers what is left, no hour that is concerned is closed,
/// a gate leads to a later phase, there is an order of the caller's that the command can change, an
/// offer is not below what flows, and a request finds room.
///
/// # Errors
///
/// [`NoMemory`], where there is no memory for the capacity of an hour.
#[tactic(auto, unfolding(market_model::specs::StateRules::state_refusal, market_model::specs::StateRules::order_refusal, market_model::specs::StateRules::capacity_refusal))]
pub fn refuse_by_state(
    alloc: Global,
    grid: &Grid,
    events: &History,
    caller: u32,
    command: &Command,
) -> Result<Option<Refusal>, NoMemory>
    requires legal { IsLegalOver grid.now events.now }
    ensures refusal { IfOk result (λ refusal. refusal ≡ state.state_refusal grid.now events.now caller command.now) }
{
    match refuse_by_orders(events, caller, command) {
        Some(refusal) => Ok(Some(refusal)),
        None => refuse_by_capacity(alloc, grid, events, command),
    }
}

// The first broken rule on the state of orders and hours.
#[tactic(auto, unfolding(market_model::specs::StateRules::order_refusal))]
fn refuse_by_orders(events: &History, caller: u32, command: &Command) -> Option<Refusal>
    requires { IsSomeHistory events.now }
    ensures { result ≡ state.order_refusal events.now caller command.now }
{
    refuse_reduction(events, caller, command)
        .or_else(|| refuse_closed(events, command))
        .or_else(|| refuse_gate(events, command))
        .or_else(|| refuse_unknown(events, caller, command))
}
