//! The rules in their order.

ghost use Rattle.std.specs.Prelude.{◌≡◌, [], ◌∷◌, None};
ghost use Rattle.market_model.specs.Rules.{hours_concerned};
ghost use Rattle.market_model.specs.StateRules.{order_refusal, state_refusal};
ghost use Rattle.desk_refusals.specs.Concerned.{ConcernsAlone};

use crate::capacity::refuse_by_capacity;
use crate::closing::{refuse_closed, refuse_gate};
use crate::orders::{refuse_reduction, refuse_unknown};
use kept_hour::KeptHour;
use market_model::{Command, Refusal};
use zone_graph::Grid;

/// The first rule on the state of orders, hours and capacity that a command breaks which concerns this
/// hour alone: `None` exactly where it breaks none. No order is in hand. It takes no memory.
///
/// The rules are, in this order: a reduction lowers what is left, the hour is not closed, a gate leads to
/// a later phase, there is an order of the caller's that the command can change, an offer is not below
/// what flows, and a request finds room.
#[tactic(auto, unfolding(market_model::specs::StateRules::state_refusal, market_model::specs::StateRules::order_refusal, market_model::specs::StateRules::capacity_refusal))]
pub fn refuse_by_state(
    hour: &KeptHour,
    grid: &Grid,
    caller: u32,
    command: &Command,
) -> Option<Refusal>
    requires grid { grid.now ≡ hour.now.board.grid }
    requires free { hour.now.board.hand ≡ None }
    requires concerns { hours_concerned command.now ≡ hour.now.board.hour ∷ [] }
    ensures { result ≡ state_refusal grid.now hour.now.board.events caller command.now }
{
    refuse_by_orders(hour, caller, command).or_else(|| refuse_by_capacity(hour, grid, command))
}

// The first broken rule on the state of orders and of the hour.
#[tactic(auto, unfolding(market_model::specs::StateRules::order_refusal))]
fn refuse_by_orders(hour: &KeptHour, caller: u32, command: &Command) -> Option<Refusal>
    requires free { hour.now.board.hand ≡ None }
    requires concerns { ConcernsAlone hour.now command.now }
    ensures { result ≡ order_refusal hour.now.board.events caller command.now }
{
    refuse_reduction(hour, caller, command)
        .or_else(|| refuse_closed(hour, command))
        .or_else(|| refuse_gate(hour, command))
        .or_else(|| refuse_unknown(hour, caller, command))
}
