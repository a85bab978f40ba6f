//! The rules on the orders that a command changes.

ghost use Rattle.std.specs.Prelude.{◌≡◌};
ghost use Rattle.market_model.specs.Refusals as refusals;
ghost use Rattle.market_model.specs.Rules as rules;
ghost use Rattle.plain_orders.specs.Histories.{IsSomeHistory};

use event_history::History;
use market_model::{Command, OrderName, Refusal};
use plain_orders::{has_own, left, own_limit};

/// The refusal of a reduction that lowers nothing: what is to be left, in lots, is not below what is
/// left.
pub(crate) fn refuse_reduction(events: &History, caller: u32, command: &Command) -> Option<Refusal>
    requires { IsSomeHistory events.now }
    ensures { result ≡ rules.unless (refusals.reduces events.now caller command.now) Refusal.QuantityOutOfRange }
{
    match command {
        Command::Reduce { name, to } if !is_below_left(events, caller, *name, *to) => {
            Some(Refusal::QuantityOutOfRange)
        }
        _ => None,
    }
}

// Whether so many lots are below what is left of the caller's open plain limit order of this name:
// where there is no such order nothing is said.
fn is_below_left(events: &History, caller: u32, name: OrderName, to: u32) -> bool
    requires { IsSomeHistory events.now }
    ensures { result ≡ refusals.is_below_left events.now to (refusals.own_limit events.now caller name) }
{
    match own_limit(events, caller, name) {
        Some(placed) => to < left(events, placed.name()),
        None => true,
    }
}

/// The refusal of a cancellation or a reduction of an order or block that the caller does not have
/// open.
pub(crate) fn refuse_unknown(events: &History, caller: u32, command: &Command) -> Option<Refusal>
    requires { IsSomeHistory events.now }
    ensures { result ≡ rules.unless (refusals.order_is_known events.now caller command.now) Refusal.UnknownOrder }
{
    if is_known(events, caller, command) {
        None
    } else {
        Some(Refusal::UnknownOrder)
    }
}

// Whether there is an order or block of the caller's that a cancellation or a reduction can change.
fn is_known(events: &History, caller: u32, command: &Command) -> bool
    requires { IsSomeHistory events.now }
    ensures { result ≡ refusals.order_is_known events.now caller command.now }
{
    match command {
        Command::Cancel { name } => has_own(events, caller, *name),
        Command::Reduce { name, .. } => own_limit(events, caller, *name).is_some(),
        _ => true,
    }
}
