//! The rules on the orders that a command changes.

ghost use Rattle.std.specs.Prelude.{◌≡◌, None};
ghost use Rattle.market_model.specs.Refusals as refusals;
ghost use Rattle.market_model.specs.Rules.{unless};
ghost use Rattle.desk_refusals.specs.Concerned.{ConcernsAlone};

use crate::owning::{own_limit, own_of};
use kept_hour::KeptHour;
use market_model::{Command, OrderName, Refusal};

/// The refusal of a reduction that lowers nothing: what is to be left, in lots, is not below what is left.
/// No order is in hand.
pub(crate) fn refuse_reduction(hour: &KeptHour, caller: u32, command: &Command) -> Option<Refusal>
    requires free { hour.now.board.hand ≡ None }
    requires concerns { ConcernsAlone hour.now command.now }
    ensures { result ≡ unless (refusals.reduces hour.now.board.events caller command.now) Refusal.QuantityOutOfRange }
{
    match command {
        Command::Reduce { name, to } if !is_below_left(hour, caller, *name, *to) => {
            Some(Refusal::QuantityOutOfRange)
        }
        _ => None,
    }
}

// Whether so many lots are below what is left of the caller's open plain limit order of a name of the
// hour: where there is no such order nothing is said.
fn is_below_left(hour: &KeptHour, caller: u32, name: OrderName, to: u32) -> bool
    requires free { hour.now.board.hand ≡ None }
    requires named { name.hour ≡ hour.now.board.hour }
    ensures { result ≡ refusals.is_below_left hour.now.board.events to (refusals.own_limit hour.now.board.events caller name) }
{
    match own_limit(hour, caller, name.number) {
        Some(order) => to < order.left,
        None => true,
    }
}

/// The refusal of a cancellation or a reduction of an order or block that the caller does not have open.
/// No order is in hand.
pub(crate) fn refuse_unknown(hour: &KeptHour, caller: u32, command: &Command) -> Option<Refusal>
    requires free { hour.now.board.hand ≡ None }
    requires concerns { ConcernsAlone hour.now command.now }
    ensures { result ≡ unless (refusals.order_is_known hour.now.board.events caller command.now) Refusal.UnknownOrder }
{
    if is_known(hour, caller, command) {
        None
    } else {
        Some(Refusal::UnknownOrder)
    }
}

// Whether there is an order or block of the caller's that a cancellation or a reduction can change.
fn is_known(hour: &KeptHour, caller: u32, command: &Command) -> bool
    requires free { hour.now.board.hand ≡ None }
    requires concerns { ConcernsAlone hour.now command.now }
    ensures { result ≡ refusals.order_is_known hour.now.board.events caller command.now }
{
    match command {
        Command::Cancel { name } => own_of(hour, caller, name.number).is_some(),
        Command::Reduce { name, .. } => own_limit(hour, caller, name.number).is_some(),
        _ => true,
    }
}
