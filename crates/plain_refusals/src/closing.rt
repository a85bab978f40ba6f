//! The rules on the phases of hours.

ghost use Rattle.std.specs.Prelude.{◌≡◌, [], ◌∷◌, map};
ghost use Rattle.std.specs.List.{find};
ghost use Rattle.std.specs.Option.{option_map};
ghost use Rattle.order_kinds.specs.Period.{hours_from};
ghost use Rattle.order_kinds.specs.Phase as phases;
ghost use Rattle.market_model.specs.Refusals as refusals;
ghost use Rattle.market_model.specs.Room.{is_closed_phase, phase_of};
ghost use Rattle.market_model.specs.Rules as rules;

use event_history::History;
use market_model::{Command, Order, Phase, Refusal};
use plain_capacity::phase_of;

/// The refusal of a command that concerns a closed hour: gates and views are not asked.
pub(crate) fn refuse_closed(events: &History, command: &Command) -> Option<Refusal>
    ensures { result ≡ option_map (λ hour. Refusal.Closed hour) (refusals.closed_hour events.now command.now) }
{
    let hour = closed_hour(events, command)?;
    Some(Refusal::Closed { hour })
}

// The first closed hour of those that a command concerns.
fn closed_hour(events: &History, command: &Command) -> Option<u32>
    ensures { result ≡ refusals.closed_hour events.now command.now }
{
    match command {
        Command::Enter { order } => if_closed(events, order.contract.hour),
        Command::EnterBlock { order } => first_closed(events, order.first, order.last),
        Command::EnterBasket { orders } => first_closed_of(events, orders.as_slice()),
        Command::Cancel { name } | Command::Reduce { name, .. } => if_closed(events, name.hour),
        Command::Blocks { first, last }
        | Command::Halt { first, last, .. }
        | Command::Resume { first, last, .. } => first_closed(events, *first, *last),
        Command::Offer { first, last, .. } | Command::Request { first, last, .. } => {
            first_closed(events, first.hour, last.hour)
        }
        Command::Gate { .. } | Command::View { .. } => None,
    }
}

// The hour, if it is closed.
fn if_closed(events: &History, hour: u32) -> Option<u32>
    ensures { result ≡ find (λ hour. is_closed_phase (phase_of events.now hour)) (hour ∷ []) }
{
    if is_closed(events, hour) {
        Some(hour)
    } else {
        None
    }
}

// The first closed hour of a period.
fn first_closed(events: &History, first: u32, last: u32) -> Option<u32>
    ensures { result ≡ find (λ hour. is_closed_phase (phase_of events.now hour)) (hours_from first last) }
{
    for hour in first..=last {
        if is_closed(events, hour) {
            return Some(hour);
        }
    }
    None
}

// The first closed hour of those of some orders.
fn first_closed_of(events: &History, orders: &[Order]) -> Option<u32>
    ensures { result ≡ find (λ hour. is_closed_phase (phase_of events.now hour)) (map (λ order. order.contract.hour) orders.now) }
{
    orders
        .iter()
        .map(|order| order.contract.hour)
        .find(|hour| is_closed(events, *hour))
}

// Whether nothing is traded in an hour any more.
fn is_closed(events: &History, hour: u32) -> bool
    ensures { result ≡ is_closed_phase (phase_of events.now hour) }
{
    matches!(phase_of(events, hour), Phase::Closed)
}

/// The refusal of a gate that does not lead to a later phase.
pub(crate) fn refuse_gate(events: &History, command: &Command) -> Option<Refusal>
    ensures { result ≡ refusals.gate_refusal events.now command.now }
{
    match command {
        Command::Gate { hour, phase: asked } => refuse_unless_later(
            *asked,
            phase_of(events, *hour),
        ),
        _ => None,
    }
}

// The refusal of a phase that does not come after the one that an hour has.
fn refuse_unless_later(asked: Phase, phase: Phase) -> Option<Refusal>
    ensures { result ≡ rules.unless (phases.is_later asked phase) (Refusal.GateBack phase) }
{
    if asked.is_later(phase) {
        None
    } else {
        Some(Refusal::GateBack { phase })
    }
}
