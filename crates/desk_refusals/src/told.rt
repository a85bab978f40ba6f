//! What the event at the moment of an order tells of it.

ghost use Rattle.std.specs.Prelude.{◌≡◌, ◌≤◌};
ghost use Rattle.desk_refusals.specs.Told as told;

use market_model::{Contract, Event};

/// The contract in which the event at a moment of an hour enters an order or trades.
pub(crate) fn contract_told(events: &[Event], moment: u64) -> Option<Contract>
    requires some { 1 ≤ moment }
    ensures { result ≡ told.contract_told (told.event_at events.now moment) }
{
    match events.get(moment as usize - 1) {
        Some(Event::Entered { order, .. }) => Some(order.contract),
        Some(Event::Leg { contract, .. }) => Some(*contract),
        _ => None,
    }
}

/// Whether the event at a moment of an hour enters a plain limit order.
pub(crate) fn enters_limit(events: &[Event], moment: u64) -> bool
    requires some { 1 ≤ moment }
    ensures { result ≡ told.enters_limit (told.event_at events.now moment) }
{
    match events.get(moment as usize - 1) {
        Some(Event::Entered { order, .. }) => order.kind.is_limit(),
        _ => false,
    }
}
