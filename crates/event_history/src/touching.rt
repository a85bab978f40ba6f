//! The hours that an event touches.

ghost use Rattle.std.specs.Prelude.{◌≡◌, ℕ, ◌==◌};
ghost use Rattle.event_history.specs.ByHour.{is_from};
ghost use Rattle.market_model.specs.History as history;
ghost use Rattle.order_kinds.specs.Period.{is_within};

use market_model::Event;

/// The hours from a first one to before an end: none where the end is not later.
#[derive(Clone, Copy, Debug, PartialEq, Eq)]
pub(crate) struct Span {
    pub(crate) first: usize,
    pub(crate) end: usize,
}

impl Span {
    /// The hours that an event touches.
    pub(crate) fn touched_by(event: &Event) -> Span
        ensures { (hour : ℕ) → is_from result.first result.end hour ≡ history.touches hour event.now }
    {
        match event {
            Event::Entered { name, .. }
            | Event::EnteredBlock { name, .. }
            | Event::Withdrawn { name, .. }
            | Event::Reduced { name, .. } => Span::one(name.hour),
            Event::Leg { contract, .. } => Span::one(contract.hour),
            Event::BlockLeg { first, last, .. }
            | Event::Halted { first, last, .. }
            | Event::Resumed { first, last, .. } => Span::from_to(*first, *last),
            Event::Granted { first, last, .. } | Event::Offered { first, last, .. } => {
                Span::from_to(first.hour, last.hour)
            }
            Event::Gated { hour, .. } => Span::one(*hour),
        }
    }

    // The hours from the first to the last.
    fn from_to(first: u32, last: u32) -> Span
        ensures { (hour : ℕ) → is_from result.first result.end hour ≡ is_within first last hour }
    {
        Span {
            first: first as usize,
            end: last as usize + 1,
        }
    }

    // One hour.
    fn one(hour: u32) -> Span
        ensures { (other : ℕ) → is_from result.first result.end other ≡ (hour == other) }
    {
        Span::from_to(hour, hour)
    }
}

/// Whether an event touches an hour.
pub fn touches(event: &Event, hour: u32) -> bool
    ensures { result ≡ history.touches hour event.now }
{
    let hours = Span::touched_by(event);
    hours.first <= hour as usize && (hour as usize) < hours.end
}
