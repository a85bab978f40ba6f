//! What the last event that speaks of an hour's phase, or of a halt, says.

ghost use Rattle.std.specs.Prelude.{◌≡◌, Some, None, if◌then◌else◌};
ghost use Rattle.order_kinds.specs.Period as periods;
ghost use Rattle.market_model.specs.Room as rooms;

use event_history::History;
use market_model::Event;
use order_kinds::Phase;

/// The phase of an hour after some events: that of its last gate, and open before the first.
pub fn phase_of(events: &History, hour: u32) -> Phase
    ensures { result ≡ rooms.phase_of events.now hour }
{
    let gates = events.gates();
    let mut phase = Phase::Open;
    for event in gates {
        phase = phase_by(event, hour).unwrap_or(phase);
    }
    phase
}

/// Whether a border is halted in an hour after some events: whether the last halt or resumption of
/// the border in the hour is a halt.
pub fn is_halted(events: &History, border: u32, hour: u32) -> bool
    ensures { result ≡ rooms.is_halted events.now border hour }
{
    let near = events.near(hour);
    let mut halted = false;
    for event in near {
        halted = halt_by(event, border, hour).unwrap_or(halted);
    }
    halted
}

/// The phase that an event gives an hour, if it does.
pub fn phase_by(event: &Event, hour: u32) -> Option<Phase>
    ensures { result ≡ rooms.phase_by hour event.now }
{
    match event {
        Event::Gated { hour: gated, phase } if *gated == hour => Some(*phase),
        _ => None,
    }
}

/// Whether an event leaves a border halted in an hour, if it says so.
pub fn halt_by(event: &Event, border: u32, hour: u32) -> Option<bool>
    ensures { result ≡ rooms.halt_by border hour event.now }
{
    match event {
        Event::Halted {
            border: halted,
            first,
            last,
        } => { said_if(*halted == border && is_within(*first, *last, hour), true) }
        Event::Resumed {
            border: resumed,
            first,
            last,
        } => { said_if(*resumed == border && is_within(*first, *last, hour), false) }
        _ => None,
    }
}

// What is said, where it counts.
fn said_if(counts: bool, halted: bool) -> Option<bool>
    ensures { result ≡ (if counts then Some halted else None) }
{
    if counts { Some(halted) } else { None }
}

/// Whether an hour is one of those from the first to the last.
pub fn is_within(first: u32, last: u32, hour: u32) -> bool
    ensures { result ≡ periods.is_within first last hour }
{
    first <= hour && hour <= last
}
