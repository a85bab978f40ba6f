//! Lists are cut to their first items.

ghost use Rattle.std.specs.Prelude.{◌≡◌, take};

use market_model::Events;

/// Drops all events but so many of the first.
pub(crate) fn cut(events: &mut Events, len: usize)
    ensures { events.new ≡ take len events.old }
{
    while len < events.len() {
        events.pop();
    }
}
