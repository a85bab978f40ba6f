//! Histories that are tried, and cut back to what they were.

ghost use Rattle.std.specs.Prelude.{◌≡◌, ◌-◌, length, take};

use event_history::History;

/// Takes the last events off until no more than so many are left.
pub fn cut_back(events: &mut History, count: usize)
    ensures { events.new ≡ take count events.old }
{
    while events.len() > count {
        drop_last(events);
    }
}

// Takes the last event off, if there is one.
#[tactic(auto, using(crate::proofs::Growths::last_off))]
fn drop_last(events: &mut History)
    ensures { events.new ≡ take (length events.old - 1) events.old }
{
    events.pop();
}
