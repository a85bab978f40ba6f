//! Lists of events, one for each hour.

ghost use Rattle.std.specs.Prelude.{◌≡◌, [], ◌∷◌, ◌++◌, IfOk, OnOk, OnErr, replicate};
ghost use Rattle.event_history.specs.ByHour.{Gain, Lose, but_last, hour_count, is_from};

use crate::touching::Span;
use market_model::{Duplicate, Event, Events};
use std::alloc::Global;
use zone_graph::NoMemory;

/// How many lists there are: one for each number up to the last hour of the longest delivery day.
pub(crate) const HOURS: usize = 26;

// After how many events the list of an hour is copied anew.
const GROWTH: usize = 128;

/// A list without events for each hour.
pub(crate) fn no_events(alloc: Global) -> Result<Vec<Events>, NoMemory>
    ensures { IfOk result (λ made. made.items ≡ replicate hour_count []) }
{
    let mut lists = Vec::with_capacity(alloc, HOURS)?;
    for _hour in 0..HOURS {
        lists.push(Events::new(alloc))?;
    }
    Ok(lists)
}

/// Puts a copy of an event at the end of the list of each of these hours. Where memory runs out the
/// lists stay as they were.
pub(crate) fn note(lists: &mut [Events], hours: Span, event: &Event) -> Result<(), NoMemory>
    ensures ok { OnOk result (Gain (is_from hours.first hours.end) event.now lists.old lists.new) }
    ensures err { OnErr result (lists.new ≡ lists.old) }
{
    for hour in hours.first..hours.end.min(lists.len()) {
        let noted = push_copy(&mut lists[hour], event);
        if noted.is_err() {
            let before = Span {
                first: hours.first,
                end: hour,
            };
            forget(lists, before);
            return noted;
        }
    }
    Ok(())
}

// Puts a copy of an event at the end of a list. Each time that it has grown by so many, the list is copied
// anew, so that the routes of its legs lie together in memory and are read one after the other.
fn push_copy(list: &mut Events, event: &Event) -> Result<(), NoMemory>
    ensures ok { OnOk result (list.new ≡ list.old ++ event.now ∷ []) }
    ensures err { OnErr result (list.new ≡ list.old) }
{
    if list.len() % GROWTH == 0 {
        *list = list.copy()?;
    }
    list.push(event.copy()?)
}

/// Takes the last event off the list of each of these hours.
pub(crate) fn forget(lists: &mut [Events], hours: Span)
    ensures { Lose (is_from hours.first hours.end) lists.old lists.new }
{
    for hour in hours.first..hours.end.min(lists.len()) {
        pop_last(&mut lists[hour]);
    }
}

/// Takes the last event off a list, if there is one.
pub(crate) fn pop_last(list: &mut Events)
    ensures { list.new ≡ but_last list.old }
{
    let _last = list.pop();
}
