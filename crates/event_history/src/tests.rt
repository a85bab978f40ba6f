//! Histories with ample memory, and how much is lent for an hour: contracts allow more than what touches it.

use super::*;
use market_model::{Event, Events, Phase};
use std::alloc::Global;
use std::test::Fail;

// An hour that is gated, a border that is halted in three hours, and another hour that is gated.
fn three_events(alloc: Global) -> Result<Events, NoMemory> {
    let mut events = Events::new(alloc);
    events.push(Event::Gated {
        hour: 1,
        phase: Phase::Local,
    })?;
    events.push(Event::Halted {
        border: 0,
        first: 23,
        last: 25,
    })?;
    events.push(Event::Gated {
        hour: 25,
        phase: Phase::Local,
    })?;
    Ok(events)
}

#[test]
fn each_hour_is_lent_its_own_events(rt: HostRuntime) -> Result<(), Fail> {
    let alloc = rt.alloc();
    let events = three_events(alloc)?;
    let mut history = History::of(alloc, events.as_slice())?;
    let lent = [1, 2, 23, 25, 26].map(|hour| history.near(hour).len());
    assert_eq!(rt; lent, [1, 0, 1, 2, 3]);
    history.push(Event::Gated {
        hour: 2,
        phase: Phase::Local,
    })?;
    assert_eq!(rt; history.near(2).len(), 1);
    assert_eq!(rt; history.len(), 4);
    Ok(())
}
