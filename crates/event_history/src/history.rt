//! A list of events that are kept by hour as well.

ghost use Rattle.std.specs.Prelude.{◌≡◌, ◌<◌, ◌↔◌, [], ◌∷◌, ◌++◌, filter, length, IsSome, IfOk, OnOk, OnErr, if◌then◌else◌};
ghost use Rattle.std.specs.Option.{option_to_list};
ghost use Rattle.event_history.specs.ByHour as by_hour;
ghost use Rattle.event_history.specs.ByHour.{but_last};
ghost use Rattle.event_history.specs.Near.{AreGates, IsNear, is_gate};

use crate::by_hour::{HOURS, forget, no_events, note, pop_last};
use crate::touching::Span;
use market_model::{Duplicate, Event, Events};
use std::alloc::Global;
use std::marker::Model;
use zone_graph::NoMemory;

/// Events in order, which contracts see as a plain list. Beside them it keeps for each hour copies of
/// those that touch the hour, and copies of the gates of all hours.
#[derive(Debug, Drop)]
pub struct History {
    events: Events,
    hours: Vec<Events>,
    gates: Events,
}

impl Model for History {
    ghost use Rattle.std.specs.Prelude.{List};
    ghost use Rattle.market_model.specs.declared.event.Event.{Event};

    ghost Value = { List Event };

    ghost use Rattle.event_history.specs.ByHour.{AreByHour};
    ghost use Rattle.event_history.specs.Near.{AreGates};

    ghost view = { λ history. history.events };

    ghost invariant = { λ history. AreByHour history.events history.hours.items × AreGates history.events history.gates };
}

impl History {
    /// No event.
    ///
    /// # Errors
    ///
    /// [`NoMemory`], where there is no memory for the lists of the hours.
    pub fn new(alloc: Global) -> Result<History, NoMemory>
        ensures { IfOk result (λ made. made ≡ []) }
    {
        Ok(History {
            events: Events::new(alloc),
            hours: no_events(alloc)?,
            gates: Events::new(alloc),
        })
    }

    /// These events.
    ///
    /// # Errors
    ///
    /// [`NoMemory`], where there is no memory for copies of the events.
    pub fn of(alloc: Global, events: &[Event]) -> Result<History, NoMemory>
        ensures { IfOk result (λ made. made ≡ events.now) }
    {
        let mut history = History::new(alloc)?;
        for event in events {
            history.push(event.copy()?)?;
        }
        Ok(history)
    }

    /// Lends all events, in order.
    pub fn as_slice(&self) -> &[Event]
        ensures { result.now ≡ self.now }
    {
        self.events.as_slice()
    }

    /// Lends the events that touch an hour, in order; others may stand between them.
    #[tactic(auto, using(crate::proofs::ByHour::listed_near))]
    pub fn near(&self, hour: u32) -> &[Event]
        ensures { IsNear hour self.now result.now }
    {
        self.listed(hour)
    }

    /// Lends the list of an hour: the events that touch it, in order, and all events of an hour that
    /// [`History::has_list`] denies one.
    #[tactic(auto, using(crate::proofs::ByHour::listed_own, crate::proofs::ByHour::listed_all))]
    pub fn listed(&self, hour: u32) -> &[Event]
        ensures { result.now ≡ by_hour.listed hour self.now }
    {
        match self.hours.as_slice().get(hour as usize) {
            Some(list) => list.as_slice(),
            None => self.events.as_slice(),
        }
    }

    /// Whether an hour is one of those that a list is kept for.
    pub fn has_list(hour: u32) -> bool
        ensures { result ≡ by_hour.has_list hour }
    {
        (hour as usize) < HOURS
    }

    /// Lends the gates of all hours, in order.
    pub fn gates(&self) -> &[Event]
        ensures { AreGates self.now result.now }
    {
        self.gates.as_slice()
    }

    /// How many events there are.
    pub fn len(&self) -> usize
        ensures { result ≡ length self.now }
    {
        self.events.len()
    }

    /// Puts an event at the end.
    ///
    /// # Errors
    ///
    /// [`NoMemory`], where there is no memory for it; the events stay as they were.
    pub fn push(&mut self, event: Event) -> Result<(), NoMemory>
        ensures ok { OnOk result (self.new ≡ self.old ++ event ∷ []) }
        ensures err { OnErr result (self.new ≡ self.old) }
    {
        let touched = Span::touched_by(&event);
        note(self.hours.as_mut_slice(), touched, &event)?;
        let kept = keep(&mut self.events, &mut self.gates, event);
        if kept.is_err() {
            forget(self.hours.as_mut_slice(), touched);
        }
        kept
    }

    /// Takes the last event: `None` exactly where there is none.
    pub fn pop(&mut self) -> Option<Event>
        ensures items { self.old ≡ self.new ++ option_to_list result }
        ensures some { IsSome result ↔ (0 < length self.old) }
    {
        let event = self.events.pop()?;
        forget(self.hours.as_mut_slice(), Span::touched_by(&event));
        forget_gate(&mut self.gates, &event);
        Some(event)
    }
}

// Puts an event at the end of all events, and of the gates if it is one.
fn keep(events: &mut Events, gates: &mut Events, event: Event) -> Result<(), NoMemory>
    ensures events { OnOk result (events.new ≡ events.old ++ event ∷ []) }
    ensures gates { OnOk result (gates.new ≡ gates.old ++ filter is_gate (event ∷ [])) }
    ensures events_err { OnErr result (events.new ≡ events.old) }
    ensures gates_err { OnErr result (gates.new ≡ gates.old) }
{
    match event {
        Event::Gated { hour, phase } => {
            gates.push(Event::Gated { hour, phase })?;
            let pushed = events.push(Event::Gated { hour, phase });
            if pushed.is_err() {
                pop_last(gates);
            }
            pushed
        }
        other => events.push(other),
    }
}

// Takes the last gate off, if an event that is taken off is one.
fn forget_gate(gates: &mut Events, event: &Event)
    ensures { gates.new ≡ (if is_gate event.now then but_last gates.old else gates.old) }
{
    if let Event::Gated { .. } = event {
        pop_last(gates);
    }
}
