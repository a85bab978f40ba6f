//! The hour as those that match its orders see it.

use crate::hour::KeptHour;
use crate::legs::make_in;
use crate::parts::{contract_at, quarters_of};
use crate::showing::{first_shown, shown_behind};
use market_model::{Board, Event, Events, Leg, NoMemory, Shown, Side};
use zone_graph::{Duplicate, Rooms};

impl Board for KeptHour {
    type Rest = Events;

    ghost state = { λ hour. hour.board };

    ghost rest = { λ hour. hour.settled };

    fn first(&self, part: u32, side: Side) -> Option<Shown> {
        first_shown(self.store.book(), part, side)
    }

    fn after(&self, number: u32) -> Option<Shown> {
        shown_behind(self.store.book(), number)
    }

    fn rooms(&self, part: u32, into: &mut Rooms) {
        self.store.flows().rooms(quarters_of(part), into);
    }

    fn make(&mut self, part: u32, leg: &Leg) -> Result<(), NoMemory> {
        let copy = leg.copy()?;
        self.store.reserve(leg.route.len() + 2)?;
        self.events.push(Event::Leg {
            contract: contract_at(self.hour, part),
            leg: copy,
        })?;
        let moment = self.events.len() as u64;
        make_in(&mut self.store, self.hand, part, leg, moment);
        Ok(())
    }
}
