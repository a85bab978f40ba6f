//! Capacity is offered and granted, borders are halted and resumed, and the hour moves to a later phase.

ghost use Rattle.std.specs.Prelude.{◌≡◌, None, OnOk, OnErr};
ghost use Rattle.kept_hour.specs.State as states;

use crate::hour::KeptHour;
use crate::parts::quarters_in_range;
use market_model::Event;
use order_kinds::{Phase, Quarter};
use zone_graph::{Arc, NoMemory};

impl KeptHour {
    /// Offers so many lots on an arc in those quarters of a range that are the hour's. No order is in hand.
    ///
    /// # Errors
    ///
    /// [`NoMemory`] where memory runs out, and then nothing changes.
    pub fn offer(
        &mut self,
        arc: Arc,
        first: Quarter,
        last: Quarter,
        lots: u32,
    ) -> Result<(), NoMemory>
        requires free { self.old.board.hand ≡ None }
        requires next { states.CanBeNext self.old (states.offer_of arc first last lots) }
        ensures offered { OnOk result (self.new ≡ states.after_event self.old (states.offer_of arc first last lots) None) }
        ensures unchanged { OnErr result (self.new ≡ self.old) }
    {
        self.store.reserve(4)?;
        self.events.push(Event::Offered {
            arc,
            first,
            last,
            lots,
        })?;
        let quarters = quarters_in_range(self.hour, first, last);
        self.store.offer(arc, quarters, lots);
        Ok(())
    }

    /// Grants so many lots on an arc in those quarters of a range that are the hour's. No order is in hand.
    ///
    /// # Errors
    ///
    /// [`NoMemory`] where memory runs out, and then nothing changes.
    pub fn grant(
        &mut self,
        arc: Arc,
        first: Quarter,
        last: Quarter,
        lots: u32,
    ) -> Result<(), NoMemory>
        requires free { self.old.board.hand ≡ None }
        requires next { states.CanBeNext self.old (states.grant_of arc first last lots) }
        ensures granted { OnOk result (self.new ≡ states.after_event self.old (states.grant_of arc first last lots) None) }
        ensures unchanged { OnErr result (self.new ≡ self.old) }
    {
        self.store.reserve(1)?;
        self.events.push(Event::Granted {
            arc,
            first,
            last,
            lots,
        })?;
        let quarters = quarters_in_range(self.hour, first, last);
        self.store.grant(arc, quarters, lots);
        Ok(())
    }

    /// Halts trade over a border from an hour to an hour, this one among them. No order is in hand.
    ///
    /// # Errors
    ///
    /// [`NoMemory`] where memory runs out, and then nothing changes.
    pub fn halt(&mut self, border: u32, first: u32, last: u32) -> Result<(), NoMemory>
        requires free { self.old.board.hand ≡ None }
        requires next { states.CanBeNext self.old (states.halt_of border first last) }
        ensures halted { OnOk result (self.new ≡ states.after_event self.old (states.halt_of border first last) None) }
        ensures unchanged { OnErr result (self.new ≡ self.old) }
    {
        self.store.reserve(1)?;
        self.events.push(Event::Halted {
            border,
            first,
            last,
        })?;
        self.store.set_halted(border, true);
        Ok(())
    }

    /// Lets trade over a border go on from an hour to an hour, this one among them. No order is in hand.
    ///
    /// # Errors
    ///
    /// [`NoMemory`] where memory runs out, and then nothing changes.
    pub fn resume(&mut self, border: u32, first: u32, last: u32) -> Result<(), NoMemory>
        requires free { self.old.board.hand ≡ None }
        requires next { states.CanBeNext self.old (states.resumption_of border first last) }
        ensures resumed { OnOk result (self.new ≡ states.after_event self.old (states.resumption_of border first last) None) }
        ensures unchanged { OnErr result (self.new ≡ self.old) }
    {
        self.store.reserve(1)?;
        self.events.push(Event::Resumed {
            border,
            first,
            last,
        })?;
        self.store.set_halted(border, false);
        Ok(())
    }

    /// Moves the hour to a later phase. No order is in hand.
    ///
    /// # Errors
    ///
    /// [`NoMemory`] where memory runs out, and then nothing changes.
    pub fn gate(&mut self, phase: Phase) -> Result<(), NoMemory>
        requires free { self.old.board.hand ≡ None }
        requires next { states.CanBeNext self.old (states.gate_of self.old phase) }
        ensures gated { OnOk result (self.new ≡ states.after_event self.old (states.gate_of self.old phase) None) }
        ensures unchanged { OnErr result (self.new ≡ self.old) }
    {
        self.store.reserve(1)?;
        let hour = self.hour;
        self.events.push(Event::Gated { hour, phase })?;
        self.store.set_phase(phase);
        Ok(())
    }
}
