//! The sums of a journal, made in one pass over its events.

ghost use Rattle.std.specs.Prelude.{◌≡◌, ℕ, ◌+◌, ◌&&◌, Bool, List, [], ◌∷◌, ◌++◌, length, map, replicate, IfOk, OnOk};
ghost use Rattle.zone_graph.specs.Pour.{uses};
ghost use Rattle.zone_graph.specs.Route.{AreDifferent};
ghost use Rattle.market_model.specs.declared.event.Event.{Event as EventValue};
ghost use Rattle.market_model.specs.History.{and_then, events_of, journal_events};
ghost use Rattle.ship_schedule.specs.Places.{period_has, quarter_at};
ghost use Rattle.ship_schedule.specs.Rows.{Counted, InRows, SameShape, amount, empty_rows};
ghost use Rattle.ship_schedule.specs.Tally as tallies;

use crate::party_index::{Parties, Party};
use crate::sums::Sums;
use crate::{Period, Rows};
use market_model::{Entry, Event, Leg, Reply, Setup};
use std::alloc::Global;
use zone_graph::{Arc, NoMemory};

/// The sums of the events so far, and who their orders and blocks are of.
#[derive(Drop)]
pub(crate) struct Tally {
    /// The sums.
    pub(crate) sums: Sums,

    /// The parties of orders and blocks, by hour.
    pub(crate) parties: Parties,
}

impl Tally {
    /// The tally of no event.
    pub(crate) fn new(alloc: Global, setup: &Setup) -> Result<Tally, NoMemory>
        ensures counts { IfOk result (λ tally. tallies.Counts [] tally) }
        ensures size { IfOk result (λ tally. tallies.IsSized setup.now tally) }
    {
        let hours = setup.hours as usize;
        let sums = Sums {
            traded: Rows::new(alloc, 4 * hours, setup.borders.len())?,
            granted: Rows::new(alloc, 4 * hours, setup.borders.len())?,
            positions: Rows::new(alloc, 4 * hours, setup.zones.len())?,
        };
        Ok(Tally {
            sums,
            parties: Parties::new(alloc, hours + 1)?,
        })
    }
}

/// Counts the events of a journal's entries.
pub(crate) fn count_entries(tally: &mut Tally, entries: &[Entry]) -> Result<(), NoMemory>
    ensures counts { OnOk result (tallies.Counts [] tally.old → tallies.AreWithin (length tally.old.parties) (journal_events entries.now) → tallies.Counts (journal_events entries.now) tally.new) }
    ensures size { OnOk result (tallies.SameSize tally.old tally.new) }
{
    for entry in entries {
        count_entry(tally, entry)?;
    }
    Ok(())
}

// Counts the events of an entry.
fn count_entry(tally: &mut Tally, entry: &Entry) -> Result<(), NoMemory>
    ensures counts { OnOk result ((before : List EventValue) → tallies.Counts before tally.old → tallies.AreWithin (length tally.old.parties) (events_of entry.now.reply) → tallies.Counts (before ++ events_of entry.now.reply) tally.new) }
    ensures size { OnOk result (tallies.SameSize tally.old tally.new) }
{
    match &entry.reply {
        Reply::Done(events) => {
            count_events(tally, events.as_slice())?;
            Ok(())
        }
        Reply::Seen(_) => Ok(()),
        Reply::Refused(_) => Ok(()),
    }
}

/// Counts some events.
pub(crate) fn count_events(tally: &mut Tally, events: &[Event]) -> Result<(), NoMemory>
    ensures counts { OnOk result ((before : List EventValue) → tallies.Counts before tally.old → tallies.AreWithin (length tally.old.parties) events.now → tallies.Counts (before ++ events.now) tally.new) }
    ensures size { OnOk result (tallies.SameSize tally.old tally.new) }
{
    for event in events {
        count_event(tally, event)?;
    }
    Ok(())
}

// Counts an event.
fn count_event(tally: &mut Tally, event: &Event) -> Result<(), NoMemory>
    ensures counts { OnOk result ((before : List EventValue) → tallies.Counts before tally.old → tallies.IsWithin (length tally.old.parties) event.now → tallies.Counts (and_then before event.now) tally.new) }
    ensures size { OnOk result (tallies.SameSize tally.old tally.new) }
{
    match event {
        Event::Entered { name, order, .. } => {
            tally
                .parties
                .note(*name, Party::new(order.zone, order.side))?;
            Ok(())
        }
        Event::EnteredBlock { name, order, .. } => {
            tally
                .parties
                .note(*name, Party::new(order.zone, order.side))?;
            Ok(())
        }
        Event::Leg { contract, leg } => {
            count_leg(tally, Period::Contract(*contract), leg)?;
            Ok(())
        }
        Event::BlockLeg { first, last, leg } => {
            let period = Period::Hours {
                first: *first,
                last: *last,
            };
            count_leg(tally, period, leg)?;
            Ok(())
        }
        Event::Granted {
            arc,
            first,
            last,
            lots,
        } => {
            let period = Period::Range {
                first: *first,
                last: *last,
            };
            tally
                .sums
                .granted
                .count(period, arc.border as usize, arc.forward, *lots)?;
            Ok(())
        }
        Event::Offered { .. } => Ok(()),
        Event::Halted { .. } => Ok(()),
        Event::Resumed { .. } => Ok(()),
        Event::Gated { .. } => Ok(()),
        Event::Withdrawn { .. } => Ok(()),
        Event::Reduced { .. } => Ok(()),
    }
}

// Counts a leg for the borders of its route, and for the zones of its taker and its maker.
fn count_leg(tally: &mut Tally, period: Period, leg: &Leg) -> Result<(), NoMemory>
    ensures traded { OnOk result (AreDifferent (map (λ arc. arc.border) leg.now.route) → Counted tally.old.sums.traded tally.new.sums.traded (λ place border forward. period_has period (quarter_at place) && uses leg.now.route (tallies.arc_over border forward)) leg.now.lots) }
    ensures traded_shape { OnOk result (SameShape tally.old.sums.traded tally.new.sums.traded) }
    ensures positions { OnOk result ((place zone : ℕ) (selling : Bool) → InRows tally.old.sums.positions place zone → amount tally.new.sums.positions place zone selling ≡ amount tally.old.sums.positions place zone selling + tallies.party_lots period (quarter_at place) zone selling leg.now.lots (tallies.party_at tally.old.parties leg.now.taker) + tallies.party_lots period (quarter_at place) zone selling leg.now.lots (tallies.party_at tally.old.parties leg.now.maker)) }
    ensures positions_shape { OnOk result (SameShape tally.old.sums.positions tally.new.sums.positions) }
    ensures granted { OnOk result (tally.new.sums.granted ≡ tally.old.sums.granted) }
    ensures parties { OnOk result (tally.new.parties ≡ tally.old.parties) }
{
    let taker = tally.parties.party(leg.taker);
    let maker = tally.parties.party(leg.maker);
    count_route(
        &mut tally.sums.traded,
        period,
        leg.route.as_slice(),
        leg.lots,
    )?;
    count_party(&mut tally.sums.positions, period, taker, leg.lots)?;
    count_party(&mut tally.sums.positions, period, maker, leg.lots)?;
    Ok(())
}

// Counts lots for each arc of a route, in each quarter of a period.
fn count_route(rows: &mut Rows, period: Period, route: &[Arc], lots: u32) -> Result<(), NoMemory>
    ensures counted { OnOk result (AreDifferent (map (λ arc. arc.border) route.now) → Counted rows.old rows.new (λ place border forward. period_has period (quarter_at place) && uses route.now (tallies.arc_over border forward)) lots) }
    ensures shape { OnOk result (SameShape rows.old rows.new) }
{
    for arc in route {
        rows.count(period, arc.border as usize, arc.forward, lots)?;
    }
    Ok(())
}

// Counts lots for the zone of a party, if there is one, in each quarter of a period.
fn count_party(
    rows: &mut Rows,
    period: Period,
    party: Option<Party>,
    lots: u32,
) -> Result<(), NoMemory>
    ensures counted { OnOk result ((place zone : ℕ) (selling : Bool) → InRows rows.old place zone → amount rows.new place zone selling ≡ amount rows.old place zone selling + tallies.party_lots period (quarter_at place) zone selling lots party) }
    ensures shape { OnOk result (SameShape rows.old rows.new) }
{
    match party {
        Some(party) => {
            rows.count(period, party.zone as usize, party.sells, lots)?;
            Ok(())
        }
        None => Ok(()),
    }
}
