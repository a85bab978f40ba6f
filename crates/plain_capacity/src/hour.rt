//! The capacity of one hour.

ghost use Rattle.std.specs.Prelude.{◌≡◌, ◌<◌, ◌≤◌, ◌==◌, true, false, [], IfOk, IfSome, length, slice_index_or, take, unwrap_or, ℕ, if◌then◌else◌};
ghost use Rattle.order_kinds.specs.Contract as contracts;
ghost use Rattle.order_kinds.specs.Period as periods;
ghost use Rattle.zone_graph.specs.declared.route.Arc.{Arc};
ghost use Rattle.zone_graph.specs.Graph as graphs;
ghost use Rattle.zone_graph.specs.Rooms as arcs;
ghost use Rattle.event_history.specs.Near.{IsNear};
ghost use Rattle.market_model.specs.Room.{halt_by as halt_said, is_open_phase, phase_by as phase_said};
ghost use Rattle.market_model.specs.WellFormed.{IsLegalOver};
ghost use Rattle.plain_capacity.specs.Rows.{CanCarry, IsCarried, IsNoted, flow_at, row_at};
ghost use Rattle.plain_capacity.specs.Hour as hours;

use crate::phases::{is_within, phase_by};
use crate::quarter::{carry_in_all, idle_rows, note};
use event_history::History;
use market_model::{Event, Leg};
use order_kinds::{Part, Phase, Quarter};
use quarter_capacity::QuarterRow;
use std::alloc::Global;
use std::marker::Model;
use zone_graph::{Arc, Grid, NoMemory, Rooms};

/// The capacity of one hour after a list of events: what is offered and what flows on each border
/// in each quarter, which borders are halted, and the phase. It is summed up anew from the events
/// whenever it is asked for, as the second opinion on the flows that the engine keeps
/// (`flow_netting::HourFlows`).
#[derive(Debug, Drop)]
pub struct HourCapacity {
    first: Vec<QuarterRow>,
    second: Vec<QuarterRow>,
    third: Vec<QuarterRow>,
    fourth: Vec<QuarterRow>,
    halted: Vec<bool>,
    phase: Phase,
}

impl Model for HourCapacity {
    ghost use Rattle.std.specs.Prelude.{length};
    ghost use Rattle.plain_capacity.specs.Hour.{Capacity, IsOfSize};

    ghost Value = { Capacity };

    ghost view = { λ capacity. record {
      first = capacity.first.items;
      second = capacity.second.items;
      third = capacity.third.items;
      fourth = capacity.fourth.items;
      halted = capacity.halted.items;
      phase = capacity.phase;
    } };

    ghost invariant = { λ capacity. IsOfSize (length capacity.halted.items) (record {
      first = capacity.first.items;
      second = capacity.second.items;
      third = capacity.third.items;
      fourth = capacity.fourth.items;
      halted = capacity.halted.items;
      phase = capacity.phase;
    }) };
}

impl HourCapacity {
    // The capacity of an hour before any event.
    fn new(alloc: Global, grid: &Grid) -> Result<HourCapacity, NoMemory>
        ensures { IfOk result (λ made. made ≡ hours.idle (graphs.border_count grid.now)) }
    {
        let count = grid.borders() as usize;
        Ok(HourCapacity {
            first: idle_rows(alloc, count)?,
            second: idle_rows(alloc, count)?,
            third: idle_rows(alloc, count)?,
            fourth: idle_rows(alloc, count)?,
            halted: vec![in alloc; false; count]?,
            phase: Phase::Open,
        })
    }

    // Lets an event of a legal history count. The route of a leg that counts in all quarters is gone along
    // once for all of them.
    fn note(&mut self, hour: u32, event: &Event)
        requires { hours.CanNoteIn hour event.now self.old }
        ensures quarters { periods.EachQuarter (λ number. IsNoted (periods.quarter_of hour number) event.now (hours.rows_in self.old number) (hours.rows_in self.new number)) }
        ensures size { hours.size_of self.new ≡ hours.size_of self.old }
        ensures halts { (border : ℕ) → border < hours.size_of self.old → hours.halted_at self.new border ≡ unwrap_or (halt_said border hour event.now) (hours.halted_at self.old border) }
        ensures phase { self.new.phase ≡ unwrap_or (phase_said hour event.now) self.old.phase }
    {
        match leg_of_hour(event, hour) {
            Some(leg) => self.carry(leg.route.as_slice(), leg.lots),
            None => self.note_quarters(hour, event),
        }
    }

    // Carries so many lots over a route in each quarter.
    fn carry(&mut self, route: &[Arc], lots: u32)
        requires { periods.EachQuarter (λ number. CanCarry (hours.rows_in self.old number) route.now lots) }
        ensures quarters { periods.EachQuarter (λ number. IsCarried route.now lots (hours.rows_in self.old number) (hours.rows_in self.new number)) }
        ensures halts { self.new.halted ≡ self.old.halted }
        ensures phase { self.new.phase ≡ self.old.phase }
    {
        carry_in_all(
            self.first.as_mut_slice(),
            self.second.as_mut_slice(),
            self.third.as_mut_slice(),
            self.fourth.as_mut_slice(),
            route,
            lots,
        );
    }

    // Lets an event of a legal history count, quarter by quarter.
    fn note_quarters(&mut self, hour: u32, event: &Event)
        requires { hours.CanNoteIn hour event.now self.old }
        ensures quarters { periods.EachQuarter (λ number. IsNoted (periods.quarter_of hour number) event.now (hours.rows_in self.old number) (hours.rows_in self.new number)) }
        ensures size { hours.size_of self.new ≡ hours.size_of self.old }
        ensures halts { (border : ℕ) → border < hours.size_of self.old → hours.halted_at self.new border ≡ unwrap_or (halt_said border hour event.now) (hours.halted_at self.old border) }
        ensures phase { self.new.phase ≡ unwrap_or (phase_said hour event.now) self.old.phase }
    {
        note(self.first.as_mut_slice(), quarter_of(hour, 1), event);
        note(self.second.as_mut_slice(), quarter_of(hour, 2), event);
        note(self.third.as_mut_slice(), quarter_of(hour, 3), event);
        note(self.fourth.as_mut_slice(), quarter_of(hour, 4), event);
        note_halt(self.halted.as_mut_slice(), hour, event);
        self.phase = phase_by(event, hour).unwrap_or(self.phase);
    }

    /// Lets the events of a list from a place on count, so that the capacity is that of an hour after all
    /// events. The list has all that touch the hour.
    pub(crate) fn note_from(
        &mut self,
        grid: &Grid,
        events: &History,
        near: &[Event],
        start: usize,
        hour: u32,
    )
        requires legal { IsLegalOver grid.now events.now }
        requires near { IsNear hour events.now near.now }
        requires start { start ≤ length near.now }
        requires before { hours.IsCapacityOf grid.now (take start near.now) hour self.old }
        ensures { hours.IsCapacityOf grid.now events.now hour self.new }
    {
        for place in start..near.len() {
            let event = &near[place];
            if !is_of_orders(event) {
                self.note(hour, event);
            }
        }
    }

    // The rows of the borders in the quarter of this number.
    fn rows_in(&self, number: u32) -> &[QuarterRow]
        requires first { 1 ≤ number }
        requires last { number ≤ 4 }
        ensures rows { result.now ≡ hours.rows_in self.now number }
        ensures size { length result.now ≡ hours.size_of self.now }
    {
        match number {
            1 => self.first.as_slice(),
            2 => self.second.as_slice(),
            3 => self.third.as_slice(),
            _ => self.fourth.as_slice(),
        }
    }

    /// The lots that flow over an arc in the quarter of this number: below 0 where they flow the
    /// other way.
    pub fn flow(&self, arc: Arc, number: u32) -> i64
        requires border { arc.border < hours.size_of self.now }
        requires first { 1 ≤ number }
        requires last { number ≤ 4 }
        ensures { result ≡ hours.flow_in self.now number arc }
    {
        self.rows_in(number)[arc.border as usize].flow(arc.forward)
    }

    /// The room of an arc in the quarter of this number: what remains of what is offered, and none
    /// where the border is halted or the hour is not open.
    pub fn room(&self, arc: Arc, number: u32) -> u32
        requires border { arc.border < hours.size_of self.now }
        requires first { 1 ≤ number }
        requires last { number ≤ 4 }
        ensures { result ≡ hours.room_in self.now arc number }
    {
        if is_open(self.phase) && !self.is_halted(arc.border) {
            self.rows_in(number)[arc.border as usize].remaining(arc.forward)
        } else {
            0
        }
    }

    /// The rooms of all arcs over the quarters of a part of the hour: the least of theirs.
    pub fn rooms(&self, grid: &Grid, part: Part) -> Result<Rooms, NoMemory>
        requires size { hours.size_of self.now ≡ graphs.border_count grid.now }
        requires part { contracts.is_known part ≡ true }
        ensures size { IfOk result (λ made. length made ≡ graphs.border_count grid.now) }
        ensures rooms { IfOk result (λ made. (arc : Arc) → graphs.HasArc grid.now arc → arcs.room_of made arc ≡ hours.part_room self.now part arc) }
    {
        let mut rooms = Rooms::new(grid)?;
        for border in 0..grid.borders() {
            self.write_rooms(border, part, &mut rooms);
        }
        Ok(rooms)
    }

    // Writes the rooms of the two arcs of a border.
    fn write_rooms(&self, border: u32, part: Part, rooms: &mut Rooms)
        requires size { length rooms.old ≡ hours.size_of self.now }
        requires border { border < hours.size_of self.now }
        requires part { contracts.is_known part ≡ true }
        ensures size { length rooms.new ≡ length rooms.old }
        ensures rooms { (arc : Arc) → arcs.room_of rooms.new arc ≡ (if border == arc.border then hours.part_room self.now part arc else arcs.room_of rooms.old arc) }
    {
        let forward = Arc::over(border, true);
        let backward = Arc::over(border, false);
        rooms.set(forward, self.part_room(forward, part));
        rooms.set(backward, self.part_room(backward, part));
    }

    // The room of an arc over the quarters of a part of the hour.
    fn part_room(&self, arc: Arc, part: Part) -> u32
        requires border { arc.border < hours.size_of self.now }
        requires part { contracts.is_known part ≡ true }
        ensures { result ≡ hours.part_room self.now part arc }
    {
        match part {
            Part::Hour => {
                let half = self.room(arc, 1).min(self.room(arc, 2));
                half.min(self.room(arc, 3)).min(self.room(arc, 4))
            }
            Part::Quarter(number) => self.room(arc, number),
            Part::Half(number) => self
                .room(arc, 2 * number - 1)
                .min(self.room(arc, 2 * number)),
        }
    }

    /// Whether a border is halted in the hour.
    pub fn is_halted(&self, border: u32) -> bool
        requires { border < hours.size_of self.now }
        ensures { result ≡ hours.halted_at self.now border }
    {
        self.halted[border as usize]
    }

    /// The phase of the hour.
    pub fn phase(&self) -> Phase
        ensures { result ≡ self.now.phase }
    {
        self.phase
    }
}

// Whether an event enters an order or block, or takes lots off one: it changes no capacity.
fn is_of_orders(event: &Event) -> bool
    ensures { result ≡ hours.is_of_orders event.now }
{
    matches!(
        event,
        Event::Entered { .. }
            | Event::EnteredBlock { .. }
            | Event::Withdrawn { .. }
            | Event::Reduced { .. }
    )
}

// The leg that an event is, where it counts in all quarters of an hour.
fn leg_of_hour(event: &Event, hour: u32) -> Option<&Leg>
    ensures { IfSome result (λ leg. hours.IsLegOfHour hour leg.now event.now) }
{
    match event {
        Event::Leg { contract, leg } if contract.hour == hour && contract.part == Part::Hour => {
            Some(leg)
        }
        Event::BlockLeg { first, last, leg } if is_within(*first, *last, hour) => Some(leg),
        _ => None,
    }
}

// The quarter of this number of an hour.
fn quarter_of(hour: u32, number: u32) -> Quarter
    ensures { result ≡ periods.quarter_of hour number }
{
    Quarter { hour, number }
}

// Whether energy is traded between bidding zones.
fn is_open(phase: Phase) -> bool
    ensures { result ≡ is_open_phase phase }
{
    matches!(phase, Phase::Open)
}

// Lets a halt or a resumption in an hour count.
fn note_halt(halted: &mut [bool], hour: u32, event: &Event)
    requires { hours.HasBorder (length halted.old) hour event.now }
    ensures { (border : ℕ) → border < length halted.old → slice_index_or halted.new border false ≡ unwrap_or (halt_said border hour event.now) (slice_index_or halted.old border false) }
{
    match event {
        Event::Halted {
            border,
            first,
            last,
        } if is_within(*first, *last, hour) => {
            halted[*border as usize] = true;
        }
        Event::Resumed {
            border,
            first,
            last,
        } if is_within(*first, *last, hour) => {
            halted[*border as usize] = false;
        }
        _ => {}
    }
}

/// The capacity of an hour after the events of a first part of a legal history over a grid.
pub fn hour_capacity(
    alloc: Global,
    grid: &Grid,
    events: &History,
    hour: u32,
) -> Result<HourCapacity, NoMemory>
    requires { IsLegalOver grid.now events.now }
    ensures { IfOk result (hours.IsCapacityOf grid.now events.now hour) }
{
    let mut capacity = HourCapacity::new(alloc, grid)?;
    capacity.note_from(grid, events, events.near(hour), 0, hour);
    Ok(capacity)
}
