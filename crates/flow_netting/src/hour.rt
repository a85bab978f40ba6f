//! The flows of one hour.

ghost use Rattle.std.specs.Prelude.{◌≡◌, ◌≤◌, ◌<◌, ◌↔◌, ◌==◌, ◌&&◌, pos, neg_ℤ, ◌≤ℤ◌, ◌<ℤ◌, ◌+ℤ◌, true, false, IsErr, IfErr, IfOk, OnOk, OnErr, length, ℕ, if◌then◌else◌};
ghost use Rattle.zone_graph.specs.declared.route.Arc.{Arc};
ghost use Rattle.zone_graph.specs.Graph as graphs;
ghost use Rattle.zone_graph.specs.Pour.{same_arc, uses};
ghost use Rattle.zone_graph.specs.Rooms as rooms;
ghost use Rattle.market_model.specs.Room.{is_open_phase};
ghost use Rattle.flow_netting.specs.Flows as flows;
ghost use Rattle.flow_netting.specs.QuarterSet.{has};
ghost use Rattle.quarter_capacity.specs.Capacity.{most_remaining, most_offered};

use crate::border::{BorderFlows, idle_borders};
use crate::borders;
use crate::quarter_set::QuarterSet;
use order_kinds::Phase;
use quarter_capacity::BelowFlow;
use std::alloc::Global;
use std::marker::Model;
use zone_graph::{Arc, Grid, NoMemory, Rooms, Route};

/// The flows of one hour over the borders of a grid: for each border and quarter what is offered
/// and what flows, for each border whether trade over it is halted, and the hour's phase. The engine
/// keeps them and changes them in place; the plain market sums up the same from the list of events.
///
/// All numbers are lots, tenths of a MW. The quarters of an hour are numbered from 1 to 4. On each
/// arc in each quarter at most 1000000 lots are offered and at most what is offered flows, so from
/// 0 to 2000000 lots remain.
#[derive(Debug, Drop)]
pub struct HourFlows {
    borders: Vec<BorderFlows>,
    phase: Phase,
}

impl Model for HourFlows {
    ghost use Rattle.std.specs.Prelude.{◌≤◌, length};
    ghost use Rattle.flow_netting.specs.Flows.{Flows};

    ghost Value = { Flows };

    ghost view = { λ flows. record { borders = flows.borders.items; phase = flows.phase } };

    ghost invariant = { λ flows. length flows.borders.items ≤ 128 };
}

impl HourFlows {
    /// The flows of an hour before its first command: nothing is offered, nothing flows, no border
    /// is halted, and the hour is open.
    pub fn new(alloc: Global, grid: &Grid) -> Result<HourFlows, NoMemory>
        ensures size { IfOk result (λ made. flows.border_count made ≡ graphs.border_count grid.now) }
        ensures offers { IfOk result (λ made. flows.InEachQuarter (λ arc number. flows.offered_of made arc number ≡ 0)) }
        ensures flows { IfOk result (λ made. flows.InEachQuarter (λ arc number. flows.flow_of made arc number ≡ pos 0)) }
        ensures halts { IfOk result (λ made. (border : ℕ) → flows.is_halted made border ≡ false) }
        ensures phase { IfOk result (λ made. made.phase ≡ Phase.Open) }
    {
        Ok(HourFlows {
            borders: idle_borders(alloc, grid.borders() as usize)?,
            phase: Phase::Open,
        })
    }

    /// Makes an equal value.
    pub fn copy(&self) -> Result<HourFlows, NoMemory>
        ensures { IfOk result (λ copy. copy ≡ self.now) }
    {
        Ok(HourFlows {
            borders: Vec::from_slice(*self.borders.allocator(), self.borders.as_slice())?,
            phase: self.phase,
        })
    }

    /// The lots that remain on an arc in a quarter: what is offered there less what flows there, so
    /// a flow the other way adds to them. Neither halts nor the phase change them.
    pub fn remaining(&self, arc: Arc, number: u32) -> u32
        requires border { arc.border < flows.border_count self.now }
        requires first { 1 ≤ number }
        requires last { number ≤ 4 }
        ensures value { pos result ≡ flows.remaining_of self.now arc number }
        ensures most { result ≤ most_remaining }
    {
        self.borders.as_slice()[arc.border as usize]
            .row(number)
            .remaining(arc.forward)
    }

    /// The lots that flow over an arc in a quarter: below 0 where they flow the other way.
    pub fn flow(&self, arc: Arc, number: u32) -> i64
        requires border { arc.border < flows.border_count self.now }
        requires first { 1 ≤ number }
        requires last { number ≤ 4 }
        ensures value { result ≡ flows.flow_of self.now arc number }
        ensures most { result ≤ℤ pos (flows.offered_of self.now arc number) }
        ensures greatest { result ≤ℤ pos most_offered }
        ensures least { neg_ℤ (pos most_offered) ≤ℤ result }
    {
        self.borders.as_slice()[arc.border as usize]
            .row(number)
            .flow(arc.forward)
    }

    /// The room of an arc over the quarters of a set: the least of what remains in them, and none
    /// where the border is halted or the hour is not open.
    pub fn room(&self, set: QuarterSet, arc: Arc) -> u32
        requires border { arc.border < flows.border_count self.now }
        ensures room { result ≡ flows.room_of self.now set arc }
        ensures most { result ≤ most_remaining }
    {
        self.borders.as_slice()[arc.border as usize].room(is_open(self.phase), arc.forward, set)
    }

    /// Writes the room of each arc over the quarters of a set: the least of what remains in them,
    /// and none where the border is halted or the hour is not open.
    pub fn rooms(&self, set: QuarterSet, into: &mut Rooms)
        requires { length into.old ≡ flows.border_count self.now }
        ensures size { length into.new ≡ length into.old }
        ensures rooms { (arc : Arc) → arc.border < flows.border_count self.now → rooms.room_of into.new arc ≡ flows.room_of self.now set arc }
        ensures most { (arc : Arc) → arc.border < flows.border_count self.now → rooms.room_of into.new arc ≤ most_remaining }
    {
        borders::write_rooms(self.borders.as_slice(), is_open(self.phase), set, into);
    }

    /// Carries so many lots over a route in each quarter of a set: so many more flow over its arcs,
    /// and so many less over the opposite ones. Nothing else changes.
    pub fn carry(&mut self, route: &Route, set: QuarterSet, lots: u32)
        requires borders { flows.IsOverBorders self.old.borders route.now }
        requires room { flows.HasLotsLeft self.old.borders route.now set lots }
        ensures flows { flows.InEachQuarter (λ arc number. flows.flow_of self.new arc number ≡ (if has set number then flows.flow_of self.old arc number +ℤ flows.added_by (uses route.now) lots arc else flows.flow_of self.old arc number)) }
        ensures offers { flows.SameOffers self.old.borders self.new.borders }
        ensures halts { flows.SameHalts self.old.borders self.new.borders }
        ensures phase { self.new.phase ≡ self.old.phase }
        ensures size { flows.border_count self.new ≡ flows.border_count self.old }
    {
        borders::carry(self.borders.as_mut_slice(), route.as_slice(), set, lots);
    }

    /// Grants so many lots on an arc in a quarter: so many more flow over it, and so many less over
    /// the opposite one. Nothing else changes.
    pub fn grant(&mut self, arc: Arc, number: u32, lots: u32)
        requires border { arc.border < flows.border_count self.old }
        requires first { 1 ≤ number }
        requires last { number ≤ 4 }
        requires room { pos lots ≤ℤ flows.remaining_of self.old arc number }
        ensures flows { flows.InEachQuarter (λ other quarter. flows.flow_of self.new other quarter ≡ (if quarter == number then flows.flow_of self.old other quarter +ℤ flows.added_by (same_arc arc) lots other else flows.flow_of self.old other quarter)) }
        ensures offers { flows.SameOffers self.old.borders self.new.borders }
        ensures halts { flows.SameHalts self.old.borders self.new.borders }
        ensures phase { self.new.phase ≡ self.old.phase }
        ensures size { flows.border_count self.new ≡ flows.border_count self.old }
    {
        borders::take(self.borders.as_mut_slice(), arc, number, lots);
    }

    /// Offers so many lots on an arc in a quarter, in place of those that were offered there before.
    /// Nothing else changes.
    ///
    /// # Errors
    ///
    /// [`BelowFlow`] exactly where more than `lots` flow over the arc, with what flows. The flows
    /// then stay as they were.
    pub fn offer(&mut self, arc: Arc, number: u32, lots: u32) -> Result<(), BelowFlow>
        requires border { arc.border < flows.border_count self.old }
        requires first { 1 ≤ number }
        requires last { number ≤ 4 }
        requires most { lots ≤ most_offered }
        ensures offers { OnOk result (flows.InEachQuarter (λ other quarter. flows.offered_of self.new other quarter ≡ (if same_arc arc other && (quarter == number) then lots else flows.offered_of self.old other quarter))) }
        ensures flows { flows.SameFlows self.old.borders self.new.borders }
        ensures halts { flows.SameHalts self.old.borders self.new.borders }
        ensures phase { self.new.phase ≡ self.old.phase }
        ensures size { flows.border_count self.new ≡ flows.border_count self.old }

        // There is no error where what flows is offered, and after one nothing has changed.
        ensures enough { OnOk result (flows.flow_of self.old arc number ≤ℤ pos lots) }
        ensures below { IsErr result ↔ (pos lots <ℤ flows.flow_of self.old arc number) }
        ensures flow { IfErr result (λ refusal. pos refusal.flow ≡ flows.flow_of self.old arc number) }
        ensures err { OnErr result (self.new ≡ self.old) }
    {
        borders::offer(self.borders.as_mut_slice(), arc, number, lots)?;
        Ok(())
    }

    /// Halts trade over a border. Nothing else changes.
    pub fn halt(&mut self, border: u32)
        requires { border < flows.border_count self.old }
        ensures halts { (other : ℕ) → flows.is_halted self.new other ≡ (if other == border then true else flows.is_halted self.old other) }
        ensures offers { flows.SameOffers self.old.borders self.new.borders }
        ensures flows { flows.SameFlows self.old.borders self.new.borders }
        ensures phase { self.new.phase ≡ self.old.phase }
        ensures size { flows.border_count self.new ≡ flows.border_count self.old }
    {
        borders::set_halted(self.borders.as_mut_slice(), border, true);
    }

    /// Lets trade over a border go on. Nothing else changes.
    pub fn resume(&mut self, border: u32)
        requires { border < flows.border_count self.old }
        ensures halts { (other : ℕ) → flows.is_halted self.new other ≡ (if other == border then false else flows.is_halted self.old other) }
        ensures offers { flows.SameOffers self.old.borders self.new.borders }
        ensures flows { flows.SameFlows self.old.borders self.new.borders }
        ensures phase { self.new.phase ≡ self.old.phase }
        ensures size { flows.border_count self.new ≡ flows.border_count self.old }
    {
        borders::set_halted(self.borders.as_mut_slice(), border, false);
    }

    /// Whether trade over a border is halted.
    pub fn halted(&self, border: u32) -> bool
        requires { border < flows.border_count self.now }
        ensures { result ≡ flows.is_halted self.now border }
    {
        self.borders.as_slice()[border as usize].is_halted()
    }

    /// The phase of the hour.
    pub fn phase(&self) -> Phase
        ensures { result ≡ self.now.phase }
    {
        self.phase
    }

    /// Gives the hour a phase. Nothing else changes.
    pub fn set_phase(&mut self, phase: Phase)
        ensures { self.new ≡ record self.old { phase = phase } }
    {
        self.phase = phase;
    }
}

// Whether energy may be traded between bidding zones.
fn is_open(phase: Phase) -> bool
    ensures { result ≡ is_open_phase phase }
{
    matches!(phase, Phase::Open)
}
