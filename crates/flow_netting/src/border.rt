//! The capacity of one border in the quarters of an hour.

ghost use Rattle.std.specs.Prelude.{◌≡◌, ◌≤◌, ◌<◌, ◌↔◌, ◌==◌, ◌&&◌, not, true, Some, pos, ◌≤ℤ◌, ◌<ℤ◌, IsErr, IfErr, OnOk, OnErr, IfOk, min, map, replicate, unwrap_or, if◌then◌else◌};
ghost use Rattle.std.specs.Option.{option_map_or};
ghost use Rattle.quarter_capacity.specs.Row as rows;
ghost use Rattle.order_kinds.specs.Period.{EachQuarter};
ghost use Rattle.flow_netting.specs.Border.{idle_border, row_in, set_room};
ghost use Rattle.market_model.specs.Room.{least, lots_of};
ghost use Rattle.flow_netting.specs.QuarterSet.{has, quarters_in};
ghost use Rattle.quarter_capacity.specs.Capacity.{most_offered, most_remaining};

use crate::quarter_set::QuarterSet;
use quarter_capacity::{BelowFlow, QuarterRow};
use std::alloc::Global;
use std::marker::Model;
use zone_graph::NoMemory;

/// The capacity of one border in the four quarters of an hour, and whether the border is halted.
#[derive(Clone, Copy, Debug)]
pub struct BorderFlows {
    rows: [QuarterRow; 4],
    halted: bool,
}

impl Model for BorderFlows {
    ghost use Rattle.flow_netting.specs.Border.{Border};

    ghost Value = { Border };

    ghost view = { λ border. record { rows = border.rows; halted = border.halted } };

    ghost inverse = { λ border. record { rows = border.rows; halted = border.halted } };
}

impl BorderFlows {
    /// A border on which nothing is offered, nothing flows and trade is not halted.
    pub fn new() -> BorderFlows
        ensures { result ≡ idle_border }
    {
        BorderFlows {
            rows: [QuarterRow::new(); 4],
            halted: false,
        }
    }

    /// The row of a quarter.
    pub fn row(&self, number: u32) -> &QuarterRow
        requires first { 1 ≤ number }
        requires last { number ≤ 4 }
        ensures { result.now ≡ row_in self.now number }
    {
        &self.rows[(number - 1) as usize]
    }

    /// Whether trade over the border is halted.
    pub fn is_halted(&self) -> bool
        ensures { result ≡ self.now.halted }
    {
        self.halted
    }

    /// Halts trade over the border, or lets it go on.
    pub fn set_halted(&mut self, halted: bool)
        ensures { self.new ≡ record self.old { halted = halted } }
    {
        self.halted = halted;
    }

    /// Offers so many lots in a direction in a quarter.
    pub fn offer(&mut self, forward: bool, number: u32, lots: u32) -> Result<(), BelowFlow>
        requires first { 1 ≤ number }
        requires last { number ≤ 4 }
        requires most { lots ≤ most_offered }
        ensures rows { OnOk result (EachQuarter (λ quarter. row_in self.new quarter ≡ (if quarter == number then rows.with_offered (row_in self.old quarter) forward lots else row_in self.old quarter))) }
        ensures halted { self.new.halted ≡ self.old.halted }
        ensures enough { OnOk result (rows.flow (row_in self.old number) forward ≤ℤ pos lots) }
        ensures below { IsErr result ↔ (pos lots <ℤ rows.flow (row_in self.old number) forward) }
        ensures flow { IfErr result (λ refusal. pos refusal.flow ≡ rows.flow (row_in self.old number) forward) }
        ensures err { OnErr result (self.new ≡ self.old) }
    {
        self.rows[(number - 1) as usize].offer(forward, lots)?;
        Ok(())
    }

    /// Takes so many lots of what remains in a direction in a quarter.
    pub fn take(&mut self, forward: bool, number: u32, lots: u32)
        requires first { 1 ≤ number }
        requires last { number ≤ 4 }
        requires room { pos lots ≤ℤ rows.remaining (row_in self.old number) forward }
        ensures rows { EachQuarter (λ quarter. row_in self.new quarter ≡ (if quarter == number then rows.with_taken (row_in self.old quarter) forward lots else row_in self.old quarter)) }
        ensures halted { self.new.halted ≡ self.old.halted }
    {
        self.rows[(number - 1) as usize].take(forward, lots);
    }

    /// Takes so many lots of what remains in a direction in each quarter of a set.
    pub fn take_in(&mut self, forward: bool, set: QuarterSet, lots: u32)
        requires room { EachQuarter (λ number. has set number ≡ true → pos lots ≤ℤ rows.remaining (row_in self.old number) forward) }
        ensures rows { EachQuarter (λ number. row_in self.new number ≡ (if has set number then rows.with_taken (row_in self.old number) forward lots else row_in self.old number)) }
        ensures halted { self.new.halted ≡ self.old.halted }
    {
        for number in 1..5 {
            self.take_if(set.contains(number), forward, number, lots);
        }
    }

    // Takes so many lots of what remains in a direction in a quarter, if it counts.
    fn take_if(&mut self, counts: bool, forward: bool, number: u32, lots: u32)
        requires first { 1 ≤ number }
        requires last { number ≤ 4 }
        requires room { counts ≡ true → pos lots ≤ℤ rows.remaining (row_in self.old number) forward }
        ensures rows { EachQuarter (λ quarter. row_in self.new quarter ≡ (if (quarter == number) && counts then rows.with_taken (row_in self.old quarter) forward lots else row_in self.old quarter)) }
        ensures halted { self.new.halted ≡ self.old.halted }
    {
        if counts {
            self.take(forward, number, lots);
        }
    }

    /// The room in a direction over the quarters of a set, in an hour that is open or not.
    pub fn room(&self, is_open: bool, forward: bool, set: QuarterSet) -> u32
        ensures room { result ≡ set_room is_open self.now forward set }
        ensures most { result ≤ most_remaining }
    {
        if trades(is_open, self.is_halted()) {
            self.least_remaining(forward, set)
        } else {
            0
        }
    }

    // The least that remains in a direction in the quarters of a set, and 0 where it has none.
    fn least_remaining(&self, forward: bool, set: QuarterSet) -> u32
        ensures least { result ≡ least (map (λ number. lots_of (rows.remaining (row_in self.now number) forward)) (quarters_in set)) }
        ensures most { result ≤ most_remaining }
    {
        let mut least = None;
        for number in 1..5 {
            least = lesser(
                least,
                set.contains(number),
                self.row(number).remaining(forward),
            );
        }
        least.unwrap_or(0)
    }
}

// Whether energy is traded over a border of an hour that is open or not.
fn trades(is_open: bool, is_halted: bool) -> bool
    ensures { result ≡ (is_open && not is_halted) }
{
    is_open && !is_halted
}

// The lesser of so many lots and the least so far, if they count.
fn lesser(least: Option<u32>, counts: bool, lots: u32) -> Option<u32>
    requires most { lots ≤ most_remaining }
    requires least { unwrap_or least 0 ≤ most_remaining }
    ensures value { result ≡ (if counts then Some (option_map_or (λ so_far. min so_far lots) least lots) else least) }
    ensures most { unwrap_or result 0 ≤ most_remaining }
{
    if !counts {
        return least;
    }
    match least {
        None => Some(lots),
        Some(least) => Some(least.min(lots)),
    }
}

/// So many borders on which nothing is offered, nothing flows and trade is not halted.
pub fn idle_borders(alloc: Global, count: usize) -> Result<Vec<BorderFlows>, NoMemory>
    ensures { IfOk result (λ borders. borders.items ≡ replicate count idle_border) }
{
    let mut borders = Vec::with_capacity(alloc, count)?;
    for border in 0..count {
        borders.push(BorderFlows::new())?;
    }
    Ok(borders)
}
