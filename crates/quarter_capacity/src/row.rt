//! What is offered on the two arcs of a border in a quarter, and what flows over them.

ghost use Rattle.std.specs.Prelude.{◌≡◌, ◌≤◌, ◌↔◌, pos, neg_ℤ, ◌≤ℤ◌, ◌<ℤ◌, IsErr, IfErr, OnOk, OnErr};
ghost use Rattle.quarter_capacity.specs.Capacity.{most_offered, most_remaining};
ghost use Rattle.quarter_capacity.specs.Row as rows;

use std::marker::Model;

/// The most lots that are offered on an arc in a quarter: 100000.0 MW.
pub const MOST_OFFERED: u32 = 1_000_000;

/// The most lots that remain on an arc in a quarter: all that is offered on it, and as much as may
/// be offered and flow on the opposite one.
pub const MOST_REMAINING: u32 = 2_000_000;

/// An offer was below what flows over the arc.
#[derive(Clone, Copy, Debug, PartialEq, Eq)]
pub struct BelowFlow {
    /// The lots that flow over the arc.
    pub flow: u32,
}

/// The capacity of a border in one quarter of an hour, in lots.
///
/// Contracts see what is offered on the two arcs and what flows over the forward arc, which leads
/// from the border's first zone to its second. Over the opposite arc as much flows with the other
/// sign. On each arc at most [`MOST_OFFERED`] lots are offered and at most what is offered flows, so
/// from 0 to [`MOST_REMAINING`] lots remain.
#[derive(Clone, Copy, Debug, PartialEq, Eq)]
pub struct QuarterRow {
    forward_offered: u32,
    opposite_offered: u32,
    forward_flow: i64,
}

impl Model for QuarterRow {
    ghost use Rattle.std.specs.Prelude.{◌≤◌, pos, neg_ℤ, ◌≤ℤ◌};
    ghost use Rattle.quarter_capacity.specs.Row.{Row};
    ghost use Rattle.quarter_capacity.specs.Capacity.{most_offered};

    ghost Value = { Row };

    ghost view = { λ row. record {
      forward_offered = row.forward_offered;
      opposite_offered = row.opposite_offered;
      forward_flow = row.forward_flow;
    } };

    ghost inverse = { λ row. record {
      forward_offered = row.forward_offered;
      opposite_offered = row.opposite_offered;
      forward_flow = row.forward_flow;
    } };

    ghost invariant = { λ row. (row.forward_flow ≤ℤ pos row.forward_offered)
        × (neg_ℤ row.forward_flow ≤ℤ pos row.opposite_offered)
        × (row.forward_offered ≤ most_offered) × (row.opposite_offered ≤ most_offered) };
}

impl QuarterRow {
    /// A border on which nothing is offered and nothing flows.
    pub fn new() -> QuarterRow
        ensures { result ≡ rows.nothing_offered }
    {
        QuarterRow {
            forward_offered: 0,
            opposite_offered: 0,
            forward_flow: 0,
        }
    }

    /// The lots that are offered on the forward arc, or else on the opposite one.
    pub fn offered(&self, forward: bool) -> u32
        ensures value { result ≡ rows.offered self.now forward }
        ensures most { result ≤ most_offered }
    {
        if forward {
            self.forward_offered
        } else {
            self.opposite_offered
        }
    }

    /// The lots that flow over the forward arc, or else over the opposite one: below 0 where they
    /// flow the other way, and at most what is offered there.
    pub fn flow(&self, forward: bool) -> i64
        ensures value { result ≡ rows.flow self.now forward }
        ensures most { result ≤ℤ pos (rows.offered self.now forward) }
        ensures greatest { result ≤ℤ pos most_offered }
        ensures least { neg_ℤ (pos most_offered) ≤ℤ result }
    {
        if forward {
            self.forward_flow
        } else {
            -self.forward_flow
        }
    }

    /// The lots that remain on the forward arc, or else on the opposite one: what is offered there
    /// less what flows there, so a flow the other way adds to them.
    pub fn remaining(&self, forward: bool) -> u32
        ensures value { pos result ≡ rows.remaining self.now forward }
        ensures most { result ≤ most_remaining }
    {
        (i64::from(self.offered(forward)) - self.flow(forward)) as u32
    }

    /// Offers so many lots on the forward arc, or else on the opposite one, in place of those that
    /// were offered there before.
    ///
    /// # Errors
    ///
    /// [`BelowFlow`] exactly where more than `lots` flow over the arc, with what flows. The row
    /// then stays as it was.
    pub fn offer(&mut self, forward: bool, lots: u32) -> Result<(), BelowFlow>
        requires { lots ≤ most_offered }
        ensures ok { OnOk result (self.new ≡ rows.with_offered self.old forward lots) }

        // There is no error where what flows is offered, and after one nothing has changed.
        ensures enough { OnOk result (rows.flow self.old forward ≤ℤ pos lots) }
        ensures below { IsErr result ↔ (pos lots <ℤ rows.flow self.old forward) }
        ensures flow { IfErr result (λ refusal. pos refusal.flow ≡ rows.flow self.old forward) }
        ensures err { OnErr result (self.new ≡ self.old) }
    {
        let flow = self.flow(forward);
        if i64::from(lots) < flow {
            return Err(BelowFlow { flow: flow as u32 });
        }
        if forward {
            self.forward_offered = lots;
        } else {
            self.opposite_offered = lots;
        }
        Ok(())
    }

    /// Takes so many lots of what remains on the forward arc, or else on the opposite one: so many
    /// more flow over it, and nothing else changes.
    pub fn take(&mut self, forward: bool, lots: u32)
        requires { pos lots ≤ℤ rows.remaining self.old forward }
        ensures { self.new ≡ rows.with_taken self.old forward lots }
    {
        if forward {
            self.forward_flow += i64::from(lots);
        } else {
            self.forward_flow -= i64::from(lots);
        }
    }
}
