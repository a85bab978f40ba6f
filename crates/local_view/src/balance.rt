//! What goes out of zones, and what comes in.

ghost use Rattle.std.specs.Prelude.{◌≡◌, ◌≢◌, ℕ, ◌+◌, ◌<◌, ◌≤◌, ◌==◌, ◌^◌, IsTrue, slice_index_or};
ghost use Rattle.zone_graph.specs.Graph.{HasZone, border_count};
ghost use Rattle.zone_graph.specs.Pour.{lots_if};
ghost use Rattle.local_view.specs.Balances.{HasFew, HasPassed, net_of};
ghost use Rattle.local_view.specs.Drafts.{IsFlow};
ghost use Rattle.local_view.specs.Moved.{flow_in};
ghost use Rattle.local_view.specs.Ways.{PassesOn};

use crate::draft::Flow;
use market_model::Side;
use zone_graph::{Arc, Grid, MOST_ZONES};

/// Whether each zone but one passes on what comes in and as many lots as it gives.
pub(crate) fn is_balanced(
    grid: &Grid,
    flow: &Flow,
    side: Side,
    zone: u32,
    given: &[u32; MOST_ZONES],
) -> bool
    requires flow { IsFlow (border_count grid.now) flow.now }
    ensures { IsTrue result → (other : ℕ) → HasZone grid.now other → other ≢ zone → PassesOn grid.now side (flow_in flow.now) other (slice_index_or given.now other 0) }
{
    let mut balance = Balance::new();
    for border in 0..grid.borders() {
        balance.add(grid, flow, side, border);
    }
    for other in 0..grid.zones() {
        if other != zone && !balance.gives(other, given[other as usize]) {
            return false;
        }
    }
    true
}

// What stands for no lots, so that less than none is a number too.
const LEVEL: u64 = 1 << 41;

// By how much the lots that go out of each zone over some borders are more than those that come in, counted from a level.
#[derive(Drop)]
struct Balance {
    net: [u64; MOST_ZONES],
}

impl Balance {
    // Over no border.
    fn new() -> Balance
        ensures { (zone : ℕ) → zone < 64 → net_of result zone ≡ 2 ^ 41 }
    {
        Balance {
            net: [LEVEL; MOST_ZONES],
        }
    }

    // Whether a zone sends on what comes in and gives so many lots more.
    fn gives(&self, zone: u32, lots: u32) -> bool
        requires zone { zone < 64 }
        ensures { IsTrue result → net_of self.now zone ≡ 2 ^ 41 + lots }
    {
        self.net[zone as usize] == LEVEL + u64::from(lots)
    }

    // Adds what flows over a border.
    #[inline(always)]
    fn add(&mut self, grid: &Grid, flow: &Flow, side: Side, border: u32)
        requires border { border < border_count grid.now }
        requires flow { IsFlow (border_count grid.now) flow.now }
        requires few { HasFew self.old (2 ^ 40) }
        ensures passed { HasPassed grid.now side (flow_in flow.now) border self.old self.new }
        ensures few { (most : ℕ) → HasFew self.old most → HasFew self.new (most + 2 ^ 32) }
    {
        let arc = Arc::over(border, true);
        let (start, end) = grid.ends(arc);
        let (from, to) = match side {
            Side::Sell => (start, end),
            Side::Buy => (end, start),
        };
        self.pass(from, to, flow.of.at(arc), flow.left.at(arc));
    }

    // Lots go out of a zone and come into another one, and others go the other way.
    #[inline(always)]
    fn pass(&mut self, from: u32, to: u32, lots: u32, back: u32)
        requires from { from < 64 }
        requires to { to < 64 }
        requires few { HasFew self.old (2 ^ 40) }
        ensures net { (zone : ℕ) → zone < 64 → net_of self.new zone + lots_if (from == zone) back + lots_if (to == zone) lots ≡ net_of self.old zone + lots_if (from == zone) lots + lots_if (to == zone) back }
        ensures few { (most : ℕ) → HasFew self.old most → HasFew self.new (most + 2 ^ 32) }
    {
        let (lots, back) = (u64::from(lots), u64::from(back));
        let (from, to) = (from as usize, to as usize);
        self.net[from] = self.net[from] + lots - back;
        self.net[to] = self.net[to] + back - lots;
    }
}
