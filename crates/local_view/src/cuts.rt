//! Rows that a flow and cuts certify.

ghost use Rattle.std.specs.Prelude.{◌≡◌, ◌+◌, ◌<◌, ◌≤◌, ◌^◌, ℕ, IsTrue, List, OnOk, length, map, slice_index_or, slice_set, take};
ghost use Rattle.zone_graph.specs.Graph.{HasZone, border_count};
ghost use Rattle.zone_graph.specs.Rooms.{room_of};
ghost use Rattle.zone_graph.specs.Route.{IsIn};
ghost use Rattle.cut_proof.specs.Carrying.{FitTogether};
ghost use Rattle.market_model.specs.Orders.{Standing};
ghost use Rattle.local_view.specs.Certified.{IsCertified, rows_in_turn};
ghost use Rattle.local_view.specs.Cuts.{AreAlong, AreClosedOver, AreCutting, IsNoLater, cut_by, given_by};
ghost use Rattle.local_view.specs.Drafts.{AreKept, IsFlow};
ghost use Rattle.local_view.specs.Moved.{flow_in};
ghost use Rattle.local_view.specs.Whole.{all_shown, in_line, rows_shown};

use crate::balance::is_balanced;
use crate::draft::{Draft, Flow};
use crate::listing::add_row;
use crate::whole::{LineOrder, WholeLine};
use market_model::{NoMemory, Side, ViewRow};
use zone_graph::{Arc, Grid, MOST_ZONES, Rooms};

/// What the orders of each zone give, one after the other, and where that ends.
#[derive(Drop)]
pub(crate) struct Cuts {
    /// What the orders of each zone give together, in lots.
    pub(crate) given: [u32; MOST_ZONES],
    /// The place of each zone's cut: no order of the zone before it gives less than all that it shows.
    pub(crate) places: [usize; MOST_ZONES],
}

impl Cuts {
    /// Cuts that no line was gone along for.
    pub(crate) fn new() -> Cuts {
        Cuts {
            given: [0; MOST_ZONES],
            places: [0; MOST_ZONES],
        }
    }

    /// Goes along a line whose orders give one after the other what a draft has them obtain, and writes their rows. Each zone has
    /// its cut where one of its orders gives less than it shows, or from where nothing more comes from it.
    ///
    /// # Errors
    ///
    /// [`NoMemory`], where there is no memory for a row.
    pub(crate) fn along(
        &mut self,
        grid: &Grid,
        draft: &mut Draft,
        flow: &mut Flow,
        whole: &WholeLine,
        rows: &mut Vec<ViewRow>,
    ) -> Result<(), NoMemory>
        ghost line: { List Standing }
        requires orders { whole.now.orders.items ≡ map in_line line }
        requires rows { whole.now.rows.items ≡ rows_shown line }
        requires zones { (order : Standing) → IsIn order line → order.order.zone < 64 }
        requires shown { all_shown line < 2 ^ 32 }
        requires size { length flow.old.left ≡ border_count grid.now }
        requires fit { FitTogether grid.now (room_of flow.old.left) }
        ensures along { OnOk result (AreAlong line self.new) }
        ensures rows { OnOk result (rows.new.items ≡ rows_in_turn (given_by self.new) line) }
        ensures of { flow.new.of ≡ flow.old.of }
        ensures size { length flow.new.left ≡ border_count grid.now }
        ensures kept { AreKept flow.old.left flow.new.left }
    {
        let orders = whole.orders.as_slice();
        let (first, count) = self.begin(draft, flow, orders);
        rows.clear();
        rows.extend_from_slice(&whole.rows.as_slice()[..count])?;
        for place in first..orders.len() {
            let order = orders[place];
            if place < self.places[order.zone as usize] {
                let (lots, closed) = draft.obtain(grid, flow, order.zone, order.lots);
                self.take(&order, place, lots, closed);
                add_row(rows, order.price, lots)?;
            }
        }
        Ok(())
    }

    // Goes along the orders with which a line begins, as long as each gives all that it shows of what comes from its zone. Answers
    // how many these are, and how many rows they have.
    fn begin(&mut self, draft: &mut Draft, flow: &mut Flow, orders: &[LineOrder]) -> (usize, usize)
        ghost line: { List Standing }
        requires orders { orders.now ≡ map in_line line }
        requires zones { (order : Standing) → IsIn order line → order.order.zone < 64 }
        requires shown { all_shown line < 2 ^ 32 }
        ensures cutting { AreCutting line result.0 self.new (take result.1 (rows_shown line)) }
        ensures count { result.1 ≤ length (rows_shown line) }
        ensures of { flow.new.of ≡ flow.old.of }
        ensures left { flow.new.left ≡ flow.old.left }
    {
        self.given = [0; MOST_ZONES];
        self.places = [orders.len(); MOST_ZONES];
        let mut count: usize = 0;
        for (place, order) in orders.iter().enumerate() {
            if !draft.gives(flow, order.zone, order.lots) {
                return (place, count);
            }
            self.given[order.zone as usize] += order.lots;
            if order.lots > 0 {
                count += 1;
            }
        }
        (orders.len(), count)
    }

    // Notes that the order at a place gives some lots, and where they are not all that it shows, that from here on nothing comes
    // from its zone and from those of a set.
    fn take(&mut self, order: &LineOrder, place: usize, lots: u32, closed: u64)
        requires zone { order.now.zone < 64 }
        requires few { given_by self.old order.now.zone + lots < 2 ^ 32 }
        requires place { place < cut_by self.old order.now.zone }
        ensures given { self.new.given ≡ slice_set self.old.given order.now.zone (given_by self.old order.now.zone + lots) }
        ensures size { length self.new.places ≡ length self.old.places }
        ensures cuts { (zone : ℕ) → IsNoLater place (cut_by self.old zone) (cut_by self.new zone) }
        ensures part { lots < order.now.lots → cut_by self.new order.now.zone ≡ place }
        ensures all { order.now.lots ≤ lots → self.new.places ≡ self.old.places }
    {
        let zone = order.zone as usize;
        self.given[zone] += lots;
        if lots < order.lots {
            self.places[zone] = place;
            cut_no_later(&mut self.places, closed, place);
        }
    }

    /// Whether a flow certifies them: what each zone gives goes out of it, but for the zone that lots come to, which has no cut;
    /// and where an arc has room to spare the zone that it leads to has its cut no later than the one that it leads from.
    pub(crate) fn are_certified(
        &self,
        grid: &Grid,
        flow: &Flow,
        side: Side,
        zone: u32,
        end: usize,
    ) -> bool
        ghost line: { List Standing }
        requires along { AreAlong line self.now }
        requires end { end ≡ length line }
        requires zone { HasZone grid.now zone }
        requires flow { IsFlow (border_count grid.now) flow.now }
        ensures { IsTrue result → IsCertified grid.now (room_of flow.now.of) side zone line (flow_in flow.now) (given_by self.now) (cut_by self.now) }
    {
        // It shows that the grid has no more than 64 zones.
        let _ = grid.zones();
        if !self.are_closed(grid, &flow.left, side) {
            return false;
        }
        if !is_balanced(grid, flow, side, zone, &self.given) {
            return false;
        }
        self.places[zone as usize] == end
    }

    // Whether over no arc room is left for lots to come to a zone with a later cut.
    fn are_closed(&self, grid: &Grid, left: &Rooms, side: Side) -> bool
        requires size { length left.now ≡ border_count grid.now }
        ensures { IsTrue result → (border : ℕ) → border < border_count grid.now → AreClosedOver grid.now (room_of left.now) side (cut_by self.now) border }
    {
        for border in 0..grid.borders() {
            if !self.close_over(grid, left, side, border) {
                return false;
            }
        }
        true
    }

    // Whether over neither arc of a border room is left for lots to come to a zone with a later cut.
    #[inline(always)]
    fn close_over(&self, grid: &Grid, left: &Rooms, side: Side, border: u32) -> bool
        requires border { border < border_count grid.now }
        requires size { length left.now ≡ border_count grid.now }
        ensures { IsTrue result → AreClosedOver grid.now (room_of left.now) side (cut_by self.now) border }
    {
        let arc = Arc::over(border, true);
        let (start, end) = grid.ends(arc);
        let (start, end) = (self.places[start as usize], self.places[end as usize]);
        let (from, to) = match side {
            Side::Sell => (start, end),
            Side::Buy => (end, start),
        };
        from == to || left.at(if from < to { arc } else { arc.opposite() }) == 0
    }
}

// The zones of a set have their cuts at a place, where they have none before it.
fn cut_no_later(places: &mut [usize; MOST_ZONES], zones: u64, place: usize)
    ensures size { length places.new ≡ length places.old }
    ensures cuts { (zone : ℕ) → IsNoLater place (slice_index_or places.old zone 0) (slice_index_or places.new zone 0) }
{
    let mut left = zones;
    for _ in 0..MOST_ZONES {
        if left == 0 {
            break;
        }
        let cut = &mut places[left.trailing_zeros() as usize];
        *cut = (*cut).min(place);
        left &= left - 1;
    }
}
