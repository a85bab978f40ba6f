//! A taker of any quantity at any price, which pours what it can from one order after the other.

ghost use Rattle.std.specs.Prelude.{◌≡◌, ◌<◌, ◌≤◌, ℕ, None, Some, IfNone, IfSome, length, take};
ghost use Rattle.std.specs.List.{list_all};
ghost use Rattle.order_kinds.specs.Same.{same_side};
ghost use Rattle.order_kinds.specs.declared.side.Side.TheVariants.{Sell};
ghost use Rattle.zone_graph.specs.Graph.{HasZone, border_count};
ghost use Rattle.zone_graph.specs.Grid.{IsGrid};
ghost use Rattle.zone_graph.specs.Rooms.{room_of};
ghost use Rattle.zone_graph.specs.Route.{IsIn};
ghost use Rattle.zone_graph.specs.declared.route.Arc.{Arc as AnArc};
ghost use Rattle.route_choice.specs.Freshness.{has_room};
ghost use Rattle.route_choice.specs.Poured.{AreRoomsAfter, lots_of};
ghost use Rattle.local_view.specs.Poured.{CarriesNext, leg_with, legs_with};
ghost use Rattle.local_view.specs.Takers.{IsTaker, IsWalking, best_between};

use crate::walk::Walk;
use cut_proof::{carried, carry};
use order_kinds::Side;
use route_choice::RouteTree;
use zone_graph::{Arc, Grid, Rooms};

/// A taker in a zone, who takes of the orders of a side.
#[derive(Drop)]
pub(crate) struct Taker {
    /// The side of the orders.
    pub(crate) side: Side,
    /// The taker's zone.
    pub(crate) zone: u32,
    /// The routes of its zone over the rooms that are left.
    pub(crate) own: RouteTree,
}

impl Taker {
    /// A taker in a zone, over these rooms.
    pub(crate) fn over(grid: &Grid, rooms: &Rooms, side: Side, zone: u32) -> Taker
        requires zone { HasZone grid.now zone }
        requires size { length rooms.now ≡ border_count grid.now }
        ensures side { result.side ≡ side }
        ensures zone { result.zone ≡ zone }
        ensures knows { IsTaker grid.now (room_of rooms.now) result }
    {
        Taker {
            side,
            zone,
            own: RouteTree::new(grid, rooms, zone, is_sell(side)),
        }
    }

    /// Takes what it can, and no more than so many lots, of an order in another zone, over one best
    /// route after the other, and answers how many lots that is. The rooms are lowered by it.
    pub(crate) fn take(&mut self, grid: &Grid, walk: &mut Walk, other: u32, most: u32) -> u32
        requires other { HasZone grid.now other }
        requires walking { IsWalking grid.now self.old walk.old }
        ensures lots { result ≡ lots_of (legs_with grid.now (room_of walk.old.rooms) self.old.side self.old.zone other most) }
        ensures most { result ≤ most }
        ensures rooms { AreRoomsAfter (room_of walk.old.rooms) (room_of walk.new.rooms) (legs_with grid.now (room_of walk.old.rooms) self.old.side self.old.zone other most) }
        ensures walking { IsWalking grid.now self.new walk.new }
        ensures side { self.new.side ≡ self.old.side }
        ensures zone { self.new.zone ≡ self.old.zone }
    {
        let mut left = most;
        while let Some(lots) = self.take_next(grid, walk, other, left) {
            left -= lots;
        }
        most - left
    }

    // Takes over the next best route what it carries of so many lots. `None` exactly where none are
    // left or no route has room.
    fn take_next(&mut self, grid: &Grid, walk: &mut Walk, other: u32, left: u32) -> Option<u32>
        requires other { HasZone grid.now other }
        requires walking { IsWalking grid.now self.old walk.old }
        ensures next { CarriesNext (room_of walk.old.rooms) (room_of walk.new.rooms) (leg_with grid.now (room_of walk.old.rooms) self.old.side self.old.zone other left) result }
        ensures walking { IsWalking grid.now self.new walk.new }
        ensures side { self.new.side ≡ self.old.side }
        ensures zone { self.new.zone ≡ self.old.zone }
        ensures grid { IsGrid grid.now }
    {
        let zones = grid.zones();
        prove!(other < zones);
        if left == 0 {
            return None;
        }
        let Some(count) = self.route_to(grid, walk, other) else {
            return None;
        };
        let route = &walk.route[..count];
        let lots = carried(&walk.rooms, left, route);
        carry(&mut walk.rooms, route, lots);
        if !have_room(&walk.rooms, route) {
            self.search(grid, &walk.rooms);
        }
        Some(lots)
    }

    // Finds the best route between the taker and an order in another zone: how many arcs it has, which are
    // then in the first places. `None` exactly where there is none.
    fn route_to(&self, grid: &Grid, walk: &mut Walk, other: u32) -> Option<usize>
        requires other { HasZone grid.now other }
        requires walking { IsWalking grid.now self.now walk.old }
        ensures some { IfSome result (λ count. best_between grid.now (room_of walk.old.rooms) self.now.side self.now.zone other ≡ Some (take count walk.new.route)) }
        ensures none { IfNone result (best_between grid.now (room_of walk.old.rooms) self.now.side self.now.zone other ≡ None) }
        ensures short { IfSome result (λ count. count ≤ 64) }
        ensures rooms { walk.new.rooms ≡ walk.old.rooms }
        ensures walking { IsWalking grid.now self.now walk.new }
    {
        if self.own.reaches(other) {
            Some(self.own.route_into(other, &mut walk.route))
        } else {
            None
        }
    }

    // Searches the routes of the taker's own zone. It is no part of the code around its calls, where the
    // tree's places would be cleared for every leg.
    #[inline(never)]
    fn search(&mut self, grid: &Grid, rooms: &Rooms)
        requires zone { HasZone grid.now self.old.zone }
        requires size { length rooms.now ≡ border_count grid.now }
        ensures side { self.new.side ≡ self.old.side }
        ensures zone { self.new.zone ≡ self.old.zone }
        ensures knows { IsTaker grid.now (room_of rooms.now) self.new }
    {
        self.own = RouteTree::new(grid, rooms, self.zone, is_sell(self.side));
    }
}

// Whether each arc of a route has room.
fn have_room(rooms: &Rooms, route: &[Arc]) -> bool
    requires { (arc : AnArc) → IsIn arc route.now → arc.border < length rooms.now }
    ensures { result ≡ list_all (has_room (room_of rooms.now)) route.now }
{
    for arc in route {
        if rooms.at(*arc) == 0 {
            return false;
        }
    }
    true
}

/// Whether a side is the sellers'.
pub(crate) fn is_sell(side: Side) -> bool
    ensures { result ≡ same_side side Sell }
{
    matches!(side, Side::Sell)
}
