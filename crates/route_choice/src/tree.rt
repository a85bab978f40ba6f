//! The tree of the best routes to one zone, or from it, which is made once and read many times.

ghost use Rattle.std.specs.Prelude.{◌≡◌, ◌<◌, IfOk, IsSome, IsTrue, Some, length, take};
ghost use Rattle.std.specs.List.{list_all};
ghost use Rattle.zone_graph.specs.declared.route.Arc.{Arc};
ghost use Rattle.zone_graph.specs.Graph.{HasZone, border_count};
ghost use Rattle.zone_graph.specs.Rooms.{room_of};
ghost use Rattle.zone_graph.specs.Route.{IsIn};
ghost use Rattle.route_choice.specs.Freshness.{IsFresh, StaysFresh, TellsReach, has_room, is_known, searched_route};
ghost use Rattle.route_choice.specs.Tree.{told_route};

use crate::reading::{read_from, read_towards};
use crate::search::Branches;
use std::alloc::Global;
use std::marker::Model;
use zone_graph::{Arc, Grid, MOST_ZONES, NoMemory, Rooms, Route};

/// The best routes between one zone of a grid and all others, over a row of rooms: to the zone
/// (`towards`) or from it. It keeps, for each other zone, the step that its best route takes at that
/// zone, so that a route is read off without a search. It is fresh over the rooms that it was made over,
/// and over later ones as long as no arc of its routes is used up (`is_fresh_after`).
///
/// Contracts see the zone, the direction, the distances and the steps.
#[derive(Drop)]
pub struct RouteTree {
    zone: u32,
    towards: bool,
    branches: Branches,
}

impl Model for RouteTree {
    ghost use Rattle.route_choice.specs.Tree.{HasPlaces, Tree};

    ghost Value = { Tree };

    ghost view = { λ tree. record { zone = tree.zone; towards = tree.towards; distances = tree.branches.distances; steps = tree.branches.steps } };

    ghost invariant = { λ tree. HasPlaces (record { zone = tree.zone; towards = tree.towards; distances = tree.branches.distances; steps = tree.branches.steps }) };
}

impl RouteTree {
    /// The tree of the best routes to a zone (`towards`), or from it (not `towards`), over arcs that
    /// have room. It takes no memory.
    ///
    /// The zone is in the grid, and the rooms are those of its arcs.
    pub fn new(grid: &Grid, rooms: &Rooms, zone: u32, towards: bool) -> RouteTree
        requires zone { HasZone grid.now zone }
        requires size { length rooms.now ≡ border_count grid.now }
        ensures fresh { IsFresh grid.now (room_of rooms.now) result }
        ensures zone { result.zone ≡ zone }
        ensures towards { result.towards ≡ towards }
    {
        let mut tree = RouteTree {
            zone,
            towards,
            branches: Branches::new(),
        };
        tree.branches.search(grid, rooms, zone, towards);
        tree
    }

    /// Makes a tree that is there that of the best routes to a zone (`towards`), or from it (not
    /// `towards`), over arcs that have room, as `new` does: what it told before is gone. It takes no
    /// memory.
    ///
    /// The zone is in the grid, and the rooms are those of its arcs.
    pub fn remake(&mut self, grid: &Grid, rooms: &Rooms, zone: u32, towards: bool)
        requires zone { HasZone grid.now zone }
        requires size { length rooms.now ≡ border_count grid.now }
        ensures fresh { IsFresh grid.now (room_of rooms.now) self.new }
        ensures zone { self.new.zone ≡ zone }
        ensures towards { self.new.towards ≡ towards }
    {
        self.zone = zone;
        self.towards = towards;
        self.branches.distances = [None; MOST_ZONES];
        self.branches.search(grid, rooms, zone, towards);
    }

    /// Whether the tree tells a route between another zone and its own, in its direction: exactly
    /// where one leads there over rooms over which the tree is fresh. Where the answer is no, none
    /// leads there over later rooms either, as long as legs have only been carried to the tree's own
    /// zone, or from it.
    pub fn reaches(&self, other: u32) -> bool
        ensures known { result ≡ is_known self.now other }
        ensures reach { TellsReach self.now other result }
    {
        match self.branches.distances.get(other as usize) {
            Some(distance) => distance.is_some(),
            None => false,
        }
    }

    /// The best route from another zone to the tree's own (`towards`), or from its own to the
    /// other one: `None` exactly where there is none. It is the route that `best_route` answers.
    ///
    /// The tree is fresh over the rooms, and the zone is in the grid. The only error is want of
    /// memory.
    pub fn route(
        &self,
        alloc: Global,
        grid: &Grid,
        rooms: &Rooms,
        other: u32,
    ) -> Result<Option<Route>, NoMemory>
        requires fresh { IsFresh grid.now (room_of rooms.now) self.now }
        requires other { HasZone grid.now other }
        requires size { length rooms.now ≡ border_count grid.now }
        ensures { IfOk result (λ found. found ≡ searched_route grid.now (room_of rooms.now) self.now other) }
    {
        if !self.reaches(other) {
            return Ok(None);
        }
        let mut arcs = [Arc::over(0, false); MOST_ZONES];
        let count = self.route_into(other, &mut arcs);
        let (route, _) = arcs.split_at(count);
        Ok(Some(Route::from(Vec::from_slice(alloc, route)?)))
    }

    /// Writes the arcs of the route from another zone to the tree's own (`towards`), or from its own
    /// to the other one, in the order in which energy takes them, into the first of 64 places, and
    /// answers how many they are. It takes no memory.
    ///
    /// The tree tells a route there (`reaches`).
    pub fn route_into(&self, other: u32, arcs: &mut [Arc]) -> usize
        requires known { IsSome (told_route self.now other) }
        requires places { length arcs.old ≡ 64 }
        ensures route { told_route self.now other ≡ Some (take result arcs.new) }
        ensures places { length arcs.new ≡ 64 }
        ensures short { result < 64 }
    {
        let count = self.branches.distances[other as usize].unwrap() as usize;
        let (route, _) = arcs.split_at_mut(count);
        if self.towards {
            read_towards(&self.branches.steps, other, route);
        } else {
            read_from(&self.branches.steps, other, route);
        }
        count
    }

    /// Whether a tree that was fresh is so after a leg over a route that it told: whether each arc of
    /// the route still has room. If not, the tree is to be made anew.
    ///
    /// The rooms are those after the leg, and the arcs are over borders that have rooms.
    pub fn is_fresh_after(&self, rooms: &Rooms, route: &[Arc]) -> bool
        requires { (arc : Arc) → IsIn arc route.now → arc.border < length rooms.now }
        ensures room { result ≡ list_all (has_room (room_of rooms.now)) route.now }
        ensures fresh { IsTrue result → StaysFresh self.now (room_of rooms.now) route.now }
    {
        for arc in route {
            if rooms.at(*arc) == 0 {
                return false;
            }
        }
        true
    }
}
