//! The search that a tree of routes is made by.

ghost use Rattle.std.specs.Prelude.{◌≡◌, ◌<◌, ◌+◌, ◌==◌, ℕ, None, IfSome, find, length, not, replicate, slice_index_or, slice_set};
ghost use Rattle.zone_graph.specs.Graph.{HasZone, border_count, zone_count};
ghost use Rattle.zone_graph.specs.Grid.{IsGrid};
ghost use Rattle.zone_graph.specs.Rooms.{room_of};
ghost use Rattle.cut_proof.specs.Distance.{arcs_of_distance, directed_room};
ghost use Rattle.route_choice.specs.Freshness.{IsFound, IsFresh, has_room};
ghost use Rattle.route_choice.specs.Search.{AreKnown, AreShort, AreTaken, first_met, leads_nearer, no_step, search_over, step_at};
ghost use Rattle.route_choice.specs.Tree.{HasPlaces, tree_of};

use cut_proof::Distances;
use zone_graph::{Arc, Grid, MOST_ZONES, Neighbour, Rooms};

/// What a search finds: how far each zone is, and its step, by zone.
#[derive(Drop)]
pub(crate) struct Branches {
    pub distances: Distances,
    pub steps: [Neighbour; MOST_ZONES],
}

// The zones that a search has found, in the order in which they were found.
#[derive(Drop)]
struct Queue {
    zones: [u32; MOST_ZONES],
    count: usize,
}

impl Queue {
    // The queue with one zone in it.
    fn new(zone: u32) -> Queue
        ensures zones { result.zones ≡ slice_set (replicate 64 0) 0 zone }
        ensures count { result.count ≡ 1 }
    {
        let mut queue = Queue {
            zones: [0; MOST_ZONES],
            count: 1,
        };
        queue.zones[0] = zone;
        queue
    }

    // Adds a zone.
    fn add(&mut self, zone: u32)
        requires { self.old.count < 64 }
        ensures zones { self.new.zones ≡ slice_set self.old.zones self.old.count zone }
        ensures count { self.new.count ≡ self.old.count + 1 }
    {
        self.zones[self.count] = zone;
        self.count += 1;
    }
}

impl Branches {
    /// Those of a search that has found no zone.
    pub fn new() -> Branches
        ensures distances { result.distances ≡ replicate 64 None }
        ensures steps { result.steps ≡ replicate 64 no_step }
    {
        let step = Neighbour {
            arc: Arc::over(0, false),
            zone: 0,
        };
        Branches {
            distances: [None; MOST_ZONES],
            steps: [step; MOST_ZONES],
        }
    }

    /// Finds the best routes to a zone (`towards`), or from it, where no zone is found yet.
    pub fn search(&mut self, grid: &Grid, rooms: &Rooms, zone: u32, towards: bool)
        requires zone { HasZone grid.now zone }
        requires size { length rooms.now ≡ border_count grid.now }
        requires none { self.old.distances ≡ replicate 64 None }
        requires within { (zone : ℕ) → (step_at self.old.steps zone).zone < 64 }
        ensures fresh { IsFresh grid.now (room_of rooms.now) (tree_of self.new zone towards) }
        ensures places { HasPlaces (tree_of self.new zone towards) }
    {
        self.find_zones(grid, rooms, zone, towards);
        if towards {
            self.take_least_steps(grid, rooms);
        }
    }

    // Finds the zones from which a route leads to a zone (`towards`), or to which one leads from it: each
    // zone's step is the one over which it is found first. It ends when all zones of the grid are found.
    fn find_zones(&mut self, grid: &Grid, rooms: &Rooms, zone: u32, towards: bool)
        requires zone { HasZone grid.now zone }
        requires size { length rooms.now ≡ border_count grid.now }
        requires none { self.old.distances ≡ replicate 64 None }
        requires within { (zone : ℕ) → (step_at self.old.steps zone).zone < 64 }
        ensures { IsFound grid.now (room_of rooms.now) (tree_of self.new zone towards) }
    {
        let zones = grid.zones();
        prove!(zone < zones);
        let mut queue = Queue::new(zone);
        self.distances[zone as usize] = Some(0);
        let mut next = 0;
        while next < queue.count && queue.count < zones as usize {
            let visited = queue.zones[next];
            let distance = self.distance(visited).unwrap() + 1;
            for neighbour in grid.neighbours(visited) {
                let step = Neighbour {
                    arc: neighbour.arc,
                    zone: visited,
                };
                self.meet(&mut queue, rooms, towards, neighbour.zone, distance, step);
            }
            next += 1;
        }
    }

    // Meets a zone, so many arcs far over a step: adds it if it was not found before and there is room.
    fn meet(
        &mut self,
        queue: &mut Queue,
        rooms: &Rooms,
        towards: bool,
        zone: u32,
        distance: u32,
        step: Neighbour,
    )
        requires border { step.arc.border < length rooms.now }
        requires zone { zone < 64 }
        requires place { slice_index_or self.old.distances zone None ≡ None → queue.old.count < 64 }
        ensures { search_over self.new queue.new ≡ first_met (has_room (directed_room (room_of rooms.now) (not towards)) step.arc) (search_over self.old queue.old) zone distance step }
    {
        let place = zone as usize;
        if self.distances[place].is_none() && has_room_over(rooms, step.arc, towards) {
            self.distances[place] = Some(distance);
            self.steps[place] = step;
            queue.add(zone);
        }
    }

    // Takes for each zone the step over the least border that leads to a nearer one, if there is one.
    fn take_least_steps(&mut self, grid: &Grid, rooms: &Rooms)
        requires size { length rooms.now ≡ border_count grid.now }
        requires short { AreShort self.old.distances }
        requires places { length self.old.steps ≡ 64 }
        requires within { (zone : ℕ) → (step_at self.old.steps zone).zone < 64 }
        ensures distances { self.new.distances ≡ self.old.distances }
        ensures taken { AreTaken grid.now (room_of rooms.now) self.new.distances self.new.steps (zone_count grid.now) }
        ensures grid { IsGrid grid.now }
    {
        let zones = grid.zones();
        for zone in 0..zones {
            let place = zone as usize;
            let far = self.distances[place];
            let least = first_nearer(grid.neighbours(zone), rooms, &self.distances, far);
            self.steps[place] = least.unwrap_or(self.steps[place]);
        }
    }

    // How far a zone is, if it has been found.
    fn distance(&self, zone: u32) -> Option<u32>
        requires { zone < 64 }
        ensures { result ≡ slice_index_or self.now.distances zone None }
    {
        self.distances[zone as usize]
    }
}

// Whether the arc over a neighbour's border by which energy takes the way towards the zone, or from it, has
// room.
fn has_room_over(rooms: &Rooms, arc: Arc, towards: bool) -> bool
    requires { arc.border < length rooms.now }
    ensures { result ≡ has_room (directed_room (room_of rooms.now) (not towards)) arc }
{
    rooms.at(if towards { arc.opposite() } else { arc }) > 0
}

// The first of neighbours that is one arc less far and can be gone to.
fn first_nearer(
    neighbours: &[Neighbour],
    rooms: &Rooms,
    distances: &[Option<u32>],
    far: Option<u32>,
) -> Option<Neighbour>
    requires known { AreKnown rooms.now distances.now neighbours.now }
    requires distances { AreShort distances.now }
    requires far { IfSome far (λ arcs. arcs < 64) }
    ensures { result ≡ find (leads_nearer (room_of rooms.now) distances.now (arcs_of_distance far)) neighbours.now }
{
    for neighbour in neighbours {
        if is_one_less(distances[neighbour.zone as usize], far) && rooms.at(neighbour.arc) > 0 {
            return Some(*neighbour);
        }
    }
    None
}

// Whether a zone is one arc less far.
fn is_one_less(found: Option<u32>, far: Option<u32>) -> bool
    requires found { IfSome found (λ arcs. arcs < 64) }
    requires far { IfSome far (λ arcs. arcs < 64) }
    ensures { result ≡ (arcs_of_distance found + 1 == arcs_of_distance far) }
{
    match (found, far) {
        (Some(nearer), Some(arcs)) => nearer + 1 == arcs,
        _ => false,
    }
}
