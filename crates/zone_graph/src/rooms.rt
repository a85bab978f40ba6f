//! Rooms of arcs.

ghost use Rattle.std.specs.Prelude.{◌≡◌, ◌<◌, IfOk, length, min, slice_index_or, if◌then◌else◌, ℕ};
ghost use Rattle.zone_graph.specs.Graph.{border_count};
ghost use Rattle.zone_graph.specs.Pour.{same_arc};
ghost use Rattle.zone_graph.specs.Rooms.{lesser_pair, room_of};

use crate::grid::Grid;
use crate::memory::NoMemory;
use crate::route::Arc;
use std::marker::Model;

/// How many lots each arc of a grid has room for. Contracts see a list with a pair for each border:
/// the room of its forward arc and that of its backward arc.
#[derive(Debug, Drop)]
pub struct Rooms {
    pairs: Vec<(u32, u32)>,
}

impl Model for Rooms {
    ghost use Rattle.std.specs.Prelude.{List, ℕ};

    ghost Value = { List (ℕ × ℕ) };

    ghost view = { λ rooms. rooms.pairs.items };
}

impl Rooms {
    /// A room of 0 for each arc of a grid.
    pub fn new(grid: &Grid) -> Result<Rooms, NoMemory>
        ensures size { IfOk result (λ rooms. length rooms ≡ border_count grid.now) }
        ensures rooms { IfOk result (λ rooms. (arc : Arc) → room_of rooms arc ≡ 0) }
    {
        Ok(Rooms {
            pairs: vec![in grid.allocator(); (0, 0); grid.borders() as usize]?,
        })
    }

    /// The room of an arc.
    pub fn at(&self, arc: Arc) -> u32
        requires { arc.border < length self.now }
        ensures { result ≡ room_of self.now arc }
    {
        let (forward, backward) = self.pairs.as_slice()[arc.border as usize];
        if arc.forward { forward } else { backward }
    }

    /// Gives an arc this room. All others keep theirs.
    pub fn set(&mut self, arc: Arc, room: u32)
        requires { arc.border < length self.old }
        ensures size { length self.new ≡ length self.old }
        ensures rooms { (other : Arc) → room_of self.new other ≡ (if same_arc arc other then room else room_of self.old other) }
    {
        let pair = &mut self.pairs[arc.border as usize];
        if arc.forward {
            pair.0 = room;
        } else {
            pair.1 = room;
        }
    }

    /// Gives each arc the room that it has in other rooms.
    pub fn copy_from(&mut self, other: &Rooms)
        requires { length self.old ≡ length other.now }
        ensures { self.new ≡ other.now }
    {
        self.pairs
            .as_mut_slice()
            .copy_from_slice(other.pairs.as_slice());
    }

    /// Gives each arc the lesser of its room here and in other rooms.
    pub fn least_with(&mut self, other: &Rooms)
        requires { length self.old ≡ length other.now }
        ensures size { length self.new ≡ length self.old }
        ensures rooms { (arc : Arc) → room_of self.new arc ≡ min (room_of self.old arc) (room_of other.now arc) }
    {
        take_lesser(self.pairs.as_mut_slice(), other.pairs.as_slice());
    }
}

// Gives each number the lesser of it and the one at its place in the other pairs.
fn take_lesser(pairs: &mut [(u32, u32)], others: &[(u32, u32)])
    requires { length pairs.old ≡ length others.now }
    ensures lesser { (k : ℕ) → slice_index_or pairs.new k (0, 0) ≡ lesser_pair (slice_index_or pairs.old k (0, 0)) (slice_index_or others.now k (0, 0)) }
{
    for (border, pair) in pairs.iter_mut().enumerate() {
        let other = others[border];
        *pair = (pair.0.min(other.0), pair.1.min(other.1));
    }
}
