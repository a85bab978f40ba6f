//! Zones, borders and routes by their numbers.

ghost use Rattle.std.specs.Prelude.{◌≡◌};
ghost use Rattle.zone_graph.specs.Pour.{opposite_arc};

use crate::memory::{Duplicate, NoMemory};
use crate::sequence::Sequence;

/// A list of zones by number. Zones are numbered from 0 in the order of their declaration.
pub type Zones = Sequence<u32>;

/// The two zones of each border, by number, in the order of declaration. Borders are numbered from
/// 0 in that order.
pub type Pairs = Sequence<(u32, u32)>;

/// One direction of a border.
#[derive(Clone, Copy, Debug, PartialEq, Eq)]
pub struct Arc {
    /// The border's number.
    pub border: u32,
    /// Whether the arc goes from the border's first declared zone to its second.
    pub forward: bool,
}

impl Arc {
    /// The arc over a border in one of its directions.
    pub fn over(border: u32, forward: bool) -> Arc
        ensures { result ≡ record { border = border; forward = forward } }
    {
        Arc { border, forward }
    }

    /// The arc over the same border in the other direction.
    pub fn opposite(self) -> Arc
        ensures { result ≡ opposite_arc self }
    {
        Arc::over(self.border, !self.forward)
    }
}

/// A way from one zone to another, as the arcs that it uses in order. Energy takes it from the
/// seller's zone to the buyer's. The empty route joins a zone to itself.
pub type Route = Sequence<Arc>;

/// What one route carries.
#[derive(Debug, Drop, PartialEq, Eq)]
pub struct RouteLeg {
    /// The way that is taken.
    pub route: Route,
    /// How much it carries, in lots (tenths of a MW).
    pub lots: u32,
}

impl Duplicate for RouteLeg {
    fn copy(&self) -> Result<RouteLeg, NoMemory> {
        Ok(RouteLeg {
            route: self.route.copy()?,
            lots: self.lots,
        })
    }
}

/// What several routes carry, in the order in which they were chosen.
pub type Legs = Sequence<RouteLeg>;
