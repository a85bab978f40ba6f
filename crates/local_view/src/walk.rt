//! What the lists of a line work with.

ghost use Rattle.std.specs.Prelude.{IfOk};
ghost use Rattle.zone_graph.specs.Graph.{border_count};
ghost use Rattle.local_view.specs.Works.{IsWalk};

use crate::ways::NO_ARC;
use zone_graph::{Arc, Grid, MOST_ZONES, NoMemory, Rooms};

/// What the lists of a line work with, kept from list to list.
#[derive(Drop)]
pub(crate) struct Walk {
    /// The rooms that a list leaves.
    pub(crate) rooms: Rooms,
    /// The arcs of the route that was taken last, in the first places.
    pub(crate) route: [Arc; MOST_ZONES],
}

impl Walk {
    /// What the lists over a grid work with.
    ///
    /// # Errors
    ///
    /// [`NoMemory`] where memory runs out.
    pub(crate) fn over(grid: &Grid) -> Result<Walk, NoMemory>
        ensures { IfOk result (λ walk. IsWalk (border_count grid.now) walk) }
    {
        Ok(Walk {
            rooms: Rooms::new(grid)?,
            route: [NO_ARC; MOST_ZONES],
        })
    }
}
