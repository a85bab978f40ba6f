//! The grid of a session.

ghost use Rattle.std.specs.Prelude.{◌≡◌, None, IfOk};
ghost use Rattle.zone_graph.specs.Grid.{JoinsZones};
ghost use Rattle.zone_graph.specs.GridFault.{grid_fault};
ghost use Rattle.market_model.specs.Grid.{graph_of};

use market_model::Setup;
use std::alloc::Global;
use zone_graph::{Grid, GridFault, NoMemory};

/// The grid of a setup whose zones and borders make one.
///
/// # Errors
///
/// [`NoMemory`] where memory runs out.
pub fn grid_of(alloc: Global, setup: &Setup) -> Result<Grid, NoMemory>
    requires joined { JoinsZones (graph_of setup.now) }
    requires sound { grid_fault (graph_of setup.now) ≡ None }
    ensures { IfOk result (λ grid. grid ≡ graph_of setup.now) }
{
    match Grid::new(alloc, &setup.zones, &setup.borders) {
        Ok(grid) => Ok(grid),
        Err(GridFault::NoMemory) => Err(NoMemory),
        Err(_) => unreachable!(),
    }
}
