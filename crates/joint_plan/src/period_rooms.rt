//! The rooms of a period.

ghost use Rattle.std.specs.Prelude.{◌≡◌, ◌<◌, IfOk, length, ℕ};
ghost use Rattle.joint_plan.specs.Rooms.{AreRoomsOver};
ghost use Rattle.joint_plan.specs.Rows.{AreOver};

use crate::desks::Desks;
use zone_graph::{Grid, NoMemory, Rooms};

/// The rooms of a period as it is settled, whose hours the desks are: of each arc the least of its rooms in the hours.
///
/// # Errors
///
/// [`NoMemory`] where memory runs out.
pub(crate) fn period_rooms<D: Desks>(row: &D, grid: &Grid) -> Result<Rooms, NoMemory>
    requires over { AreOver grid.now (D.desks row.now) }
    requires some { 0 < length (D.desks row.now) }
    ensures { IfOk result (λ rooms. AreRoomsOver grid.now (D.desks row.now) rooms) }
{
    let mut rooms = Rooms::new(grid)?;
    rooms.copy_from(row.desk(0).rooms(0));
    for i in 1..row.len() {
        rooms.least_with(row.desk(i).rooms(0));
    }
    Ok(rooms)
}
