//! The rows of one view, in one walk along its line.

ghost use Rattle.std.specs.Prelude.{◌≡◌, ◌∷◌, ◌++◌, [], OnOk, length};
ghost use Rattle.zone_graph.specs.Graph.{HasZone, border_count};
ghost use Rattle.zone_graph.specs.Rooms.{room_of};
ghost use Rattle.zone_graph.specs.Route.{IsIn};
ghost use Rattle.cut_proof.specs.Carrying.{FitTogether};
ghost use Rattle.local_view.specs.declared.whole.LineOrder.{LineOrder as ALineOrder};
ghost use Rattle.local_view.specs.Poured.{row_if, rows_taken};
ghost use Rattle.local_view.specs.Takers.{IsReady};

use crate::taker::Taker;
use crate::walk::Walk;
use crate::whole::LineOrder;
use market_model::{NoMemory, Price, Side, ViewRow};
use zone_graph::{Grid, Rooms};

/// The line of a part and a side.
#[derive(Clone, Copy)]
pub(crate) struct Line {
    /// The part.
    pub(crate) part: u32,
    /// The side.
    pub(crate) side: Side,
}

/// Writes the rows of what a taker in a zone takes of the orders of a line, in place of those that were
/// there. The rooms of the part stay; those that the list works with are then what is left of them.
///
/// # Errors
///
/// [`NoMemory`], where there is no memory for a row.
pub(crate) fn list_rows(
    orders: &[LineOrder],
    grid: &Grid,
    of_part: &Rooms,
    walk: &mut Walk,
    side: Side,
    zone: u32,
    rows: &mut Vec<ViewRow>,
) -> Result<(), NoMemory>
    requires orders { (order : ALineOrder) → IsIn order orders.now → HasZone grid.now order.zone }
    requires size { length of_part.now ≡ border_count grid.now }
    requires fit { FitTogether grid.now (room_of of_part.now) }
    requires zone { HasZone grid.now zone }
    requires walk { IsReady grid.now walk.old }
    ensures rows { OnOk result (rows.new.items ≡ rows_taken grid.now side zone (room_of of_part.now) 4294967295 orders.now) }
    ensures walk { IsReady grid.now walk.new }
{
    rows.clear();
    walk.rooms.copy_from(of_part);
    let mut taker = Taker::over(grid, of_part, side, zone);
    let mut left = u32::MAX;
    for order in orders {
        let lots = taker.take(grid, walk, order.zone, left.min(order.lots));
        add_row(rows, order.price, lots)?;
        left -= lots;
    }
    Ok(())
}

/// Adds the row of an order of which lots were taken, if any were.
pub(crate) fn add_row(rows: &mut Vec<ViewRow>, price: Price, lots: u32) -> Result<(), NoMemory>
    ensures { OnOk result (rows.new.items ≡ rows.old.items ++ row_if price lots []) }
{
    if lots > 0 {
        rows.push(ViewRow { price, lots })?;
    }
    Ok(())
}
