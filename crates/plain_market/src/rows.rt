//! The rows of a view: one for each maker, in the order of its first trade.

ghost use Rattle.std.specs.Prelude.{◌≡◌, ◌+◌, ◌^◌, ◌<◌, ℕ, IfOk, OnOk, length, map};
ghost use Rattle.std.specs.List.{list_any};
ghost use Rattle.zone_graph.specs.Graph.{HasZone, border_count};
ghost use Rattle.zone_graph.specs.Rooms.{room_of};
ghost use Rattle.cut_proof.specs.Carrying.{FitTogether};
ghost use Rattle.laws_of_rows.specs.Depth as depth;
ghost use Rattle.laws_of_rows.specs.Filled as filled;

use crate::filling::next_fill;
use crate::maker::take_of;
use cut_proof::carry;
use laws_of_rows::{Fill, Maker, MakerRow};
use market_model::{NoMemory, OrderName, Rows, Side, ViewRow};
use std::alloc::Global;
use zone_graph::{Grid, Rooms};

/// The rows of the makers with which a taker of any quantity trades, in the order of the first trade
/// with each.
///
/// # Errors
///
/// [`NoMemory`], where there is no memory for a route or a row.
pub(crate) fn rows_filled(
    alloc: Global,
    grid: &Grid,
    mut rooms: Rooms,
    makers: &mut [Maker],
    side: Side,
    zone: u32,
) -> Result<Vec<MakerRow>, NoMemory>
    requires size { length rooms ≡ border_count grid.now }
    requires fit { FitTogether grid.now (room_of rooms) }
    requires zone { HasZone grid.now zone }
    requires makers { depth.AreInZones grid.now makers.old }
    ensures { IfOk result (λ made. filled.AreRowsFilled grid.now side zone (depth.depth_of makers.old rooms 4294967295) made.items) }
{
    let mut rows = Vec::new(alloc);
    let mut left = u32::MAX;
    while let Some(fill) = next_fill(alloc, grid, &rooms, makers, side, zone, left)? {
        carry(&mut rooms, fill.route.as_slice(), fill.lots);
        take_of(makers, fill.maker, fill.lots);
        left -= fill.lots;
        add(&mut rows, &fill)?;
    }
    Ok(rows)
}

// Adds a trade to the row of its maker, which is a new one at the end if this is its first trade.
fn add(rows: &mut Vec<MakerRow>, fill: &Fill) -> Result<(), NoMemory>
    requires { filled.CanAdd fill.now.lots rows.old.items }
    ensures { OnOk result (rows.new.items ≡ filled.with_fill rows.old.items fill.now) }
{
    if has_row(rows.as_slice(), fill.maker) {
        add_lots(rows.as_mut_slice(), fill.maker, fill.lots);
    } else {
        rows.push(MakerRow {
            maker: fill.maker,
            row: ViewRow {
                price: fill.price,
                lots: fill.lots,
            },
        })?;
    }
    Ok(())
}

// Whether a maker has a row.
fn has_row(rows: &[MakerRow], maker: OrderName) -> bool
    ensures { result ≡ list_any (filled.is_row_of maker) rows.now }
{
    rows.iter().any(|row| row.maker == maker)
}

// Adds lots to the row of a maker.
fn add_lots(rows: &mut [MakerRow], maker: OrderName, lots: u32)
    requires { filled.CanAdd lots rows.old }
    ensures { rows.new ≡ map (filled.with_lots maker lots) rows.old }
{
    for row in rows.iter_mut() {
        *row = with_lots(*row, maker, lots);
    }
}

// A row with more lots, if it is that of a maker.
fn with_lots(row: MakerRow, maker: OrderName, lots: u32) -> MakerRow
    requires { row.row.lots + lots < 2 ^ 32 }
    ensures { result ≡ filled.with_lots maker lots row }
{
    if row.maker != maker {
        return row;
    }
    MakerRow {
        maker,
        row: ViewRow {
            price: row.row.price,
            lots: row.row.lots + lots,
        },
    }
}

/// The rows without the names.
///
/// # Errors
///
/// [`NoMemory`], where there is no memory for them.
pub(crate) fn rows_of(alloc: Global, makers: &[MakerRow]) -> Result<Rows, NoMemory>
    ensures { IfOk result (λ rows. rows ≡ map filled.row_in makers.now) }
{
    let mut rows = Rows::new(alloc);
    for maker in makers {
        rows.push(maker.row)?;
    }
    Ok(rows)
}
