//! A line as its views see it: its orders, read once, and whether all of them can come to a zone.

ghost use Rattle.std.specs.Prelude.{◌≡◌, ◌<◌, ℕ, None, OnOk, length, true};
ghost use Rattle.cut_proof.specs.ZoneSet.{holds};
ghost use Rattle.zone_graph.specs.Graph.{HasZone, border_count};
ghost use Rattle.zone_graph.specs.Rooms.{room_of};
ghost use Rattle.local_view.specs.Ways.{ComeTogether, HasWays};
ghost use Rattle.local_view.specs.Whole.{IsRead};

use crate::listing::{Line, add_row};
use crate::ways::{Ways, whole_zones};
use market_model::{Board, NoMemory, Price, Side, ViewRow};
use std::alloc::Global;
use zone_graph::{Grid, MOST_ZONES, Rooms};

/// An order of a line, as its views see it.
#[derive(Clone, Copy)]
pub(crate) struct LineOrder {
    /// Its zone.
    pub(crate) zone: u32,
    /// Its price, in cents per MWh.
    pub(crate) price: Price,
    /// What it shows, in lots.
    pub(crate) lots: u32,
}

/// The orders of a line, the rows in which each has all that it shows, and what those of each zone show.
#[derive(Drop)]
pub(crate) struct WholeLine {
    /// The orders, in priority.
    pub(crate) orders: Vec<LineOrder>,
    /// The rows.
    pub(crate) rows: Vec<ViewRow>,
    /// The lots that the orders of each zone show together.
    pub(crate) shown: [u32; MOST_ZONES],
    /// Whether all these lots are less than a view asks for. Where it is so, the sums are told.
    pub(crate) fits: bool,
}

impl WholeLine {
    /// A line that is not read yet.
    pub(crate) fn new(alloc: Global) -> WholeLine {
        WholeLine {
            orders: Vec::new(alloc),
            rows: Vec::new(alloc),
            shown: [0; MOST_ZONES],
            fits: false,
        }
    }

    /// Reads a line of a board, in place of what was read before.
    ///
    /// # Errors
    ///
    /// [`NoMemory`], where there is no memory for an order or a row.
    pub(crate) fn read<B: Board>(
        &mut self,
        board: &B,
        grid: &Grid,
        line: Line,
    ) -> Result<(), NoMemory>
        requires grid { grid.now ≡ (B.state board.now).grid }
        requires hand { (B.state board.now).hand ≡ None }
        requires part { line.part < (B.state board.now).parts }
        ensures { OnOk result (IsRead (B.state board.now) line.part line.side self.new) }
    {
        self.orders.clear();
        self.rows.clear();
        self.shown = [0; MOST_ZONES];
        let zones = grid.zones();
        let mut all: u32 = 0;
        let mut next = board.first(line.part, line.side);
        while let Some(order) = next {
            prove!(order.zone < zones);
            self.orders.push(LineOrder {
                zone: order.zone,
                price: order.price,
                lots: order.lots,
            })?;
            all = all.saturating_add(order.lots);
            let zone = order.zone as usize;
            self.shown[zone] = self.shown[zone].saturating_add(order.lots);
            add_row(&mut self.rows, order.price, order.lots)?;
            next = board.after(order.number);
        }
        self.fits = all < u32::MAX;
        Ok(())
    }

    /// The zones to which all that the line shows comes together, as far as one tree of ways tells; none, where it is asked of
    /// none. Bit z stands for zone z.
    pub(crate) fn comes_to(
        &self,
        grid: &Grid,
        rooms: &Rooms,
        side: Side,
        asked: u64,
        ways: &mut Ways,
    ) -> u64
        requires rooms { length rooms.now ≡ border_count grid.now }
        requires ways { HasWays grid.now ways.old }
        ensures fits { (zone : ℕ) → HasZone grid.now zone → holds result zone ≡ true → self.now.fits ≡ true }
        ensures together { (zone : ℕ) → HasZone grid.now zone → holds result zone ≡ true → ComeTogether grid.now (room_of rooms.now) side zone self.now.shown }
        ensures ways { HasWays grid.now ways.new }
    {
        if self.fits && asked != 0 {
            whole_zones(grid, rooms, side, &self.shown, ways)
        } else {
            0
        }
    }
}
