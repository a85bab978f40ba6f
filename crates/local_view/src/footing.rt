//! What rows of views rest on, so that they need not be made anew.

ghost use Rattle.std.specs.Prelude.{◌≡◌, ◌⊎◌, ◌<◌, ◌≤◌, ℕ, IfOk, IfSome, IsTrue, List, OnErr, OnOk, false, length, map, true};
ghost use Rattle.cut_proof.specs.ZoneSet.{holds};
ghost use Rattle.market_model.specs.declared.reply.ViewRow.{ViewRow as AViewRow};
ghost use Rattle.market_model.specs.Orders.{Standing};
ghost use Rattle.zone_graph.specs.Graph.{HasZone, border_count, zone_count};
ghost use Rattle.zone_graph.specs.Rooms.{room_of};
ghost use Rattle.zone_graph.specs.Route.{IsIn};
ghost use Rattle.local_view.specs.declared.whole.LineOrder.{LineOrder as ALineOrder};
ghost use Rattle.local_view.specs.Drafts.{IsFlow};
ghost use Rattle.local_view.specs.Footing.{AreMovable, IsFoundedAt, IsOver, IsSized, IsThereOver, RestOn, certificate_at};
ghost use Rattle.local_view.specs.Moved.{AreBorders, AreSameBut, IsReplaced};
ghost use Rattle.local_view.specs.Whole.{in_line};

use crate::draft::Flow;
use crate::filling::{is_set, without};
use crate::replacing::{Replaced, are_behind, find_replaced, move_cuts};
use crate::still_standing::{are_borders, find_changed, note_borders, stand_over};
use crate::taker::is_sell;
use crate::ways::Ways;
use crate::whole::LineOrder;
use market_model::{NoMemory, Side};
use std::alloc::Global;
use zone_graph::{Grid, MOST_ZONES, Rooms};

/// What certifies the rows of a zone.
#[derive(Drop)]
pub(crate) struct Certificate {
    /// Whether the rows are all that the line shows, whatever flows.
    pub(crate) is_whole: bool,
    /// What flows to it.
    pub(crate) flow: Flow,
    /// The place in the line of each zone's cut.
    pub(crate) cuts: [usize; MOST_ZONES],
}

/// What the rows of the zones of a line rest on: its orders and the rooms of its part, as they were, and for each zone a flow
/// and cuts.
#[derive(Drop)]
pub(crate) struct Footing {
    /// The side of the orders.
    pub(crate) side: Side,
    /// The two zones of each border.
    pub(crate) ends: Vec<(u32, u32)>,
    /// The rooms.
    pub(crate) rooms: Rooms,
    /// The orders, in priority.
    pub(crate) orders: Vec<LineOrder>,
    /// Ways over the borders.
    pub(crate) ways: Box<Ways>,
    /// What certifies the rows of each zone, where they rest on this.
    pub(crate) certificates: Vec<Certificate>,
    // The borders whose rooms the last move changed.
    changed: Vec<u32>,
    /// The zones whose rows rest on this. Bit z stands for zone z.
    pub(crate) resting: u64,
}

impl Footing {
    // A footing over a grid, on which no rows rest.
    fn over(alloc: Global, grid: &Grid, side: Side) -> Result<Footing, NoMemory>
        ensures over { IfOk result (IsOver grid.now side) }
        ensures none { IfOk result (λ made. made.resting ≡ 0) }
    {
        let mut ends = Vec::new(alloc);
        note_borders(grid, &mut ends)?;
        Ok(Footing {
            side,
            ends,
            rooms: Rooms::new(grid)?,
            orders: Vec::new(alloc),
            ways: Box::new(alloc, Ways::none())?,
            certificates: certificates_over(alloc, grid)?,
            changed: Vec::new(alloc),
            resting: 0,
        })
    }

    /// Has no rows rest on this any more, unless they may.
    pub(crate) fn rest_where(&mut self, may: bool)
        ensures same { self.new ≡ record self.old { resting = self.new.resting } }
        ensures resting { (zone : ℕ) → holds self.new.resting zone ≡ true → (may ≡ true) × (holds self.old.resting zone ≡ true) }
    {
        if !may {
            self.resting = 0;
        }
    }

    /// Moves what certifies the rows that rest on this to another line and to other rooms, and answers for which zones it stands
    /// there. No rows rest on this then, until it has the orders of that line.
    ///
    /// # Errors
    ///
    /// [`NoMemory`], where there is no memory for a border.
    pub(crate) fn move_to(
        &mut self,
        grid: &Grid,
        orders: &[LineOrder],
        rooms: &Rooms,
    ) -> Result<u64, NoMemory>
        ghost line: { List Standing }
        requires over { IsOver grid.now self.old.side self.old }
        requires orders { orders.now ≡ map in_line line }
        requires zones { (order : Standing) → IsIn order line → HasZone grid.now order.order.zone }
        requires rooms { length rooms.now ≡ border_count grid.now }
        ensures over { IsOver grid.now self.old.side self.new }
        ensures none { self.new.resting ≡ 0 }
        ensures rooms { OnOk result (self.new.rooms ≡ rooms.now) }
        ensures rest { IfOk result (λ still. AreMovable (zone_count grid.now) self.old still rooms.now orders.now self.new.certificates.items) }
    {
        let resting = self.resting;
        self.resting = 0;
        find_changed(grid, &self.rooms, rooms, &mut self.changed)?;
        let still = self.still_certified(grid, orders, rooms, resting);
        self.rooms.copy_from(rooms);
        Ok(still)
    }

    /// The zones whose rows are all that the line shows, where they rest on this. Bit z stands for zone z.
    pub(crate) fn whole_zones(&self) -> u64
        requires { length self.now.certificates.items ≤ 64 }
        ensures { (zone : ℕ) → zone < length self.now.certificates.items → (certificate_at self.now.certificates.items zone).is_whole ≡ true → holds result zone ≡ true }
    {
        let mut whole: u64 = 0;
        for (zone, certificate) in self.certificates.iter().enumerate() {
            if certificate.is_whole {
                whole |= 1 << zone;
            }
        }
        whole
    }

    // Whether this is of a side and over a grid of as many zones.
    fn is_over(&self, grid: &Grid, side: Side) -> bool
        requires { IsSized (zone_count grid.now) self.now }
        ensures { IsTrue result → IsOver grid.now side self.now }
    {
        is_sell(self.side) == is_sell(side) && are_borders(grid, self.ends.as_slice())
    }

    // Moves what certifies the rows of a set of zones to another line and to other rooms, of which some changed, and answers for
    // which zones it stands there.
    fn still_certified(
        &mut self,
        grid: &Grid,
        orders: &[LineOrder],
        rooms: &Rooms,
        resting: u64,
    ) -> u64
        ghost line: { List Standing }
        requires over { IsOver grid.now self.old.side self.old }
        requires orders { orders.now ≡ map in_line line }
        requires zones { (order : Standing) → IsIn order line → HasZone grid.now order.order.zone }
        requires rooms { length rooms.now ≡ border_count grid.now }
        requires changed { AreBorders grid.now self.old.changed.items }
        requires others { AreSameBut grid.now self.old.changed.items (room_of self.old.rooms) (room_of rooms.now) }
        ensures same { self.new ≡ record self.old { certificates = self.new.certificates } }
        ensures over { IsOver grid.now self.old.side self.new }
        ensures rest { AreMovable (zone_count grid.now) (record self.old { resting = resting }) result rooms.now orders.now self.new.certificates.items }
    {
        // It shows that the grid has no more than 64 zones.
        let _ = grid.zones();
        let old = self.orders.as_slice();
        let changed = self.changed.as_slice();
        let replaced = find_replaced(old, orders);
        let mut still: u64 = 0;
        for (zone, certificate) in self.certificates.iter_mut().enumerate() {
            if is_set(resting, zone)
                && certificate.moves(grid, self.side, replaced, (old, changed), (orders, rooms))
            {
                still |= 1 << zone;
            }
        }
        still
    }
}

impl Certificate {
    // Moves the cuts from a line to another one, and answers whether what this certified there over the rooms of its part it
    // certifies here over others, where only those of some borders changed. Where it does not, it certifies nothing. Rows of the
    // whole line are certified by the same line alone, over any rooms.
    fn moves(
        &mut self,
        grid: &Grid,
        side: Side,
        replaced: Replaced,
        old: (&[LineOrder], &[u32]),
        new: (&[LineOrder], &Rooms),
    ) -> bool
        ghost line: { List Standing }
        requires few { zone_count grid.now ≤ 64 }
        requires replaced { IsReplaced old.0.now new.0.now replaced.first replaced.last replaced.next }
        requires changed { AreBorders grid.now old.1.now }
        requires old_zones { (order : ALineOrder) → IsIn order old.0.now → HasZone grid.now order.zone }
        requires orders { new.0.now ≡ map in_line line }
        requires zones { (order : Standing) → IsIn order line → HasZone grid.now order.order.zone }
        requires rooms { length new.1.now ≡ border_count grid.now }
        requires flow { IsFlow (border_count grid.now) self.old.flow }
        ensures flow { self.new.flow ≡ self.old.flow }
        ensures rest { IsTrue result → (rooms : List (ℕ × ℕ)) (zone : ℕ) (rows : List AViewRow) → AreSameBut grid.now old.entry.1.now (room_of rooms) (room_of new.entry.1.now)
            → RestOn (zone_count grid.now) grid.now.borders rooms side zone old.entry.0.now self.old rows
            → RestOn (zone_count grid.now) grid.now.borders new.entry.1.now side zone new.entry.0.now self.new rows }
    {
        if self.is_whole {
            return replaced.is_nothing();
        }
        are_behind(&self.cuts, old.0, replaced.first, replaced.last)
            && are_behind(&self.cuts, new.0, replaced.first, replaced.next)
            && stand_over(grid, old.1, new.1, &self.flow, &self.cuts, side)
            && move_cuts(&mut self.cuts, grid.zones(), replaced)
    }
}

// Certificates of no rows, for each zone of a grid.
fn certificates_over(alloc: Global, grid: &Grid) -> Result<Vec<Certificate>, NoMemory>
    ensures count { IfOk result (λ certificates. length certificates.items ≡ zone_count grid.now) }
    ensures flows { IfOk result (λ certificates. (zone : ℕ) → HasZone grid.now zone → IsFlow (border_count grid.now) (certificate_at certificates.items zone).flow) }
{
    let zones = grid.zones();
    let mut made = Vec::with_capacity(alloc, zones as usize)?;
    for _ in 0..zones {
        made.push(Certificate {
            is_whole: false,
            flow: Flow::over(grid)?,
            cuts: [0; MOST_ZONES],
        })?;
    }
    Ok(made)
}

/// Makes a footing of a side over a grid, on which no rows rest, where there is none that is over it.
///
/// # Errors
///
/// [`NoMemory`] where memory runs out.
pub(crate) fn make_footing(
    alloc: Global,
    grid: &Grid,
    side: Side,
    footing: &mut Option<Footing>,
) -> Result<(), NoMemory>
    requires { IfSome footing.old (IsSized (zone_count grid.now)) }
    ensures over { OnOk result (IsThereOver grid.now side footing.new) }
    ensures same { (footing.new ≡ footing.old) ⊎ IfSome footing.new (λ new. new.resting ≡ 0) }
    ensures failed { OnErr result (footing.new ≡ footing.old) }
{
    let is_over = match footing {
        Some(old) => old.is_over(grid, side),
        None => false,
    };
    if !is_over {
        *footing = Some(Footing::over(alloc, grid, side)?);
    }
    Ok(())
}

/// Has the rows of a set of zones rest on a footing no more. Bit z stands for zone z.
pub(crate) fn take_off(footing: &mut Option<Footing>, zones: u64)
    ensures sized { (count : ℕ) → IfSome footing.old (IsSized count) → IfSome footing.new (IsSized count) }
    ensures rest { (count zone : ℕ) (rows : List AViewRow) → (holds zones zone ≡ false → IsFoundedAt count footing.old zone rows) → IsFoundedAt count footing.new zone rows }
{
    if let Some(on) = footing {
        on.resting = without(on.resting, zones);
    }
}
