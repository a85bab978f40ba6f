//! The local views of one hour over a board.

ghost use Rattle.std.specs.Prelude.{◌≡◌, ◌+◌, ◌*◌, ◌<◌, ◌^◌, ℕ, None, IfOk, IfSome, OnErr, OnOk, get_or, length, map, replicate};
ghost use Rattle.order_kinds.specs.declared.side.Side.{Side};
ghost use Rattle.zone_graph.specs.Graph.{zone_count};
ghost use Rattle.local_view.specs.Kept.{AreAllNext, AreNext, AreSized, empty_part, kept_of, line_of, made_after as most_made, no_part, on_side, part_adopted, part_forgotten, views_adopted, views_forgotten};
ghost use Rattle.market_model.specs.Board.{IsBoard};
ghost use Rattle.zone_graph.specs.Rooms.{room_of};
ghost use Rattle.local_view.specs.Nearness.{AreOthers, WereViews, near_count};
ghost use Rattle.local_view.specs.Sums.{AllNextAddUp, NextAddUp};
ghost use Rattle.local_view.specs.Works.{HasMade, IsSound};

use crate::listing::Line;
use crate::nearness::near_zones;
use crate::part_views::PartViews;
use crate::work::Work;
use market_model::{Board, NoMemory, Side, ViewRow};
use std::alloc::Global;
use std::marker::Model;
use zone_graph::{Grid, Rooms};

/// The local views of one hour: for each part, side and zone the rows that are kept, and for each part
/// and side the rows of all zones that are next, or none.
///
/// Parts have numbers: 0 is the hour, 1 to 4 are its quarters, 5 and 6 its halves.
#[derive(Drop)]
pub struct LocalViews {
    zones: u32,
    parts: Vec<PartViews>,
    made: u64,
    work: Option<Work>,
}

impl Model for LocalViews {
    ghost use Rattle.local_view.specs.Kept.{Views};
    ghost use Rattle.local_view.specs.Insides.{IsInside};

    ghost Value = { Views };

    ghost view = { λ views. record { zones = views.zones; lines = views.parts.items; made = views.made } };

    ghost invariant = { λ views. IsInside views.zones views.parts.items views.work };
}

impl LocalViews {
    /// Views of so many zones and parts: the kept rows are all empty, nothing is next, and no list
    /// was made.
    ///
    /// # Errors
    ///
    /// [`NoMemory`] where memory runs out.
    pub fn new(alloc: Global, zones: u32, parts: u32) -> Result<LocalViews, NoMemory>
        ensures { IfOk result (λ views. views ≡ record { zones = zones; lines = replicate parts (empty_part zones); made = 0 }) }
    {
        Ok(LocalViews {
            zones,
            parts: empty_parts(alloc, zones, parts)?,
            made: 0,
            work: None,
        })
    }

    /// Makes the next rows of every part, side and zone: the views of the board. The kept rows stay.
    /// `made` rises by the number of lists.
    ///
    /// Where the board's events are those of the hour in a well-formed history, the lots of each list
    /// of rows add up to the most that a taker of any quantity at any price can obtain there: to what
    /// the orders show in the zones that are still in reach where its taking ends, and the room of the
    /// arcs across their borders.
    ///
    /// The grid is the board's, and has as many zones as the views; the board has as many parts, and no
    /// order in hand.
    ///
    /// # Errors
    ///
    /// [`NoMemory`] where memory runs out. All next rows are dropped then.
    pub fn refresh<B: Board>(&mut self, board: &B, grid: &Grid) -> Result<(), NoMemory>
        requires grid { grid.now ≡ (B.state board.now).grid }
        requires hand { (B.state board.now).hand ≡ None }
        requires zones { zone_count grid.now ≡ self.old.zones }
        requires parts { (B.state board.now).parts ≡ length self.old.lines }
        ensures next { OnOk result (AreAllNext (B.state board.now) self.new) }
        ensures sums { OnOk result (AllNextAddUp (B.state board.now) self.new) }
        ensures kept { views_forgotten self.new ≡ views_forgotten (record { zones = self.old.zones; lines = self.old.lines; made = self.new.made }) }
        ensures made { OnOk result (self.new.made ≡ most_made self.old.made (length self.old.lines * (2 * self.old.zones))) }
        ensures failed { OnErr result (self.new ≡ views_forgotten self.old) }
    {
        let refreshed = self.try_refresh(board, grid);
        if refreshed.is_err() {
            self.forget();
        }
        refreshed
    }

    // The same, but after an error there may be next rows of some parts.
    fn try_refresh<B: Board>(&mut self, board: &B, grid: &Grid) -> Result<(), NoMemory>
        requires grid { grid.now ≡ (B.state board.now).grid }
        requires hand { (B.state board.now).hand ≡ None }
        requires zones { zone_count grid.now ≡ self.old.zones }
        requires parts { (B.state board.now).parts ≡ length self.old.lines }
        ensures next { OnOk result (AreAllNext (B.state board.now) self.new) }
        ensures kept { map part_forgotten self.new.lines ≡ map part_forgotten self.old.lines }
        ensures zones { self.new.zones ≡ self.old.zones }
        ensures made { OnOk result (self.new.made ≡ most_made self.old.made (length self.old.lines * (2 * self.old.zones))) }
        ensures failed { OnErr result (self.new.made ≡ self.old.made) }
    {
        let alloc = *self.parts.allocator();
        let zones = grid.zones();
        let parts = self.parts.as_mut_slice();
        let filled = fill_parts(alloc, board, grid, &mut self.work, parts);
        if filled.is_ok() {
            self.made = made_after(self.made, self.parts.len(), zones);
        }
        filled
    }

    /// Makes the next rows of one part and side, for every zone: the views of the board. All other next
    /// rows, and the kept ones, stay.
    ///
    /// The kept rows of the part and side are the views after some events of the hour, `old_rooms` are
    /// the rooms of the part then, and the board differs from then in the zones of `touched` alone: bit
    /// z stands for zone z. Only the rows of the zones that could trade with a touched one are computed,
    /// and `made` rises by their number; the others stay as they are kept. The rows add up as those
    /// of `refresh` do. The grid is the board's, and has as many zones as the views; the board has as many
    /// parts, and no order in hand.
    ///
    /// # Errors
    ///
    /// [`NoMemory`] where memory runs out. All next rows are dropped then.
    pub fn refresh_near<B: Board>(
        &mut self,
        board: &B,
        grid: &Grid,
        part: u32,
        side: Side,
        old_rooms: &Rooms,
        touched: u64,
    ) -> Result<(), NoMemory>
        requires grid { grid.now ≡ (B.state board.now).grid }
        requires hand { (B.state board.now).hand ≡ None }
        requires zones { zone_count grid.now ≡ self.old.zones }
        requires parts { (B.state board.now).parts ≡ length self.old.lines }
        requires part { part < length self.old.lines }
        requires near { WereViews (B.state board.now) part side touched old_rooms.now (line_of self.old part side).kept }
        ensures next { OnOk result (AreNext (B.state board.now) part side self.new.zones (line_of self.new part side)) }
        ensures sums { OnOk result (NextAddUp (B.state board.now) part side (line_of self.new part side)) }
        ensures others { OnOk result ((other : ℕ) (otherwise : Side) → AreOthers part side other otherwise → line_of self.new other otherwise ≡ line_of self.old other otherwise) }
        ensures kept { views_forgotten self.new ≡ views_forgotten (record { zones = self.old.zones; lines = self.old.lines; made = self.new.made }) }
        ensures made { OnOk result (self.new.made ≡ most_made self.old.made (near_count grid.now (room_of old_rooms.now) side touched)) }
        ensures failed { OnErr result (self.new ≡ views_forgotten self.old) }
    {
        let line = Line { part, side };
        let refreshed = self.try_refresh_near(board, grid, line, old_rooms, touched);
        if refreshed.is_err() {
            self.forget();
        }
        refreshed
    }

    // The same, but after an error there may be next rows of the part and side.
    fn try_refresh_near<B: Board>(
        &mut self,
        board: &B,
        grid: &Grid,
        line: Line,
        old_rooms: &Rooms,
        touched: u64,
    ) -> Result<(), NoMemory>
        requires grid { grid.now ≡ (B.state board.now).grid }
        requires hand { (B.state board.now).hand ≡ None }
        requires zones { zone_count grid.now ≡ self.old.zones }
        requires parts { (B.state board.now).parts ≡ length self.old.lines }
        requires part { line.part < length self.old.lines }
        requires near { WereViews (B.state board.now) line.part line.side touched old_rooms.now (line_of self.old line.part line.side).kept }
        ensures next { OnOk result (AreNext (B.state board.now) line.part line.side self.new.zones (line_of self.new line.part line.side)) }
        ensures others { OnOk result ((other : ℕ) (otherwise : Side) → AreOthers line.part line.side other otherwise → line_of self.new other otherwise ≡ line_of self.old other otherwise) }
        ensures kept { map part_forgotten self.new.lines ≡ map part_forgotten self.old.lines }
        ensures zones { self.new.zones ≡ self.old.zones }
        ensures made { OnOk result (self.new.made ≡ most_made self.old.made (near_count grid.now (room_of old_rooms.now) line.side touched)) }
        ensures failed { OnErr result (self.new.made ≡ self.old.made) }
    {
        let alloc = *self.parts.allocator();
        let near = near_zones(grid, old_rooms, line.side, touched);
        let lists = u64::from(near.count_ones());
        let parts = self.parts.as_mut_slice();
        let filled = fill_near(alloc, board, grid, &mut self.work, parts, line, near);
        if filled.is_ok() {
            self.made = made_more(self.made, lists);
        }
        filled
    }

    /// The next rows become the kept ones, part and side by part and side. A part and side without
    /// next rows keeps its own.
    pub fn adopt(&mut self)
        ensures { self.new ≡ views_adopted self.old }
    {
        adopt_parts(self.parts.as_mut_slice());
    }

    /// Drops the next rows. The kept ones stay.
    pub fn forget(&mut self)
        ensures { self.new ≡ views_forgotten self.old }
    {
        forget_parts(self.parts.as_mut_slice());
    }

    /// The kept rows of a part, a side and a zone.
    pub fn rows(&self, part: u32, side: Side, zone: u32) -> &[ViewRow]
        requires part { part < length self.now.lines }
        requires zone { zone < self.now.zones }
        ensures { result.now ≡ kept_of self.now part side zone }
    {
        self.parts.as_slice()[part as usize].on(side).rows(zone)
    }

    /// How many lists of rows the refreshes have computed. It stays at its last value, 2^64 - 1.
    pub fn made(&self) -> u64
        ensures { result ≡ self.now.made }
    {
        self.made
    }
}

// Empty rows of so many parts.
fn empty_parts(alloc: Global, zones: u32, parts: u32) -> Result<Vec<PartViews>, NoMemory>
    ensures { IfOk result (λ made. made.items ≡ replicate parts (empty_part zones)) }
{
    let mut made = Vec::with_capacity(alloc, parts as usize)?;
    for _ in 0..parts {
        made.push(PartViews::new(alloc, zones))?;
    }
    Ok(made)
}

// The next rows of each part become the kept ones, where there are such.
fn adopt_parts(parts: &mut [PartViews])
    ensures adopted { parts.new ≡ map part_adopted parts.old }
    ensures sized { (zones : ℕ) → AreSized zones parts.old → AreSized zones parts.new }
{
    for part in parts.iter_mut() {
        part.adopt();
    }
}

// Drops the next rows of each part.
fn forget_parts(parts: &mut [PartViews])
    ensures { parts.new ≡ map part_forgotten parts.old }
{
    for part in parts.iter_mut() {
        part.forget();
    }
}

// Makes the next rows of each part, side and zone from the board.
fn fill_parts<B: Board>(
    alloc: Global,
    board: &B,
    grid: &Grid,
    work: &mut Option<Work>,
    parts: &mut [PartViews],
) -> Result<(), NoMemory>
    requires grid { grid.now ≡ (B.state board.now).grid }
    requires hand { (B.state board.now).hand ≡ None }
    requires parts { (B.state board.now).parts ≡ length parts.old }
    requires few { length parts.old < 2 ^ 32 }
    requires work { IfSome work.old IsSound }
    requires sized { AreSized (zone_count grid.now) parts.old }
    ensures next { OnOk result ((part : ℕ) (side : Side) → part < length parts.new → AreNext (B.state board.now) part side (zone_count grid.now) (on_side (get_or parts.new part no_part) side)) }
    ensures kept { map part_forgotten parts.new ≡ map part_forgotten parts.old }
    ensures work { IfSome work.new IsSound }
{
    for (part, views) in parts.iter_mut().enumerate() {
        views.refresh(alloc, board, grid, work, part as u32)?;
    }
    Ok(())
}

// How many lists were made, after so many more.
fn made_more(made: u64, lists: u64) -> u64
    ensures { result ≡ most_made made lists }
{
    made.saturating_add(lists)
}

// How many lists were made, after those of so many parts and zones.
fn made_after(made: u64, parts: usize, zones: u32) -> u64
    requires parts { parts < 2 ^ 32 }
    requires zones { zones < 2 ^ 31 }
    ensures { result ≡ most_made made (parts * (2 * zones)) }
{
    made.saturating_add(parts as u64 * (2 * u64::from(zones)))
}

// Makes the next rows of one part and side: of a set of zones from the board, and of the others the kept ones.
fn fill_near<B: Board>(
    alloc: Global,
    board: &B,
    grid: &Grid,
    work: &mut Option<Work>,
    parts: &mut [PartViews],
    line: Line,
    computed: u64,
) -> Result<(), NoMemory>
    requires grid { grid.now ≡ (B.state board.now).grid }
    requires hand { (B.state board.now).hand ≡ None }
    requires parts { (B.state board.now).parts ≡ length parts.old }
    requires part { line.part < length parts.old }
    requires work { IfSome work.old IsSound }
    requires sized { AreSized (zone_count grid.now) parts.old }
    ensures next { OnOk result (HasMade computed (B.state board.now) line.part line.side (on_side (get_or parts.old line.part no_part) line.side).kept (on_side (get_or parts.new line.part no_part) line.side)) }
    ensures others { (other : ℕ) (otherwise : Side) → AreOthers line.part line.side other otherwise → on_side (get_or parts.new other no_part) otherwise ≡ on_side (get_or parts.old other no_part) otherwise }
    ensures kept { map part_forgotten parts.new ≡ map part_forgotten parts.old }
    ensures work { IfSome work.new IsSound }
    ensures board { IsBoard (B.state board.now) }
{
    parts[line.part as usize].refresh_near(alloc, board, grid, work, line, computed)
}
