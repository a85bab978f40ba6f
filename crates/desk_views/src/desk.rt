//! The views of a desk.

ghost use Rattle.std.specs.Prelude.{◌≡◌, ℕ, ◌<◌, [], None, IfOk, IsOk, OnErr, OnOk, false, get_or, length};
ghost use Rattle.std.specs.List.{list_any};
ghost use Rattle.local_view.specs.Kept.{kept_of};
ghost use Rattle.kept_hour.specs.Planned.{moves_flows, planned_of};
ghost use Rattle.kept_hour.specs.State.{empty_board, settled_board};
ghost use Rattle.desk_views.specs.Desk.{adopted, forgotten, with_made};
ghost use Rattle.desk_views.specs.Standing.{IsMadeNear, IsNext, StandAt};

use crate::refreshing::refresh_lines;
use crate::rooms::{PARTS, moved_if, no_rooms};
use kept_hour::KeptHour;
use local_view::LocalViews;
use market_model::{Side, ViewRow};
use std::alloc::Global;
use std::marker::Model;
use std::mem;
use zone_graph::{Grid, NoMemory, Rooms};

/// The local views of an hour and the rooms of its seven parts: those that are kept, of the hour as it is
/// settled, and those that are next, of the hour as it is planned, as far as they are others.
///
/// Parts have numbers: 0 is the hour, 1 to 4 are its quarters, 5 and 6 its halves.
#[derive(Drop)]
pub struct DeskViews {
    views: LocalViews,
    rooms: Vec<Rooms>,
    planned: Vec<Rooms>,
    asked: bool,
}

impl Model for DeskViews {
    ghost use Rattle.desk_views.specs.Desk.{DeskState};
    ghost use Rattle.desk_views.specs.Insides.{IsInside, planned_if};

    ghost Value = { DeskState };

    ghost view = { λ desk. record { views = desk.views; rooms = desk.rooms.items; next = planned_if desk.asked desk.planned.items } };

    ghost invariant = { λ desk. IsInside desk.rooms.items desk.planned.items };
}

impl DeskViews {
    /// The views of an hour without events over a grid.
    ///
    /// # Errors
    ///
    /// [`NoMemory`] where memory runs out.
    pub fn new(alloc: Global, grid: &Grid) -> Result<DeskViews, NoMemory>
        ensures stand { IfOk result (λ desk. (hour : ℕ) → StandAt (empty_board grid.now hour) desk) }
        ensures none_next { IfOk result (λ desk. forgotten desk ≡ desk) }
        ensures none_made { IfOk result (λ desk. desk.views.made ≡ 0) }
    {
        let rooms = no_rooms(alloc, grid)?;
        let planned = no_rooms(alloc, grid)?;
        Ok(DeskViews {
            views: LocalViews::new(alloc, grid.zones(), PARTS as u32)?,
            rooms,
            planned,
            asked: false,
        })
    }

    /// Makes what is next: the views and the rooms of the hour as it is planned. What is kept stays.
    ///
    /// What is kept is of the hour as it is settled, and nothing is next. Where no planned event is of the
    /// hour's flows no rooms are next. Of each part and side only the rows are computed that a zone can reach
    /// in which an order is that a planned event names, or in which an arc begins or ends whose room has
    /// changed, and `made` rises by their number; where there is no such zone, none are next.
    ///
    /// # Errors
    ///
    /// [`NoMemory`] where memory runs out. Then nothing is next; `made` counts what was computed before.
    pub fn refresh(&mut self, hour: &KeptHour, grid: &Grid) -> Result<(), NoMemory>
        requires grid { grid.now ≡ hour.now.board.grid }
        requires free { hour.now.board.hand ≡ None }
        requires stands { StandAt (settled_board hour.now) self.old }
        requires none_next { forgotten self.old ≡ self.old }
        ensures next { OnOk result (IsNext hour.now.board self.new) }
        ensures kept { forgotten self.new ≡ with_made self.old self.new.views.made }
        ensures made { OnOk result (IsMadeNear hour.now self.old self.new) }
        ensures unasked { list_any moves_flows (planned_of hour.now) ≡ false → OnOk result (self.new.next ≡ None) }
        ensures unplanned { hour.now.board.events ≡ hour.now.settled → IsOk result × (self.new ≡ self.old) }
        ensures failed { OnErr result (forgotten self.new ≡ self.new) }
    {
        // It shows that the grid has no more than 64 zones.
        let _ = grid.zones();
        let changed = hour.changed_zones();
        let asked = hour.flows_changed();
        let rooms = self.rooms.as_slice();
        let moved = moved_if(asked, hour, grid, rooms, self.planned.as_mut_slice());
        refresh_lines(&mut self.views, hour, grid, rooms, &changed, &moved)?;
        self.asked = asked;
        Ok(())
    }

    /// What is next becomes what is kept, part and side by part and side: where nothing is next, what is
    /// kept stays. It takes no memory.
    pub fn adopt(&mut self)
        ensures { self.new ≡ adopted self.old }
    {
        self.views.adopt();
        if self.asked {
            mem::swap(&mut self.rooms, &mut self.planned);
            self.asked = false;
        }
    }

    /// Drops what is next. What is kept stays. It takes no memory.
    pub fn forget(&mut self)
        ensures { self.new ≡ forgotten self.old }
    {
        self.views.forget();
        self.asked = false;
    }

    /// The kept rows of a part, a side and a zone.
    pub fn rows(&self, part: u32, side: Side, zone: u32) -> &[ViewRow]
        requires part { part < length self.now.views.lines }
        requires zone { zone < self.now.views.zones }
        ensures { result.now ≡ kept_of self.now.views part side zone }
    {
        self.views.rows(part, side, zone)
    }

    /// The kept rooms of a part.
    pub fn rooms(&self, part: u32) -> &Rooms
        requires { part < 7 }
        ensures { result.now ≡ get_or self.now.rooms part [] }
    {
        &self.rooms.as_slice()[part as usize]
    }

    /// The local views, the kept ones and those that are next.
    pub fn views(&self) -> &LocalViews
        ensures { result.now ≡ self.now.views }
    {
        &self.views
    }
}
