//! The desk.

ghost use Rattle.std.specs.Prelude.{◌≡◌, ◌-◌, ◌<◌, ◌^◌, ◌++◌, ℕ, None, IfOk, count_by, length, unwrap_or};
ghost use Rattle.order_kinds.specs.declared.side.Side.{Side as TheSide};
ghost use Rattle.order_kinds.specs.Contract.{contract_at};
ghost use Rattle.zone_graph.specs.Graph.{HasArc, HasZone, zone_count};
ghost use Rattle.laws_of_books.specs.BlocksOf.{blocks_of};
ghost use Rattle.laws_of_hours.specs.Standing.{Stands};
ghost use Rattle.market_model.specs.History.{enters_in};
ghost use Rattle.market_model.specs.Orders.{next_name, open_names};
ghost use Rattle.market_model.specs.Refusals as refusals;
ghost use Rattle.market_model.specs.Room.{phase_of};
ghost use Rattle.market_model.specs.View.{view as market_view};
ghost use Rattle.market_model.specs.Asked.{first_in_hour};
ghost use Rattle.local_view.specs.Boards.{AreRoomsOf};
ghost use Rattle.local_view.specs.Kept.{kept_of, views_forgotten};
ghost use Rattle.hour_desk.specs.Desk as states;
ghost use Rattle.hour_desk.specs.Ranges as ranges;

use crate::part_work::PartWork;
use block_book::BlockBook;
use desk_changes::KeptHour;
use desk_refusals::{refuse_offer, refuse_request};
use desk_views::DeskViews;
use flow_netting::HourFlows;
use local_view::LocalViews;
use market_model::{Event, Phase, Quarter, Refusal, Side, ViewRow};
use std::alloc::Global;
use std::marker::Model;
use zone_graph::{Arc, Grid, NoMemory, Rooms};

/// The desk of one delivery hour: contracts see its hour, its grid, the events that are settled, and, where
/// something is planned, these with the planned ones behind them.
///
/// Parts of the hour have numbers: 0 is the hour, 1 to 4 are its quarters, 5 and 6 its halves.
pub struct HourDesk {
    pub(crate) alloc: Global,
    pub(crate) kept: KeptHour,
    pub(crate) views: DeskViews,
    pub(crate) is_planned: bool,
}

impl Model for HourDesk {
    ghost use Rattle.hour_desk.specs.Desk.{DeskState};
    ghost use Rattle.hour_desk.specs.Insides.{IsInside, desk_of};

    ghost Value = { DeskState };

    ghost view = { λ desk. desk_of desk.kept desk.is_planned };

    ghost invariant = { λ desk. IsInside desk.kept desk.views desk.is_planned };
}

// Written out: a crate that drops one need not know what it is made of.
impl Drop for HourDesk {
    fn drop(self) {
        let HourDesk {
            alloc: _,
            kept: _,
            views: _,
            is_planned: _,
        } = self;
    }
}

impl HourDesk {
    /// The desk of an hour over a grid, without events. Hours are counted from 1 through the delivery day.
    ///
    /// # Errors
    ///
    /// [`NoMemory`] where memory runs out.
    pub fn new(alloc: Global, hour: u32, grid: &Grid) -> Result<HourDesk, NoMemory>
        ensures { IfOk result (λ desk. desk ≡ states.empty_desk grid.now hour) }
    {
        let kept = KeptHour::new(alloc, hour, grid)?;
        let views = DeskViews::new(alloc, grid)?;
        Ok(HourDesk {
            alloc,
            kept,
            views,
            is_planned: false,
        })
    }

    /// The number of its hour.
    pub fn hour(&self) -> u32
        ensures { result ≡ self.now.hour }
    {
        self.kept.hour()
    }

    /// The settled events of the hour, in order.
    pub fn settled(&self) -> &[Event]
        ensures { result.now ≡ self.now.settled }
    {
        let count = self.kept.settled_len();
        self.kept.events().split_at(count).0
    }

    /// The events that are planned behind the settled ones, in order: none where nothing is planned.
    pub fn planned(&self) -> &[Event]
        ensures events { result.now ≡ states.planned_events self.now }
        ensures behind { unwrap_or self.now.planned self.now.settled ≡ self.now.settled ++ result.now }
    {
        let count = self.kept.settled_len();
        self.kept.events().split_at(count).1
    }

    /// The phase of the hour. Nothing is planned.
    pub fn phase(&self) -> Phase
        requires { self.now.planned ≡ None }
        ensures { result ≡ phase_of self.now.settled self.now.hour }
    {
        self.kept.flows().phase()
    }

    /// The flows of the hour. Nothing is planned.
    pub fn flows(&self) -> &HourFlows
        requires { self.now.planned ≡ None }
        ensures { Stands self.now.grid self.now.settled self.now.hour result.now }
    {
        self.kept.flows()
    }

    /// The book of the blocks that start in the hour. Nothing is planned.
    pub fn blocks(&self) -> &BlockBook
        requires { self.now.planned ≡ None }
        ensures { result.now ≡ blocks_of self.now.settled self.now.hour }
    {
        self.kept.blocks()
    }

    /// How many orders and blocks of the hour are open. Nothing is planned.
    pub fn open(&self) -> u32
        requires { self.now.planned ≡ None }
        ensures { result ≡ length (open_names self.now.settled self.now.hour) }
    {
        self.kept.open()
    }

    /// The number of the next order or block that enters by the hour. Nothing is planned, and fewer than
    /// 2^32 - 1 have entered.
    pub fn next_number(&self) -> u32
        requires unplanned { self.now.planned ≡ None }
        requires few { count_by (enters_in self.now.hour) self.now.settled < 2 ^ 32 - 1 }
        ensures { result ≡ (next_name self.now.settled self.now.hour).number }
    {
        self.kept.next_number()
    }

    /// The rows of a part, a side and a zone of the hour as it is settled: what a taker in the zone could
    /// trade with, in the order in which it would.
    pub fn rows(&self, part: u32, side: Side, zone: u32) -> &[ViewRow]
        requires part { part < 7 }
        requires zone { HasZone self.now.grid zone }
        ensures { result.now ≡ market_view self.now.grid self.now.settled (contract_at self.now.hour part) side zone }
    {
        self.views.rows(part, side, zone)
    }

    /// The rooms of a part of the hour as it is settled.
    pub fn rooms(&self, part: u32) -> &Rooms
        requires { part < 7 }
        ensures { AreRoomsOf (states.board_of self.now) part result.now }
    {
        self.views.rooms(part)
    }

    /// The refusal by the first quarter of the hour, of those in a range, in which more flows over an arc
    /// than would be offered, in lots: `None` exactly where the offer covers the flow in each of them.
    /// Nothing is planned.
    pub fn refuse_offer(
        &self,
        arc: Arc,
        first: Quarter,
        last: Quarter,
        lots: u32,
    ) -> Option<Refusal>
        requires unplanned { self.now.planned ≡ None }
        requires arc { HasArc self.now.grid arc }
        ensures { result ≡ first_in_hour (refusals.below_flow self.now.settled arc lots)
            (record { arc = arc; first = first; last = last; lots = lots }) self.now.hour }
    {
        refuse_offer(&self.kept, arc, first, last, lots)
    }

    /// The refusal by the first quarter of the hour, of those in a range, in which an arc has less room than
    /// is requested, in lots: `None` exactly where each of them has that room. Nothing is planned.
    pub fn refuse_request(
        &self,
        arc: Arc,
        first: Quarter,
        last: Quarter,
        lots: u32,
    ) -> Option<Refusal>
        requires unplanned { self.now.planned ≡ None }
        requires arc { HasArc self.now.grid arc }
        ensures { result ≡ first_in_hour (refusals.no_room self.now.settled arc lots)
            (record { arc = arc; first = first; last = last; lots = lots }) self.now.hour }
    {
        refuse_request(&self.kept, arc, first, last, lots)
    }

    /// The refusal of the hour's part of an offer or a request: that of the offer, or of the request. Nothing is
    /// planned.
    pub fn refuse_part(&self, work: &PartWork) -> Option<Refusal>
        requires unplanned { self.now.planned ≡ None }
        requires arc { ranges.IsOnArc self.now.grid work.now }
        ensures { result ≡ ranges.part_refusal work.now self.now }
    {
        match work {
            PartWork::Offer {
                arc,
                first,
                last,
                lots,
            } => self.refuse_offer(*arc, *first, *last, *lots),
            PartWork::Grant {
                arc,
                first,
                last,
                lots,
            } => self.refuse_request(*arc, *first, *last, *lots),
            _ => None,
        }
    }

    /// The local views of the hour. Nothing is planned, and so nothing is next.
    pub fn views(&self) -> &LocalViews
        requires { self.now.planned ≡ None }
        ensures zones { result.now.zones ≡ zone_count self.now.grid }
        ensures parts { length result.now.lines ≡ 7 }
        ensures kept { (part : ℕ) (side : TheSide) (zone : ℕ) → part < 7 → HasZone self.now.grid zone
            → kept_of result.now part side zone ≡ market_view self.now.grid self.now.settled (contract_at self.now.hour part) side zone }
        ensures none_next { views_forgotten result.now ≡ result.now }
    {
        self.views.views()
    }
}
