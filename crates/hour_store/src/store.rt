//! The store.

ghost use Rattle.std.specs.Prelude.{◌≡◌, ◌↔◌, ◌==◌, ◌&&◌, ◌+◌, ◌-◌, ◌*◌, ◌≤◌, ◌<◌, ◌≤ℤ◌, pos, true, [], replicate, length, Some, None, IsErr, IfOk, IfSome, OnOk, OnErr};
ghost use Rattle.std.specs.List.{list_any};
ghost use Rattle.std.specs.Option.{IsSomeAnd, option_to_list};
ghost use Rattle.zone_graph.specs.Pour.{same_arc, uses};
ghost use Rattle.contract_book.specs.Resting.{IsSound};
ghost use Rattle.quarter_capacity.specs.Capacity.{most_offered};
ghost use Rattle.order_kinds.specs.Period.{EachQuarter};
ghost use Rattle.flow_netting.specs.Flows as flow;
ghost use Rattle.flow_netting.specs.QuarterSet.{has};
ghost use Rattle.laws_of_hours.specs.Standing.{IsCarried, IsHaltSet, IsIdle, IsOffered};
ghost use Rattle.hour_store.specs.Contents.{AreSame, Contents, IsOfPart, NothingOverdrawn, OffersInRange};
ghost use Rattle.hour_store.specs.Changed.{AreChangedBorders, AreChangedZones, NotesNoFlow, NotesNoOrder, NotesOrdersAt, RestsAt, changes_flows, stands_in};
ghost use Rattle.hour_store.specs.Store.{GoesBackTo, StillLeadsBack};

use crate::change::Change;
use crate::changed::{
    ChangedBorders, ChangedZones, any_changes_flows, borders_of_changes, zones_of_changes,
};
use crate::faults::Full;
use crate::flows::{grant_in, offer_one, offered, set_halt};
use crate::kept::{Kept, take_all_back};
use block_book::{BlockBook, RestingBlock};
use contract_book::{ContractBook, Resting};
use flow_netting::{HourFlows, QuarterSet};
use order_kinds::Phase;
use std::alloc::Global;
use std::marker::Model;
use undo_log::UndoLog;
use zone_graph::{Arc, Grid, NoMemory, Route};

// The parts of an hour: the hour itself, its halves and its quarters.
const PARTS: u32 = 7;

/// The books and the flows of an hour, and a log of their changes. Contracts see the contents, the
/// changes that were noted since the last [`HourStore::settle`] or [`HourStore::undo`], and `spare`,
/// how many more can be noted without taking memory.
///
/// No call but [`HourStore::new`] and [`HourStore::reserve`] takes memory.
#[derive(Drop)]
pub struct HourStore {
    kept: Kept,
    log: UndoLog<Change>,
}

impl Model for HourStore {
    ghost use Rattle.hour_store.specs.Store.{Store};

    ghost Value = { Store };

    ghost use Rattle.hour_store.specs.Inside.{CanGoBack, IsKept, contents_of};

    ghost view = { λ a. record { contents = contents_of a.kept; changes = a.log.records; spare = a.log.spare } };

    ghost invariant = { λ a. IsKept (contents_of a.kept) × CanGoBack a.log.records (contents_of a.kept) };
}

impl HourStore {
    ghost use Rattle.contract_book.specs.Book as orders;
    ghost use Rattle.block_book.specs.Book as blocks;

    /// A store with no order and no block, of idle flows over the borders of a grid, and with no
    /// change noted.
    ///
    /// # Errors
    ///
    /// [`NoMemory`] where memory runs out.
    pub fn new(alloc: Global, grid: &Grid) -> Result<HourStore, NoMemory>
        ensures book { IfOk result (λ store. store.contents.book ≡ replicate (2 * 7) []) }
        ensures blocks { IfOk result (λ store. store.contents.blocks ≡ []) }
        ensures flows { IfOk result (λ store. IsIdle grid.now store.contents.flows) }
        ensures settled { IfOk result (λ store. store.changes ≡ []) }
    {
        let Ok(log) = UndoLog::new(alloc) else {
            return Err(NoMemory);
        };
        Ok(HourStore {
            kept: Kept {
                book: ContractBook::new(alloc, PARTS)?,
                blocks: BlockBook::new(alloc)?,
                flows: HourFlows::new(alloc, grid)?,
            },
            log,
        })
    }

    /// Makes room for at least so many more changes. All else stays as it is.
    ///
    /// # Errors
    ///
    /// [`NoMemory`] where memory runs out, and only where there was not room for so many. Then nothing
    /// changes.
    pub fn reserve(&mut self, more: usize) -> Result<(), NoMemory>
        ensures contents { self.new.contents ≡ self.old.contents }
        ensures changes { self.new.changes ≡ self.old.changes }
        ensures enough { OnOk result (more ≤ self.new.spare) }
        ensures kept_room { self.old.spare ≤ self.new.spare }

        // There is no error where the room is there already, and after one nothing has changed.
        ensures full { OnErr result (self.old.spare < more) }
        ensures err { OnErr result (self.new ≡ self.old) }
    {
        let Ok(()) = self.log.reserve(more) else {
            return Err(NoMemory);
        };
        Ok(())
    }

    /// The orders that rest.
    pub fn book(&self) -> &ContractBook
        ensures book { result.now ≡ self.now.contents.book }
        ensures sound { orders.IsBook self.now.contents.book }
        ensures parts { orders.parts_of self.now.contents.book ≡ 7 }
    {
        // Its length shows what every book keeps.
        let _ = self.kept.book.len();
        &self.kept.book
    }

    /// The blocks that rest.
    pub fn blocks(&self) -> &BlockBook
        ensures blocks { result.now ≡ self.now.contents.blocks }
        ensures sound { blocks.IsBook self.now.contents.blocks }
    {
        // Its length shows what every book keeps.
        let _ = self.kept.blocks.len();
        &self.kept.blocks
    }

    /// The flows.
    pub fn flows(&self) -> &HourFlows
        ensures flows { result.now ≡ self.now.contents.flows }
        ensures drawn { NothingOverdrawn self.now.contents.flows }
        ensures offers { OffersInRange self.now.contents.flows }
    {
        &self.kept.flows
    }

    /// Puts an order in priority into the line of a part and of its side.
    ///
    /// # Errors
    ///
    /// [`Full`] exactly where 4096 orders rest, and then nothing changes.
    pub fn rest(&mut self, part: u32, order: Resting) -> Result<(), Full>
        requires spare { 1 ≤ self.old.spare }
        requires part { part < orders.parts_of self.old.contents.book }
        requires absent { orders.order_of self.old.contents.book order.number ≡ None }
        requires sound { IsSound order }
        ensures full { IsErr result ↔ (orders.order_count self.old.contents.book ≡ 4096) }
        ensures unchanged { OnErr result (self.new ≡ self.old) }
        ensures rests { OnOk result (self.new.contents ≡ record self.old.contents { book = orders.with_order self.old.contents.book part order }) }
        ensures spare { OnOk result (self.new.spare ≡ self.old.spare - 1) }
        ensures back { StillLeadsBack self.old self.new }
        ensures noted { OnOk result (NotesOrdersAt (λ own side zone. stands_in own side zone part order ≡ true) self.old.changes self.new.changes) }
        ensures no_flow { NotesNoFlow self.old.changes self.new.changes }
    {
        let Ok(()) = self.kept.book.rest(part, order) else {
            return Err(Full);
        };
        self.log.note(Change::OrderRested { part, order });
        Ok(())
    }

    /// Fills so many lots of what an order of a part shows. Where nothing is left of it, it leaves;
    /// where its peak is empty, the next one follows, with the given moment.
    pub fn fill(&mut self, part: u32, number: u32, lots: u32, moment: u64)
        requires spare { 1 ≤ self.old.spare }
        requires order { IsSomeAnd (orders.order_of self.old.contents.book number) (λ order. IsOfPart self.old.contents.book part order × (1 ≤ lots) × (lots ≤ order.shown)) }
        ensures filled { self.new.contents ≡ record self.old.contents { book = orders.filled self.old.contents.book number lots moment } }
        ensures spare { self.new.spare ≡ self.old.spare - 1 }
        ensures back { StillLeadsBack self.old self.new }
        ensures noted { NotesOrdersAt (RestsAt self.old.contents.book number part) self.old.changes self.new.changes }
        ensures no_flow { NotesNoFlow self.old.changes self.new.changes }
    {
        let _ = self.kept.book.len();
        let Some(was) = self.kept.book.get(number) else {
            unreachable!();
        };
        self.log.note(Change::OrderChanged { part, was });
        self.kept.book.fill(number, lots, moment);
    }

    /// Takes the order of a number, which is of a part if it rests, out, and answers it: `None`
    /// exactly where no order has the number, and then nothing changes.
    pub fn withdraw(&mut self, part: u32, number: u32) -> Option<Resting>
        requires spare { 1 ≤ self.old.spare }
        requires order { IfSome (orders.order_of self.old.contents.book number) (λ order. IsOfPart self.old.contents.book part order) }
        ensures order { result ≡ orders.order_of self.old.contents.book number }
        ensures without { self.new.contents ≡ record self.old.contents { book = orders.without self.old.contents.book number } }
        ensures spare { self.new.spare ≡ self.old.spare - length (option_to_list result) }
        ensures back { StillLeadsBack self.old self.new }
        ensures noted { NotesOrdersAt (RestsAt self.old.contents.book number part) self.old.changes self.new.changes }
        ensures no_flow { NotesNoFlow self.old.changes self.new.changes }
    {
        let _ = self.kept.book.len();
        let was = self.kept.book.withdraw(number)?;
        self.log.note(Change::OrderChanged { part, was });
        Some(was)
    }

    /// Takes so many lots off an order of a part that is no iceberg. It keeps its place.
    pub fn reduce(&mut self, part: u32, number: u32, by: u32)
        requires spare { 1 ≤ self.old.spare }
        requires order { IsSomeAnd (orders.order_of self.old.contents.book number) (λ order.
            IsOfPart self.old.contents.book part order × (order.ice ≡ None) × (1 ≤ by) × (by < order.left)) }
        ensures reduced { self.new.contents ≡ record self.old.contents { book = orders.reduced self.old.contents.book number by } }
        ensures spare { self.new.spare ≡ self.old.spare - 1 }
        ensures back { StillLeadsBack self.old self.new }
        ensures noted { NotesOrdersAt (RestsAt self.old.contents.book number part) self.old.changes self.new.changes }
        ensures no_flow { NotesNoFlow self.old.changes self.new.changes }
    {
        let _ = self.kept.book.len();
        let Some(was) = self.kept.book.get(number) else {
            unreachable!();
        };
        self.log.note(Change::OrderChanged { part, was });
        self.kept.book.reduce(number, by);
    }

    /// Puts a block in priority into the lines of its period and side.
    ///
    /// # Errors
    ///
    /// [`Full`] exactly where 4096 blocks rest, and then nothing changes.
    pub fn rest_block(&mut self, block: RestingBlock) -> Result<(), Full>
        requires spare { 1 ≤ self.old.spare }
        requires absent { blocks.block_of self.old.contents.blocks block.number ≡ None }
        ensures full { IsErr result ↔ (length self.old.contents.blocks ≡ 4096) }
        ensures unchanged { OnErr result (self.new ≡ self.old) }
        ensures rests { OnOk result (self.new.contents ≡ record self.old.contents { blocks = blocks.with_block self.old.contents.blocks block }) }
        ensures spare { OnOk result (self.new.spare ≡ self.old.spare - 1) }
        ensures back { StillLeadsBack self.old self.new }
        ensures noted { NotesNoOrder self.old.changes self.new.changes }
        ensures no_flow { NotesNoFlow self.old.changes self.new.changes }
    {
        let Ok(()) = self.kept.blocks.rest(block) else {
            return Err(Full);
        };
        self.log.note(Change::BlockRested {
            number: block.number,
        });
        Ok(())
    }

    /// Takes the block of a number out, and answers it: `None` exactly where no block has it, and
    /// then nothing changes.
    pub fn withdraw_block(&mut self, number: u32) -> Option<RestingBlock>
        requires spare { 1 ≤ self.old.spare }
        ensures block { result ≡ blocks.block_of self.old.contents.blocks number }
        ensures without { self.new.contents ≡ record self.old.contents { blocks = blocks.without self.old.contents.blocks number } }
        ensures spare { self.new.spare ≡ self.old.spare - length (option_to_list result) }
        ensures back { StillLeadsBack self.old self.new }
        ensures noted { NotesNoOrder self.old.changes self.new.changes }
        ensures no_flow { NotesNoFlow self.old.changes self.new.changes }
    {
        let _ = self.kept.blocks.len();
        let was = self.kept.blocks.withdraw(number)?;
        self.log.note(Change::BlockLeft { was });
        Some(was)
    }

    /// Carries so many lots over a route in each quarter of a set.
    pub fn carry(&mut self, route: &Route, set: QuarterSet, lots: u32)
        requires spare { length route.now ≤ self.old.spare }
        requires borders { flow.IsOverBorders self.old.contents.flows.borders route.now }
        requires room { flow.HasLotsLeft self.old.contents.flows.borders route.now set lots }
        ensures flows { IsCarried (uses route.now) (has set) lots self.old.contents.flows self.new.contents.flows }
        ensures book { self.new.contents.book ≡ self.old.contents.book }
        ensures blocks { self.new.contents.blocks ≡ self.old.contents.blocks }
        ensures spare { self.new.spare ≡ self.old.spare - length route.now }
        ensures back { StillLeadsBack self.old self.new }
        ensures noted { NotesNoOrder self.old.changes self.new.changes }
    {
        self.carry_arcs(route.as_slice(), set, lots);
    }

    // Carries so many lots over the arcs of a route in each quarter of a set.
    fn carry_arcs(&mut self, route: &[Arc], set: QuarterSet, lots: u32)
        requires spare { length route.now ≤ self.old.spare }
        requires borders { flow.IsOverBorders self.old.contents.flows.borders route.now }
        requires room { flow.HasLotsLeft self.old.contents.flows.borders route.now set lots }
        ensures flows { IsCarried (uses route.now) (has set) lots self.old.contents.flows self.new.contents.flows }
        ensures book { self.new.contents.book ≡ self.old.contents.book }
        ensures blocks { self.new.contents.blocks ≡ self.old.contents.blocks }
        ensures spare { self.new.spare ≡ self.old.spare - length route.now }
        ensures back { StillLeadsBack self.old self.new }
        ensures noted { NotesNoOrder self.old.changes self.new.changes }
    {
        for arc in route {
            self.grant(*arc, set, lots);
        }
    }

    /// Has so many lots flow over an arc in each quarter of a set.
    pub fn grant(&mut self, arc: Arc, set: QuarterSet, lots: u32)
        requires spare { 1 ≤ self.old.spare }
        requires border { arc.border < flow.border_count self.old.contents.flows }
        requires room { EachQuarter (λ number. has set number ≡ true → pos lots ≤ℤ flow.remaining_of self.old.contents.flows arc number) }
        ensures flows { IsCarried (same_arc arc) (has set) lots self.old.contents.flows self.new.contents.flows }
        ensures book { self.new.contents.book ≡ self.old.contents.book }
        ensures blocks { self.new.contents.blocks ≡ self.old.contents.blocks }
        ensures spare { self.new.spare ≡ self.old.spare - 1 }
        ensures back { StillLeadsBack self.old self.new }
        ensures noted { NotesNoOrder self.old.changes self.new.changes }
    {
        self.log.note(Change::Carried { arc, set, lots });
        grant_in(&mut self.kept.flows, arc, set, lots);
    }

    /// Offers so many lots on an arc in each quarter of a set, in place of those that were offered
    /// there before.
    pub fn offer(&mut self, arc: Arc, set: QuarterSet, lots: u32)
        requires spare { 4 ≤ self.old.spare }
        requires border { arc.border < flow.border_count self.old.contents.flows }
        requires most { lots ≤ most_offered }
        requires covers { EachQuarter (λ number. has set number ≡ true → flow.flow_of self.old.contents.flows arc number ≤ℤ pos lots) }
        ensures flows { IsOffered arc (has set) lots self.old.contents.flows self.new.contents.flows }
        ensures book { self.new.contents.book ≡ self.old.contents.book }
        ensures blocks { self.new.contents.blocks ≡ self.old.contents.blocks }
        ensures spare { self.old.spare ≤ self.new.spare + 4 }
        ensures back { StillLeadsBack self.old self.new }
        ensures noted { NotesNoOrder self.old.changes self.new.changes }
    {
        for number in 1..5 {
            self.offer_if(set.contains(number), arc, number, lots);
        }
    }

    // Offers so many lots on an arc in a quarter, if it counts.
    fn offer_if(&mut self, counts: bool, arc: Arc, number: u32, lots: u32)
        requires spare { 1 ≤ self.old.spare }
        requires border { arc.border < flow.border_count self.old.contents.flows }
        requires first { 1 ≤ number }
        requires last { number ≤ 4 }
        requires most { lots ≤ most_offered }
        requires covers { counts ≡ true → flow.flow_of self.old.contents.flows arc number ≤ℤ pos lots }
        ensures flows { IsOffered arc (λ quarter. (quarter == number) && counts) lots self.old.contents.flows self.new.contents.flows }
        ensures book { self.new.contents.book ≡ self.old.contents.book }
        ensures blocks { self.new.contents.blocks ≡ self.old.contents.blocks }
        ensures spare { self.old.spare ≤ self.new.spare + 1 }
        ensures back { StillLeadsBack self.old self.new }
        ensures noted { NotesNoOrder self.old.changes self.new.changes }
    {
        if !counts {
            return;
        }
        let was = offered(&self.kept.flows, arc, number);
        self.log.note(Change::Offered {
            arc,
            number,
            lots: was,
        });
        offer_one(&mut self.kept.flows, arc, number, lots);
    }

    /// Halts trade over a border, or lets it go on.
    pub fn set_halted(&mut self, border: u32, halted: bool)
        requires spare { 1 ≤ self.old.spare }
        requires border { border < flow.border_count self.old.contents.flows }
        ensures flows { IsHaltSet border halted self.old.contents.flows self.new.contents.flows }
        ensures book { self.new.contents.book ≡ self.old.contents.book }
        ensures blocks { self.new.contents.blocks ≡ self.old.contents.blocks }
        ensures spare { self.new.spare ≡ self.old.spare - 1 }
        ensures back { StillLeadsBack self.old self.new }
        ensures noted { NotesNoOrder self.old.changes self.new.changes }
    {
        let was = self.kept.flows.halted(border);
        self.log.note(Change::HaltSet { border, was });
        set_halt(&mut self.kept.flows, border, halted);
    }

    /// Gives the hour a phase.
    pub fn set_phase(&mut self, phase: Phase)
        requires spare { 1 ≤ self.old.spare }
        ensures flows { self.new.contents.flows ≡ record self.old.contents.flows { phase = phase } }
        ensures book { self.new.contents.book ≡ self.old.contents.book }
        ensures blocks { self.new.contents.blocks ≡ self.old.contents.blocks }
        ensures spare { self.new.spare ≡ self.old.spare - 1 }
        ensures back { StillLeadsBack self.old self.new }
        ensures noted { NotesNoOrder self.old.changes self.new.changes }
    {
        let was = self.kept.flows.phase();
        self.log.note(Change::PhaseSet { was });
        self.kept.flows.set_phase(phase);
    }

    /// Takes all noted changes back, from the last to the first. Their places are spare again.
    pub fn undo(&mut self)
        ensures back { (target : Contents) → GoesBackTo self.old target → AreSame target self.new.contents }
        ensures settled { self.new.changes ≡ [] }
        ensures spare { self.new.spare ≡ self.old.spare + length self.old.changes }
    {
        take_all_back(&mut self.kept, &mut self.log);
    }

    /// Keeps all noted changes: they can no longer be taken back, and their places are spare again.
    pub fn settle(&mut self)
        ensures contents { self.new.contents ≡ self.old.contents }
        ensures settled { self.new.changes ≡ [] }
        ensures spare { self.new.spare ≡ self.old.spare + length self.old.changes }
    {
        self.log.clear();
    }

    /// In which zones the orders of each part and side have changed since the last settling: one walk of
    /// the noted changes. It takes no memory.
    pub fn changed_zones(&self) -> ChangedZones
        ensures { AreChangedZones self.now.changes result }
    {
        zones_of_changes(self.log.as_slice())
    }

    /// Over which borders the flows have changed since the last settling: one walk of the noted changes. It
    /// takes no memory.
    pub fn changed_borders(&self) -> ChangedBorders
        ensures { AreChangedBorders self.now.changes result }
    {
        borders_of_changes(self.log.as_slice())
    }

    /// Whether the flows have changed since the last settling: an offer, what flows, a halt or the phase.
    pub fn flows_changed(&self) -> bool
        ensures { result ≡ list_any changes_flows self.now.changes }
    {
        any_changes_flows(self.log.as_slice())
    }
}
