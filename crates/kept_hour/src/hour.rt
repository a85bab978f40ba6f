//! The hour.

ghost use Rattle.std.specs.Prelude.{◌≡◌, ◌+◌, ◌-◌, ◌^◌, ◌<◌, ◌≤◌, ℕ, [], None, Some, length, take, false, IsSome, IfOk, OnOk, OnErr};
ghost use Rattle.order_kinds.specs.Contract.{contract_at};
ghost use Rattle.order_kinds.specs.Period.{contract_quarters};
ghost use Rattle.quarter_capacity.specs.Capacity.{most_remaining};
ghost use Rattle.zone_graph.specs.Graph.{HasArc};
ghost use Rattle.laws_of_books.specs.BookOf.{book_of};
ghost use Rattle.laws_of_books.specs.BlocksOf.{blocks_of};
ghost use Rattle.laws_of_hours.specs.Standing.{Stands};
ghost use Rattle.market_model.specs.Board.{IsBoard, resting_names};
ghost use Rattle.market_model.specs.Orders.{is_open, next_name, open_names};
ghost use Rattle.market_model.specs.Refusals.{desk_room};
ghost use Rattle.market_model.specs.Room.{room};
ghost use Rattle.laws_of_hours.specs.OrderEvents.{without_hand};
ghost use Rattle.hour_store.specs.Contents.{IsOfPart};
ghost use Rattle.kept_hour.specs.Kept.{names_given};
ghost use Rattle.kept_hour.specs.State as states;

use crate::cutting::cut;
use crate::parts::quarters_of;
use block_book::BlockBook;
use contract_book::{ContractBook, Resting};
use flow_netting::HourFlows;
use hour_store::HourStore;
use market_model::{Event, Events, Order, OrderName};
use std::alloc::Global;
use std::marker::Model;
use std::snapshot::Snapshot;
use zone_graph::{Arc, Grid, NoMemory};

/// An hour as a desk keeps it: contracts see a board, and the first of its events, those that are settled.
///
/// An order that enters is in hand until it is told to rest, and only one is in hand at a time.
pub struct KeptHour {
    pub(crate) grid: Snapshot<Grid>,
    pub(crate) hour: u32,
    pub(crate) events: Events,
    pub(crate) settled: usize,
    pub(crate) numbers: u32,
    pub(crate) settled_numbers: u32,
    pub(crate) hand: Option<u32>,
    pub(crate) store: HourStore,
}

impl Model for KeptHour {
    ghost use Rattle.kept_hour.specs.State.{HourState};

    ghost Value = { HourState };

    ghost use Rattle.kept_hour.specs.Kept.{IsKept, hour_of};

    ghost view = { λ a. hour_of a.grid.value a.hour a.events a.settled a.hand };

    ghost invariant = { λ a. IsKept (hour_of a.grid.value a.hour a.events a.settled a.hand) a.settled a.numbers a.settled_numbers a.store };
}

// Written out: a crate that drops one need not know what it is made of.
impl Drop for KeptHour {
    fn drop(self) {
        let KeptHour {
            grid: _,
            hour: _,
            events: _,
            settled: _,
            numbers: _,
            settled_numbers: _,
            hand: _,
            store: _,
        } = self;
    }
}

impl KeptHour {
    /// An hour over a grid, without events.
    ///
    /// # Errors
    ///
    /// [`NoMemory`] where memory runs out.
    pub fn new(alloc: Global, hour: u32, grid: &Grid) -> Result<KeptHour, NoMemory>
        ensures { IfOk result (λ made. made ≡ record { board = states.empty_board grid.now hour; settled = [] }) }
    {
        let _zones = grid.zones();
        let store = HourStore::new(alloc, grid)?;
        Ok(KeptHour {
            grid: Snapshot::of(grid),
            hour,
            events: Events::new(alloc),
            settled: 0,
            numbers: 0,
            settled_numbers: 0,
            hand: None,
            store,
        })
    }

    /// Its number, counted from 1 through the delivery day.
    pub fn hour(&self) -> u32
        ensures number { result ≡ self.now.board.hour }
        ensures parts { self.now.board.parts ≡ 7 }
    {
        self.hour
    }

    /// Its events, in order: the settled ones and the planned ones.
    pub fn events(&self) -> &[Event]
        ensures events { result.now ≡ self.now.board.events }
        ensures board { IsBoard self.now.board }
        ensures parts { self.now.board.parts ≡ 7 }
    {
        self.events.as_slice()
    }

    /// How many of its events are settled: those are its first.
    pub fn settled_len(&self) -> usize
        ensures count { result ≡ length self.now.settled }
        ensures first { self.now.settled ≡ take result self.now.board.events }
    {
        self.settled
    }

    /// The number of the order in hand, if there is one.
    pub fn hand(&self) -> Option<u32>
        ensures { result ≡ self.now.board.hand }
    {
        self.hand
    }

    /// The book of its orders: those that rest. The order in hand does not.
    pub fn book(&self) -> &ContractBook
        ensures { result.now ≡ without_hand self.now.board.hand (book_of self.now.board.events self.now.board.hour) }
    {
        self.store.book()
    }

    /// The book of the blocks that start in it.
    pub fn blocks(&self) -> &BlockBook
        ensures { result.now ≡ blocks_of self.now.board.events self.now.board.hour }
    {
        self.store.blocks()
    }

    /// Its flows.
    pub fn flows(&self) -> &HourFlows
        ensures { Stands self.now.board.grid self.now.board.events self.now.board.hour result.now }
    {
        self.store.flows()
    }

    /// The room of an arc over the quarters of a part of the hour, as its events leave it. It takes no memory.
    pub fn room_of(&self, part: u32, arc: Arc) -> u32
        requires part { part < 7 }
        requires arc { HasArc self.now.board.grid arc }
        ensures room { result ≡ room self.now.board.events (contract_quarters (contract_at self.now.board.hour part)) arc }
        ensures most { result ≤ most_remaining }
    {
        self.store.flows().room(quarters_of(part), arc)
    }

    /// How many orders and blocks of the hour are open and rest: the order in hand is not counted. It takes
    /// no memory.
    pub fn open(&self) -> u32
        ensures { result ≡ length (resting_names self.now.board) }
    {
        let orders = self.store.book().len();
        let blocks = self.store.blocks().len();
        orders + blocks
    }

    /// The number of the next order or block that enters by the hour.
    pub fn next_number(&self) -> u32
        requires few { names_given self.now.board < 2 ^ 32 - 1 }
        ensures { result ≡ (next_name self.now.board.events self.now.board.hour).number }
    {
        self.numbers + 1
    }

    /// Lets a caller's order enter under the next number of the hour, which is answered: it is in hand then.
    ///
    /// # Errors
    ///
    /// [`NoMemory`] where memory runs out, and then nothing changes.
    pub fn enter(&mut self, caller: u32, order: &Order) -> Result<u32, NoMemory>
        requires free { self.old.board.hand ≡ None }
        requires few { names_given self.old.board < 2 ^ 32 - 1 }
        requires next { states.CanBeNext self.old (states.entry_of self.old caller order.now) }
        ensures number { IfOk result (λ number. number ≡ (next_name self.old.board.events self.old.board.hour).number) }
        ensures entered { IfOk result (λ number. self.new ≡ states.after_event self.old (states.entry_of self.old caller order.now) (Some number)) }
        ensures unchanged { OnErr result (self.new ≡ self.old) }
    {
        let number = self.numbers + 1;
        let name = OrderName {
            hour: self.hour,
            number,
        };
        self.events.push(Event::Entered {
            name,
            caller,
            order: *order,
        })?;
        self.numbers = number;
        self.hand = Some(number);
        Ok(number)
    }

    /// Lets the order in hand come to rest in its part, as the events say that it stands.
    ///
    /// # Errors
    ///
    /// [`NoMemory`] where memory runs out, and then nothing changes.
    pub fn rest_hand(&mut self, part: u32, order: Resting) -> Result<(), NoMemory>
        requires held { self.old.board.hand ≡ Some order.number }
        requires part { part < 7 }
        requires stands { IsOfPart (book_of self.old.board.events self.old.board.hour) part order }
        requires room { length (open_names self.old.board.events self.old.board.hour) ≤ desk_room }
        ensures rests { OnOk result (self.new ≡ states.without_hand self.old) }
        ensures unchanged { OnErr result (self.new ≡ self.old) }
    {
        self.store.reserve(1)?;
        let Ok(()) = self.store.rest(part, order) else {
            unreachable!();
        };
        self.hand = None;
        Ok(())
    }

    /// Lets go of the order in hand, if there is one: nothing is left of it. It takes no memory.
    pub fn drop_hand(&mut self)
        requires closed { (number : ℕ) → self.old.board.hand ≡ Some number → is_open self.old.board.events (states.name_in self.old number) ≡ false }
        ensures { self.new ≡ states.without_hand self.old }
    {
        self.hand = None;
    }

    /// Withdraws so many lots, all that is left, of the order in hand. None is in hand then.
    ///
    /// # Errors
    ///
    /// [`NoMemory`] where memory runs out, and then nothing changes.
    pub fn withdraw_hand(&mut self, lots: u32) -> Result<(), NoMemory>
        requires held { IsSome self.old.board.hand }
        requires next { (number : ℕ) → self.old.board.hand ≡ Some number → states.CanBeNext self.old (states.withdrawal_of self.old number lots) }
        ensures withdrawn { OnOk result ((number : ℕ) → self.old.board.hand ≡ Some number
            → self.new ≡ states.after_event self.old (states.withdrawal_of self.old number lots) None) }
        ensures unchanged { OnErr result (self.new ≡ self.old) }
    {
        let Some(number) = self.hand else {
            unreachable!();
        };
        let hour = self.hour;
        let name = OrderName { hour, number };
        self.events.push(Event::Withdrawn { name, lots })?;
        self.hand = None;
        Ok(())
    }

    /// Drops the planned events, and the order in hand: the hour is as it is settled. It takes no memory.
    pub fn undo(&mut self)
        ensures { self.new ≡ states.undone self.old }
    {
        cut(&mut self.events, self.settled);
        self.numbers = self.settled_numbers;
        self.hand = None;
        self.store.undo();
    }

    /// Settles the planned events, where no order is in hand. It takes no memory.
    pub fn settle(&mut self)
        requires free { self.old.board.hand ≡ None }
        ensures { self.new ≡ states.settled_now self.old }
    {
        self.settled = self.events.len();
        self.settled_numbers = self.numbers;
        self.store.settle();
    }
}
