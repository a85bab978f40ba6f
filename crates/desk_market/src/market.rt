//! The market.

ghost use Rattle.std.specs.Prelude.{◌≡◌, ◌-◌, ◌<◌, ◌≤◌, ◌^◌, [], IfOk, OnErr, OnOk, Some, length, nat_lt, slice_get};
ghost use Rattle.basket_match.specs.Desk.{DeskState};
ghost use Rattle.market_model.specs.Grid.{graph_of};
ghost use Rattle.market_model.specs.History.{journal_events};
ghost use Rattle.market_model.specs.Market.{entry_of, reply_to};
ghost use Rattle.market_model.specs.Sweep.{all_parts};
ghost use Rattle.trade_journal.specs.Journals.{IsJournal, made_by, room_of_caller, with_entry};
ghost use Rattle.desk_market.specs.Standing as standing;

use crate::day::DayDesks;
use crate::planning::plan;
use basket_match::{HourDesk, carry_all, undo_all};
use market_model::{Command, Entry, Reply, Setup};
use std::alloc::Global;
use std::marker::Model;
use trade_journal::{Counts, Journal};
use zone_graph::{Grid, NoMemory};

/// A market that is held by one thread: contracts see its setup, and the entries so far, a legal journal.
///
/// It keeps a desk for each hour of the delivery day, so that a command costs what its own hours need.
pub struct DeskMarket {
    grid: Grid,
    desks: DayDesks,
    journal: Journal,
    given: Counts,
}

impl Model for DeskMarket {
    ghost use Rattle.trade_journal.specs.Journals.{JournalState};
    ghost use Rattle.desk_market.specs.Standing.{IsMarket};

    ghost Value = { JournalState };

    ghost view = { λ market. market.journal };

    ghost invariant = { λ market. IsMarket market.grid market.journal.setup market.journal.entries market.desks.desks market.given };
}

// Written out: a crate that drops one need not know what it is made of.
impl Drop for DeskMarket {
    fn drop(self) {
        let DeskMarket {
            grid: _,
            desks: _,
            journal: _,
            given: _,
        } = self;
    }
}

impl DeskMarket {
    /// The market of a setup over its grid, without an entry. Its callers may give 2^29 - 1 commands together.
    ///
    /// # Errors
    ///
    /// [`NoMemory`] where memory runs out.
    pub fn new(alloc: Global, grid: Grid, setup: &Setup) -> Result<DeskMarket, NoMemory>
        requires grid { grid ≡ graph_of setup.now }
        requires of_day { standing.IsOfDay setup.now }
        ensures { IfOk result (λ market. market ≡ record { setup = setup.now; entries = [] }) }
    {
        let desks = DayDesks::new(alloc, setup.hours, &grid)?;
        let journal = Journal::new(alloc, setup)?;
        let given = Counts::new(alloc, setup.callers.len())?;
        Ok(DeskMarket {
            grid,
            desks,
            journal,
            given,
        })
    }

    /// What is fixed for the market.
    pub fn setup(&self) -> &Setup
        ensures { result.now ≡ self.now.setup }
    {
        self.journal.setup()
    }

    /// Lends the entries so far.
    pub fn entries(&self) -> &[Entry]
        ensures entries { result.now ≡ self.now.entries }
        ensures journal { IsJournal self.now }
    {
        self.journal.entries()
    }

    /// The desk of an hour, which stands after the entries so far.
    pub fn desk(&self, hour: u32) -> &HourDesk
        requires first { 1 ≤ hour }
        requires last { hour ≤ self.now.setup.hours }
        ensures { result.now ≡ standing.settled_desk (graph_of self.now.setup) self.now.entries hour }
    {
        self.desks.of_hour(hour)
    }

    /// Whether a caller has given fewer commands than its room.
    pub fn has_room(&self, caller: u32) -> bool
        requires { caller < length self.now.setup.callers }
        ensures { result ≡ nat_lt (made_by self.now.entries caller) (room_of_caller self.now.setup caller) }
    {
        let callers = self.journal.setup().callers.as_slice();
        self.given.of(caller as usize) < callers[caller as usize].room
    }

    /// The journal of all that was done.
    pub fn into_journal(self) -> Journal
        ensures { result ≡ self }
    {
        let DeskMarket {
            grid: _,
            desks: _,
            journal,
            given: _,
        } = self;
        journal
    }

    /// What the market replies to a caller's command, which is not given yet: nothing changes.
    ///
    /// # Errors
    ///
    /// [`NoMemory`] where memory runs out.
    pub fn try_out(
        &mut self,
        alloc: Global,
        caller: u32,
        command: &Command,
    ) -> Result<Reply, NoMemory>
        requires known { caller < length self.old.setup.callers }
        ensures reply { IfOk result (λ reply. reply ≡ reply_to self.old.setup (journal_events self.old.entries) caller command.now) }
        ensures unchanged { self.new ≡ self.old }
    {
        let reply = plan(
            alloc,
            &mut self.desks,
            &self.grid,
            &self.journal,
            caller,
            command,
        )?;
        undo_all(&mut self.desks);
        Ok(reply)
    }

    /// Gives a caller's command to the market: its entry, with the market's reply, goes behind the others.
    ///
    /// The caller has given fewer commands than its room.
    ///
    /// # Errors
    ///
    /// [`NoMemory`] where memory runs out, and then nothing changes.
    pub fn give(&mut self, alloc: Global, caller: u32, command: Command) -> Result<(), NoMemory>
        requires known { caller < length self.old.setup.callers }
        requires room { made_by self.old.entries caller < room_of_caller self.old.setup caller }
        ensures given { OnOk result (self.new ≡ with_entry self.old (entry_of all_parts self.old.setup self.old.entries (record { caller = caller; command = command }))) }
        ensures unchanged { OnErr result (self.new ≡ self.old) }
    {
        // It shows that the journal is legal, and no longer than its callers' rooms.
        let _ = self.journal.entries();
        let reply = plan(
            alloc,
            &mut self.desks,
            &self.grid,
            &self.journal,
            caller,
            &command,
        )?;
        carry_all(&mut self.desks);
        let before = self.given.count(caller as usize);
        self.journal.push(Entry {
            caller,
            nth: before + 1,
            command,
            reply,
        });
        Ok(())
    }
}
