//! The venue.

ghost use Rattle.std.specs.Prelude.{◌≡◌, ◌+◌, ◌<◌, ◌≤◌, ◌≢◌, ◌^◌, [], None, IfErr, IfOk, OnErr, OnOk, length};
ghost use Rattle.std.specs.Vec.{vec_capacity};
ghost use Rattle.zone_graph.specs.GridFault.{grid_fault};
ghost use Rattle.zone_graph.specs.Route.{IsIn};
ghost use Rattle.journal_front.specs.Fronts.{IsDeskOf};
ghost use Rattle.journal_front.specs.declared.seats.DeskSeat.{DeskSeat};
ghost use Rattle.market_model.specs.Grid.{graph_of};
ghost use Rattle.market_model.specs.WellFormed.{IsMarketSetup};
ghost use Rattle.desk_locks.specs.Held.{IsAllInPlace};
ghost use Rattle.trade_journal.specs.Journals.{IsJournal, room_of_caller};
ghost use Rattle.trader_pass.specs.declared.pass.Pass.{Pass};
ghost use Rattle.trader_pass.specs.Passes.{IsOf};
ghost use Rattle.venue_core.specs.Planning.{ArePlaced, IsHeldFor, IsPlannedFor};
ghost use Rattle.venue_core.specs.Setups.{IsVenueSetup};
ghost use Rattle.venue_core.specs.Shared.{AreOfOneJournal};
ghost use Rattle.venue_core.specs.Submitting.{IsCause, IsSubmitted};
ghost use Rattle.venue_core.specs.Venues.{AreAllOf, EndsWith, IsOpenCause, IsOpenedFor, being_told};

use crate::faults::{OpenFault, SubmitFault};
use crate::passes::{Passes, passes_of, seats_of};
use crate::planning::plan_held;
use crate::shared::SharedJournal;
use desk_locks::{DeskRow, Desks, Held, refuse, undo_all};
use journal_front::{Front, PassSeat};
use kept_lock::KeptLock;
use market_model::{Command, Duplicate, Entry, Reply, Setup, refuse_early, touches};
use outside::Gate;
use std::alloc::Global;
use std::marker::Model;
use std::sync::Wait;
use trade_journal::Journal;
use trader_pass::Pass;
use zone_graph::{Grid, GridFault, NoMemory};

/// What a caller gets for a command.
#[derive(Debug, Drop, PartialEq, Eq)]
pub struct Receipt {
    /// The place of the command's entry in the journal, counted from 1.
    pub place: u64,
    /// The market's reply.
    pub reply: Reply,
}

/// A venue, where callers meet from threads of their own. Each hour of the delivery day has a desk under a lock of its
/// own, and the journal has one: a command holds the hours that it touches, and the journal while its entry is put
/// there.
///
/// Contracts see the front of the venue's journal: which one it is, and its setup.
pub struct Venue {
    setup: Setup,
    grid: Grid,
    front: Front,
    row: DeskRow,
    lock: KeptLock<SharedJournal, Front>,
}

impl Model for Venue {
    ghost use Rattle.journal_front.specs.Fronts.{FrontState};
    ghost use Rattle.venue_core.specs.Venues.{IsVenue};

    ghost Value = { FrontState };

    ghost view = { λ venue. venue.front };

    ghost invariant = { λ venue. IsVenue venue.front venue.setup venue.grid venue.row venue.lock.key };
}

// Written out: a crate that drops one need not know what it is made of.
impl Drop for Venue {
    fn drop(self) {
        let Venue {
            setup: _,
            grid: _,
            front: _,
            row: _,
            lock: _,
        } = self;
    }
}

impl Venue {
    /// Opens a venue for a setup, with a pass for each caller, by ascending caller, which has seen nothing yet.
    ///
    /// The delivery day has 23 to 25 hours, there are at most 64 callers, who may have at most 262144 entries together,
    /// and each border joins zones that there are.
    ///
    /// # Errors
    ///
    /// [`OpenFault::BadSetup`] exactly where the setup's zones and borders make no grid, with the first fault of them;
    /// [`OpenFault::NoMemory`] where memory runs out, in place of any answer.
    pub fn open(alloc: Global, setup: Setup) -> Result<(Venue, Passes), OpenFault>
        requires { IsVenueSetup setup }
        ensures opened { IfOk result (λ opened. IsOpenedFor setup opened.0 opened.1) }
        ensures faultless { OnOk result (grid_fault (graph_of setup) ≡ None) }
        ensures fault { IfErr result (IsOpenCause setup) }
    {
        let grid = grid_of(alloc, &setup)?;
        let (front, seat, desks, seats) = Front::open(alloc, &setup)?;
        let row = DeskRow::new(alloc, &grid, desks)?;
        let shared = SharedJournal {
            seat,
            journal: Journal::new(alloc, &setup)?,
            passes: room_for_seats(alloc, setup.callers.len())?,
        };
        let lock = KeptLock::new(alloc, &front, shared)?;
        let passes = passes_of(alloc, seats)?;
        let venue = Venue {
            setup,
            grid,
            front,
            row,
            lock,
        };
        Ok((venue, passes))
    }

    /// Submits a command with its caller's pass: it gets an entry in the journal, with the market's reply at that place,
    /// and the pass has then seen the journal up to it.
    ///
    /// It waits until the hours that the command touches are free, and then the journal; for a command of several hours
    /// once more before its reply is planned. The gate is told of the first of these hours, or of 0 where there is none:
    /// once they are held and the reply is planned, and once they are given back.
    ///
    /// # Errors
    ///
    /// [`SubmitFault::JournalFull`] exactly where the caller has as many entries as it may have, which is tested before
    /// anything is waited for; [`SubmitFault::NoMemory`] where memory runs out, in place of any answer. The pass stays
    /// as it was, and the journal gets no entry of the command.
    pub fn submit<R: Wait, G: Gate>(
        &self,
        rt: &R,
        alloc: Global,
        gate: &G,
        pass: &mut Pass,
        command: Command,
    ) -> Result<Receipt, SubmitFault>
        requires { IsOf self.now pass.old }
        ensures submitted { IfOk result (λ receipt. IsSubmitted command receipt pass.old pass.new) }
        ensures cause { IfErr result (IsCause pass.old) }
        ensures unchanged { OnErr result (pass.new ≡ pass.old) }
    {
        let caller = pass.caller();
        let made = pass.made();
        if made == self.room_of(caller) {
            return Err(SubmitFault::JournalFull { entries: made });
        }
        let hours = touches(&self.grid, &self.setup, caller, &command);
        let mut held = self.row.hold(rt, hours)?;
        match self.prepare(rt, alloc, caller, made + 1, command, &mut held) {
            Ok((entry, reply)) => {
                let first = hours.first().unwrap_or(0);
                gate.planned(first);
                let place = self.enter(rt, pass, &mut held, entry);
                held.give_back();
                gate.answered(first);
                Ok(Receipt { place, reply })
            }
            Err(NoMemory) => {
                held.give_back();
                Err(SubmitFault::NoMemory)
            }
        }
    }

    /// How many entries the journal has at this moment: at least as many as the pass has seen, and no fewer than it was
    /// ever told. It waits for nobody, and takes no memory.
    pub fn front(&self, pass: &mut Pass) -> u64
        requires { IsOf self.now pass.old }
        ensures least { length pass.old.seen ≤ result }
        ensures again { pass.old.known ≤ result }
        ensures pass { pass.new ≡ being_told pass.old result }
    {
        self.front.load(pass.seat_mut())
    }

    /// Closes the venue, for which all its passes come back, by ascending caller, and answers the journal. It waits
    /// until the journal is free, and takes no memory.
    pub fn close<R: Wait>(self, rt: &R, passes: Passes) -> Journal
        requires { AreAllOf self passes }
        ensures setup { result.setup ≡ self.setup }
        ensures legal { IsJournal result }
        ensures passes { (pass : Pass) → IsIn pass passes → EndsWith result.entries pass }
    {
        let Venue {
            setup: _,
            grid: _,
            front,
            row: _,
            lock,
        } = self;
        let SharedJournal {
            seat,
            journal,
            passes: room,
        } = lock.into_inner(rt);
        front.close(seat, seats_of(passes, room));
        // It shows that the journal is legal.
        let _ = journal.entries();
        journal
    }

    // How many entries a caller may have.
    fn room_of(&self, caller: u32) -> u32
        requires { caller < length self.now.setup.callers }
        ensures { result ≡ room_of_caller self.now.setup caller }
    {
        self.setup.callers.as_slice()[caller as usize].room
    }

    // Plans a command on the desks that are held for it, and makes its entry and a copy of its reply. On an error
    // nothing is planned.
    fn prepare<R: Wait>(
        &self,
        rt: &R,
        alloc: Global,
        caller: u32,
        nth: u32,
        command: Command,
        held: &mut Held,
    ) -> Result<(Entry, Reply), NoMemory>
        requires known { caller < length self.now.setup.callers }
        requires held { IsHeldFor self.now caller command held.old }
        ensures entry { IfOk result (λ made. made.0 ≡ record { caller = caller; nth = nth; command = command; reply = made.1 }) }
        ensures planned { IfOk result (λ made. IsPlannedFor self.now caller command made.1 held.new) }
        ensures failed { OnErr result (IsAllInPlace held.new) }
    {
        let reply = self.plan(rt, alloc, caller, &command, held)?;
        match reply.copy() {
            Ok(copy) => {
                let entry = Entry {
                    caller,
                    nth,
                    command,
                    reply,
                };
                Ok((entry, copy))
            }
            Err(NoMemory) => {
                undo_all(held);
                Err(NoMemory)
            }
        }
    }

    // Plans a command on the desks that are held for it. On an error nothing is planned.
    fn plan<R: Wait>(
        &self,
        rt: &R,
        alloc: Global,
        caller: u32,
        command: &Command,
        held: &mut Held,
    ) -> Result<Reply, NoMemory>
        requires known { caller < length self.now.setup.callers }
        requires held { IsHeldFor self.now caller command.now held.old }
        ensures planned { IfOk result (λ reply. IsPlannedFor self.now caller command.now reply held.new) }
        ensures failed { OnErr result (IsAllInPlace held.new) }
    {
        match refuse_early(&self.grid, &self.setup, caller, command) {
            Some(refusal) => Ok(refuse(held, refusal)),
            None => {
                self.compare(rt, held);
                plan_held(alloc, held, &self.grid, &self.setup, caller, command)
            }
        }
    }

    // Tells of the desks that are held that they stand after one legal journal. Of a desk alone its seat promises it;
    // the seats of several are compared with the journal, for which it waits until the journal is free.
    fn compare<R: Wait>(&self, rt: &R, held: &mut Held)
        requires { ArePlaced self.now held.old }
        ensures held { held.new ≡ held.old }
        ensures journal { AreOfOneJournal self.now held.old.seats }
    {
        if Desks::len(held) == 1 {
            return;
        }
        let (mut shared, duty) = self.lock.take(rt);
        shared.compare(&self.front, held);
        self.lock.give(shared, duty);
    }

    // Waits until the journal is free, puts an entry there, and settles the desks that plan it. Answers its place. It
    // takes no memory.
    fn enter<R: Wait>(&self, rt: &R, pass: &mut Pass, held: &mut Held, entry: Entry) -> u64
        requires pass { IsOf self.now pass.old }
        requires caller { entry.caller ≡ pass.old.caller }
        requires next { entry.nth ≡ length pass.old.mine + 1 }
        requires room { length pass.old.mine ≢ room_of_caller pass.old.setup pass.old.caller }
        requires planned { IsPlannedFor self.now entry.caller entry.command entry.reply held.old }
        ensures held { IsAllInPlace held.new }
        ensures submitted { IsSubmitted entry.command (record { place = result; reply = entry.reply }) pass.old pass.new }
    {
        let (mut shared, duty) = self.lock.take(rt);
        let place = shared.commit(&self.front, pass, held, entry);
        self.lock.give(shared, duty);
        place
    }
}

// The grid of a setup.
fn grid_of(alloc: Global, setup: &Setup) -> Result<Grid, OpenFault>
    requires { IsVenueSetup setup.now }
    ensures grid { IfOk result (λ grid. grid ≡ graph_of setup.now) }
    ensures sound { OnOk result (IsMarketSetup setup.now) }
    ensures faultless { OnOk result (grid_fault (graph_of setup.now) ≡ None) }
    ensures fault { IfErr result (IsOpenCause setup.now) }
{
    match Grid::new(alloc, &setup.zones, &setup.borders) {
        Ok(grid) => Ok(grid),
        Err(GridFault::NoMemory) => Err(OpenFault::NoMemory),
        Err(fault) => Err(OpenFault::BadSetup(fault)),
    }
}

// No seat, with room for so many.
fn room_for_seats(alloc: Global, callers: usize) -> Result<Vec<PassSeat>, NoMemory>
    ensures none { IfOk result (λ seats. seats.items ≡ []) }
    ensures room { IfOk result (λ seats. callers ≤ vec_capacity seats) }
{
    Ok(Vec::with_capacity(alloc, callers)?)
}
