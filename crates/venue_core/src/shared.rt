//! What the callers share under one lock: the journal and its seat.

ghost use Rattle.std.specs.Prelude.{◌≡◌, ◌≢◌, ◌+◌, ◌≤◌, [], length};
ghost use Rattle.std.specs.Vec.{vec_capacity};
ghost use Rattle.zone_graph.specs.Route.{IsIn};
ghost use Rattle.journal_front.specs.Fronts.{IsDeskOf};
ghost use Rattle.journal_front.specs.declared.seats.DeskSeat.{DeskSeat};
ghost use Rattle.desk_locks.specs.Held.{IsAllInPlace};
ghost use Rattle.trade_journal.specs.Journals.{room_of_caller};
ghost use Rattle.trader_pass.specs.Passes.{IsOf};
ghost use Rattle.venue_core.specs.Planning.{IsPlannedFor};
ghost use Rattle.venue_core.specs.Setups.{IsOpenSetup};
ghost use Rattle.venue_core.specs.Shared.{AreOfOneJournal, IsShared};
ghost use Rattle.venue_core.specs.Submitting.{IsSubmitted};

use desk_locks::{Held, carry_all};
use journal_front::{Front, JournalSeat, PassSeat};
use kept_lock::Kept;
use market_model::Entry;
use trade_journal::Journal;
use trader_pass::Pass;

/// The journal, and the seat whose list it is.
#[derive(Drop)]
pub(crate) struct SharedJournal {
    pub(crate) seat: JournalSeat,
    pub(crate) journal: Journal,
    // Room for the seats of all passes, which come back at the end.
    pub(crate) passes: Vec<PassSeat>,
}

// The key is the front.
impl Kept<Front> for SharedJournal {
    ghost keeps = { λ front shared. IsShared front shared.seat shared.journal × (shared.passes.items ≡ []) × (length front.setup.callers ≤ vec_capacity shared.passes) };
}

impl SharedJournal {
    // Tells of the seats of desks that there is one legal journal for which they are current: this one as it is.
    pub(crate) fn compare(&mut self, front: &Front, held: &mut Held)
        requires shared { IsShared front.now self.old.seat self.old.journal }
        requires seats { (seat : DeskSeat) → IsIn seat held.old.seats → IsDeskOf front.now seat }
        ensures shared { self.new ≡ self.old }
        ensures held { held.new ≡ held.old }
        ensures journal { AreOfOneJournal front.now held.old.seats }
    {
        // It shows that the journal is legal.
        let _ = self.journal.entries();
        front.compare(&mut self.seat, held);
    }

    // Puts the entry of a pass's caller behind the others, with the desks of the hours that it touches, on which its
    // reply is planned: they are settled. Answers the entry's place.
    pub(crate) fn commit(
        &mut self,
        front: &Front,
        pass: &mut Pass,
        held: &mut Held,
        entry: Entry,
    ) -> u64
        requires setup { IsOpenSetup front.now.setup }
        requires shared { IsShared front.now self.old.seat self.old.journal }
        requires pass { IsOf front.now pass.old }
        requires caller { entry.caller ≡ pass.old.caller }
        requires next { entry.nth ≡ length pass.old.mine + 1 }
        requires room { length pass.old.mine ≢ room_of_caller pass.old.setup pass.old.caller }
        requires planned { IsPlannedFor front.now entry.caller entry.command entry.reply held.old }
        ensures shared { IsShared front.now self.new.seat self.new.journal }
        ensures passes { self.new.passes ≡ self.old.passes }
        ensures held { IsAllInPlace held.new }
        ensures submitted { IsSubmitted entry.command (record { place = result; reply = entry.reply }) pass.old pass.new }
    {
        // It shows that the journal is legal, and no longer than its callers' rooms.
        let _ = self.journal.entries();
        front.commit(&mut self.seat, pass.seat_mut(), held, &entry);
        self.journal.push(entry);
        carry_all(held);
        self.journal.entries().len() as u64
    }
}
