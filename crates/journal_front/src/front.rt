//! The front of the journal.

ghost use Rattle.std.specs.Prelude.{◌≡◌, ◌<◌, ◌≤◌, ◌^◌, ◌++◌, [], ◌∷◌, IfOk, length, map};
ghost use Rattle.zone_graph.specs.Route.{IsIn};
ghost use Rattle.market_model.specs.declared.who.Who.TheVariants as who;
ghost use Rattle.market_model.specs.Concerned.{IsCurrent};
ghost use Rattle.journal_front.specs.declared.seats.DeskSeat.{DeskSeat};
ghost use Rattle.journal_front.specs.declared.seats.PassSeat.{PassSeat};
ghost use Rattle.journal_front.specs.Fronts.{IsDeskOf, IsJournalOf, IsOpened, IsPassOf, touched_in_order, with_entries};
ghost use Rattle.journal_front.specs.Seats.{hours_of};

use crate::desks::{compare_desks, deal_desks, gather_desks};
use crate::hours::HourSeats;
use crate::opening::{first_desks, first_passes};
use crate::places::{add, deal, gather, learn, look};
use crate::rule::JournalRule;
use crate::seats::{DeskSeats, JournalSeat, PassSeat, PassSeats, Place};
use crate::view::View;
use atomic_table::{Badge, Table};
use market_model::{Entry, NoMemory, Setup};
use std::alloc::Global;
use std::marker::{Brand, Model};
use std::mem;

/// The front of the journal: a word that counts the journal's entries. Contracts see which front it is,
/// and its setup.
pub struct Front {
    table: Table<u8, View, Setup, JournalRule, Global>,
}

impl Model for Front {
    ghost use Rattle.std.specs.Prelude.{◌≡◌};
    ghost use Rattle.journal_front.specs.Fronts.{FrontState};

    ghost Value = { FrontState };

    ghost view = { λ front. record { id = front.table.shared.table_id; setup = front.table.shared.key } };

    ghost invariant = { λ front. front.table.shared.table_id.words ≡ 1 };
}

// Written out: a crate that drops one need not know what it is made of.
impl Drop for Front {
    fn drop(self) {
        let Front { table: _ } = self;
    }
}

impl Front {
    /// A front of an empty journal, with the journal's seat, the seat of a desk for each hour and that
    /// of a pass for each caller, ascending, all with the empty list.
    ///
    /// # Errors
    ///
    /// [`NoMemory`] where memory runs out.
    pub fn open(
        alloc: Global,
        setup: &Setup,
    ) -> Result<(Front, JournalSeat, DeskSeats, PassSeats), NoMemory>
        ensures { IfOk result (λ opened. IsOpened setup.now opened.0 opened.1 opened.2 opened.3) }
    {
        let (table, mut place) = Table::of_words(alloc, &[0], setup)?;
        let desks = first_desks(alloc, &table.shared, &mut place, setup.hours)?;
        let passes = first_passes(alloc, &table.shared, &mut place, setup.callers.len())?;
        Ok((Front { table }, JournalSeat { place }, desks, passes))
    }

    /// Puts an entry at the end of the journal, whose seat it is given, with the seat of the entry's
    /// caller and those of the hours that the entry touches, ascending.
    ///
    /// Each of these lists was a beginning of the journal, after which the journal had no entry of that
    /// caller or hour. Afterwards each is the journal with the entry.
    pub fn commit<H: HourSeats>(
        &self,
        journal: &mut JournalSeat,
        pass: &mut PassSeat,
        hours: &mut H,
        entry: &Entry,
    )
        requires journal { IsJournalOf self.now journal.old }
        requires pass { IsPassOf self.now pass.old }
        requires caller { pass.old.caller ≡ entry.now.caller }
        requires seats { (seat : DeskSeat) → IsIn seat (H.seats hours.old) → IsDeskOf self.now seat }
        requires hours { hours_of (H.seats hours.old) ≡ touched_in_order self.now.setup entry.now }
        requires room { length journal.old.entries < 2 ^ 31 }

        // What was so before.
        ensures pass_was_current { IsCurrent self.now.setup (who.Caller pass.old.caller) pass.old.entries journal.old.entries }
        ensures desks_were_current { (seat : DeskSeat) → IsIn seat (H.seats hours.old) → IsCurrent self.now.setup (who.Hour seat.hour) seat.entries journal.old.entries }

        // What is so afterwards.
        ensures journal { journal.new ≡ record journal.old { entries = journal.old.entries ++ entry.now ∷ [] } }
        ensures pass { pass.new ≡ record pass.old { entries = journal.old.entries ++ entry.now ∷ [] } }
        ensures desks { H.seats hours.new ≡ map (with_entries (journal.old.entries ++ entry.now ∷ [])) (H.seats hours.old) }
        ensures rest { H.rest hours.new ≡ H.rest hours.old }
    {
        let word = &self.table.shared;
        let badge = mem::replace(&mut pass.badge, Badge::blank());
        gather(word, &mut journal.place, badge);
        gather_desks(word, &mut journal.place, hours);
        learn(word, &mut journal.place);
        add::<Brand>(word, &mut journal.place, entry);
        pass.badge = deal(word, &mut journal.place);
        pass.made += 1;
        deal_desks(word, &mut journal.place, hours);
    }

    /// Tells how the seats of some hours stand to the journal, whose seat it is given: each list is a beginning of the
    /// journal, after which the journal has no entry that touches the hour. All of them stay as they were.
    pub fn compare<H: HourSeats>(&self, journal: &mut JournalSeat, hours: &mut H)
        requires journal { IsJournalOf self.now journal.old }
        requires seats { (seat : DeskSeat) → IsIn seat (H.seats hours.old) → IsDeskOf self.now seat }
        ensures current { (seat : DeskSeat) → IsIn seat (H.seats hours.old) → IsCurrent self.now.setup (who.Hour seat.hour) seat.entries journal.old.entries }
        ensures journal { journal.new ≡ journal.old }
        ensures desks { H.seats hours.new ≡ H.seats hours.old }
        ensures rest { H.rest hours.new ≡ H.rest hours.old }
    {
        compare_desks(&self.table.shared, &mut journal.place, hours);
    }

    /// How many entries the journal has at this moment: at least as many as the pass's list, and no fewer
    /// than this pass was ever told. It waits for nobody.
    pub fn load(&self, pass: &mut PassSeat) -> u64
        requires { IsPassOf self.now pass.old }
        ensures least { length pass.old.entries ≤ result }
        ensures again { pass.old.known ≤ result }
        ensures pass { pass.new ≡ record pass.old { known = result } }
    {
        let mut place: Place = mem::replace(&mut pass.badge, Badge::blank()).into_seat();
        let found = look(&self.table.shared, &mut place);
        pass.badge = place.into_badge();
        found
    }

    /// Ends the front, and answers how many entries the journal has.
    ///
    /// The list of each pass was a beginning of the journal, after which the journal has no entry of its
    /// caller, and no pass was told a greater number. The seats of the desks are not needed any more.
    pub fn close(self, journal: JournalSeat, passes: PassSeats) -> u64
        requires journal { IsJournalOf self journal }
        requires passes { (pass : PassSeat) → IsIn pass passes → IsPassOf self pass }
        ensures length { result ≡ length journal.entries }
        ensures current { (pass : PassSeat) → IsIn pass passes → IsCurrent self.setup (who.Caller pass.caller) pass.entries journal.entries }
        ensures known { (pass : PassSeat) → IsIn pass passes → pass.known ≤ result }
    {
        let JournalSeat { mut place } = journal;
        let word = &self.table.shared;
        for pass in passes.into_vec() {
            let PassSeat {
                caller: _,
                made: _,
                badge,
            } = pass;
            gather(word, &mut place, badge);
        }
        learn(word, &mut place)
    }
}
