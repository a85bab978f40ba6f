//! The journal.

ghost use Rattle.std.specs.Prelude.{◌≡◌, ◌≤◌, ℕ, [], IfOk, IfSome, length, sum_by};
ghost use Rattle.market_model.specs.declared.setup.Caller.{Caller as CallerValue};
ghost use Rattle.trade_journal.specs.Journals.{IsJournal, MayFollow, all_rooms, with_entry};

use market_model::{Caller, Duplicate, Entry, NoMemory, Setup};
use std::alloc::Global;
use std::marker::Model;

/// The entries of a market's callers, in the order in which it met their commands.
///
/// Each reply is the market's after the entries before it, each entry is of a caller of the setup,
/// and no caller has more entries than its room. The room for all entries is there from the start:
/// no call but [`Journal::new`] takes memory.
pub struct Journal {
    setup: Setup,
    entries: Vec<Entry>,
}

impl Model for Journal {
    ghost use Rattle.trade_journal.specs.Journals.{JournalState};
    ghost use Rattle.std.specs.Vec.{vec_capacity};
    ghost use Rattle.trade_journal.specs.Inside.{IsInside};

    ghost Value = { JournalState };

    ghost view = { λ a. record { setup = a.setup; entries = a.entries.items } };

    ghost invariant = { λ a. IsInside a.setup a.entries.items (vec_capacity a.entries) };
}

// Written out: a crate that drops one need not know what it is made of.
impl Drop for Journal {
    fn drop(self) {
        let Journal {
            setup: _,
            entries: _,
        } = self;
    }
}

impl Journal {
    /// The journal without an entry, with room for as many as the callers may have together.
    ///
    /// # Errors
    ///
    /// [`NoMemory`] where memory runs out.
    pub fn new(alloc: Global, setup: &Setup) -> Result<Journal, NoMemory>
        ensures { IfOk result (λ journal. journal ≡ record { setup = setup.now; entries = [] }) }
    {
        let Some(most) = room_of_all(setup.callers.as_slice()) else {
            return Err(NoMemory);
        };
        let mut entries = Vec::new(alloc);
        entries.reserve(most)?;
        let setup = setup.copy()?;
        Ok(Journal { setup, entries })
    }

    /// Puts an entry behind the others.
    ///
    /// Its caller has room for one more, it has that caller's next number, and its reply is the
    /// market's after the entries that are there.
    pub fn push(&mut self, entry: Entry)
        requires { MayFollow self.old entry }
        ensures { self.new ≡ with_entry self.old entry }
    {
        self.entries.push_reserved(entry);
    }

    /// The setup whose callers' entries these are.
    pub fn setup(&self) -> &Setup
        ensures { result.now ≡ self.now.setup }
    {
        &self.setup
    }

    /// Lends the entries.
    pub fn entries(&self) -> &[Entry]
        ensures entries { result.now ≡ self.now.entries }
        ensures journal { IsJournal self.now }
        ensures most { length result.now ≤ all_rooms self.now.setup }
    {
        self.entries.as_slice()
    }
}

// How many entries all callers may have together, if there is a number for it.
fn room_of_all(callers: &[Caller]) -> Option<usize>
    ensures { IfSome result (λ most. most ≡ sum_by (λ (own : CallerValue). own.room) callers.now) }
{
    let mut most = 0_usize;
    for caller in callers {
        most = most.checked_add(caller.room as usize)?;
    }
    Some(most)
}
