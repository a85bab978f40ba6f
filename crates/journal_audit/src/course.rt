//! What an audit keeps of the lines that were right: their entries, the events of these, the sums of the orders of
//! each hour, and how many commands each caller has given.

ghost use Rattle.std.specs.Prelude.{◌≡◌, ◌+◌, ◌*◌, ◌-◌, ◌^◌, ◌<◌, ◌≤◌, ◌++◌, ◌∷◌, [], ℕ, ◌≢◌, IfOk, OnOk, Ok, length, replicate, slice_get, slice_index, slice_set, true, false};
ghost use Rattle.std.specs.Option.{option_copied};
ghost use Rattle.market_model.specs.Grid.{graph_of};
ghost use Rattle.market_model.specs.History.{entered_count, events_of};
ghost use Rattle.market_model.specs.Market.{reply_to};
ghost use Rattle.market_model.specs.WellFormed.{IsHistory, IsMarketSetup};
ghost use Rattle.market_model.specs.declared.entry.Entry.{Entry as EntryValue};
ghost use Rattle.market_text.specs.Commands.{commands_of};
ghost use Rattle.market_text.specs.Session.{IsSession};
ghost use Rattle.plain_orders.specs.DaySums.{AreDaySums, nothing_summed};
ghost use Rattle.journal_audit.specs.Course.{IsCourse, IsNextLine};

use crate::lines::caller_named;
use event_history::History;
use journal_print::print_entry;
use market_model::{Command, Commands, Duplicate, Entries, Entry, Setup};
use market_text::Session;
use plain_market::reply_and_append;
use plain_orders::DaySums;
use std::alloc::Global;
use trade_journal::Counts;
use zone_graph::{Grid, NoMemory};

/// The entries of the lines so far, their events, how many commands each caller has given, and what is kept of the
/// sums of the orders of each hour.
#[derive(Drop)]
pub(crate) struct Course {
    given: Counts,
    history: History,
    entries: Entries,
    sums: DaySums,
}

impl Course {
    /// Before the first line, for so many callers.
    pub(crate) fn new(alloc: Global, callers: usize) -> Result<Course, NoMemory>
        ensures { IfOk result (λ course. course ≡ record { given = replicate callers 0; history = []; entries = []; sums = nothing_summed }) }
    {
        Ok(Course {
            given: Counts::new(alloc, callers)?,
            history: History::new(alloc)?,
            entries: Entries::new(alloc),
            sums: DaySums::new(alloc)?,
        })
    }

    /// The place of the next line, counted from 1.
    pub(crate) fn next_place(&self) -> u64
        requires { length self.now.entries < 2 ^ 32 }
        ensures { result ≡ length self.now.entries + 1 }
    {
        self.entries.len() as u64 + 1
    }

    /// The entries.
    pub(crate) fn into_entries(self) -> Entries
        ensures { result ≡ self.entries }
    {
        self.entries
    }

    /// Takes the next line, and answers whether it is that of the next command of the caller that it names.
    pub(crate) fn take_line(
        &mut self,
        alloc: Global,
        grid: &Grid,
        session: &Session,
        line: &[u8],
    ) -> Result<bool, NoMemory>
        requires session { IsSession session.now }
        requires grid { grid.now ≡ graph_of session.now.setup }
        requires setup { IsMarketSetup session.now.setup }
        requires course { IsCourse session.now self.old }
        ensures taken { result ≡ Ok true → (entry : EntryValue) × IsNextLine session.now self.old.entries line.now entry × (self.new.entries ≡ self.old.entries ++ entry ∷ []) }
        ensures course { result ≡ Ok true → IsCourse session.now self.new }
        ensures wrong { result ≡ Ok false → (entry : EntryValue) → ¬ IsNextLine session.now self.old.entries line.now entry }
        ensures kept { result ≡ Ok false → self.new.entries ≡ self.old.entries }
    {
        let Some(caller) = caller_named(&session.setup, line) else {
            return Ok(false);
        };
        let place = self.given.of(caller);
        let Some(command) = command_at(session.commands.as_slice(), caller, place) else {
            return Ok(false);
        };
        let entry = self.play(alloc, grid, &session.setup, caller as u32, command)?;
        let text = print_entry(alloc, &session.setup, self.next_place(), &entry)?;
        if text.bytes() != line {
            return Ok(false);
        }
        self.entries.push(entry)?;
        Ok(true)
    }

    // Gives the market a caller's command, and makes the entry.
    fn play(
        &mut self,
        alloc: Global,
        grid: &Grid,
        setup: &Setup,
        caller: u32,
        command: &Command,
    ) -> Result<Entry, NoMemory>
        requires known { caller < length setup.now.callers }
        requires counted { caller < length self.old.given }
        requires room { slice_index self.old.given caller < 2 ^ 32 - 1 }
        requires grid { grid.now ≡ graph_of setup.now }
        requires history { IsHistory setup.now self.old.history }
        requires few { entered_count self.old.history < 2 ^ 32 - 1 }
        requires summed { AreDaySums self.old.history self.old.sums }
        ensures entry { IfOk result (λ entry. entry ≡ record { caller = caller; nth = slice_index self.old.given caller + 1; command = command.now; reply = reply_to setup.now self.old.history caller command.now }) }
        ensures given { OnOk result (self.new.given ≡ slice_set self.old.given caller (slice_index self.old.given caller + 1)) }
        ensures history { OnOk result (self.new.history ≡ self.old.history ++ events_of (reply_to setup.now self.old.history caller command.now)) }
        ensures entries { self.new.entries ≡ self.old.entries }
        ensures summed { AreDaySums self.new.history self.new.sums }
    {
        let events = &mut self.history;
        let sums = &mut self.sums;
        let reply = reply_and_append(alloc, grid, setup, events, sums, caller, command)?;
        let nth = self.given.count(caller as usize) + 1;
        let command = command.copy()?;
        Ok(Entry {
            caller,
            nth,
            command,
            reply,
        })
    }

    /// Whether each caller has given all its commands.
    pub(crate) fn is_done(&self, commands: &[Commands]) -> bool
        requires { length self.now.given ≡ length commands.now }
        ensures done { result ≡ true → (caller : ℕ) → caller < length commands.now → slice_index self.now.given caller ≡ length (commands_of commands.now caller) }
        ensures left { result ≡ false → (caller : ℕ) × (slice_index self.now.given caller ≢ length (commands_of commands.now caller)) }
    {
        for (caller, own) in commands.iter().enumerate() {
            if self.given.of(caller) as usize != own.len() {
                return false;
            }
        }
        true
    }
}

// A caller's command at a place, counted from 0.
fn command_at(commands: &[Commands], caller: usize, place: u32) -> Option<&Command>
    requires { caller < length commands.now }
    ensures { option_copied result ≡ slice_get (commands_of commands.now caller) place }
{
    commands[caller].get(place as usize)
}
