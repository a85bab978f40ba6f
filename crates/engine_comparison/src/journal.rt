//! A session is played on the plain market, in the order of its lines: the second opinion.

ghost use Rattle.std.specs.Prelude.{◌≡◌, ◌==◌, ◌<◌, ◌≤◌, ℕ, count_by, length, slice_get, All, Some, None, IfOk};
ghost use Rattle.zone_graph.specs.Grid.{JoinsZones};
ghost use Rattle.zone_graph.specs.GridFault.{grid_fault};
ghost use Rattle.market_model.specs.Grid.{graph_of};
ghost use Rattle.market_model.specs.Market as market;
ghost use Rattle.market_model.specs.Naming.{IsEntryIn};
ghost use Rattle.market_text.specs.Commands.{commands_of};
ghost use Rattle.market_text.specs.Session.{IsSession};

use event_history::History;
use market_model::{Command, Commands, Duplicate, Entries, Entry, Setup};
use market_text::Session;
use plain_market::reply_and_append;
use plain_orders::DaySums;
use session_journal::grid_of;
use std::alloc::Global;
use trade_journal::Counts;
use zone_graph::{Grid, NoMemory};

/// The journal of a session whose commands are given one after the other in the order of its
/// lines: for each command an entry with the market's reply to it after all replies before.
///
/// # Errors
///
/// [`NoMemory`], where there is no memory for the journal or for what it is made from.
pub(crate) fn plain_journal_of(alloc: Global, session: &Session) -> Result<Entries, NoMemory>
    requires session { IsSession session.now }
    requires joined { JoinsZones (graph_of session.now.setup) }
    requires sound { grid_fault (graph_of session.now.setup) ≡ None }
    ensures journal { IfOk result (λ entries. entries ≡ market.run_of session.now.setup (market.in_turn session.now.commands session.now.turns)) }
    ensures named { IfOk result (All (IsEntryIn session.now.setup)) }
{
    let grid = grid_of(alloc, &session.setup)?;
    play(
        alloc,
        &grid,
        &session.setup,
        session.commands.as_slice(),
        session.turns.as_slice(),
    )
}

// Gives each caller's commands in the order of the turns.
fn play(
    alloc: Global,
    grid: &Grid,
    setup: &Setup,
    commands: &[Commands],
    turns: &[u32],
) -> Result<Entries, NoMemory>
    requires grid { grid.now ≡ graph_of setup.now }
    requires matched { length commands.now ≡ length setup.now.callers }
    requires known { All (λ turn. turn < length setup.now.callers) turns.now }
    requires counted { (caller : ℕ) → caller < length commands.now
        → length (commands_of commands.now caller) ≡ count_by (λ turn. turn == caller) turns.now }
    requires few { length turns.now ≤ 262144 }
    ensures journal { IfOk result (λ entries. entries ≡ market.run_of setup.now (market.in_turn commands.now turns.now)) }
    ensures named { IfOk result (All (IsEntryIn setup.now)) }
{
    let zones = grid.zones();
    prove!(zones <= 64);
    let mut given = Counts::new(alloc, commands.len())?;
    let mut history = History::new(alloc)?;
    let mut sums = DaySums::new(alloc)?;
    let mut entries = Entries::new(alloc);
    for turn in turns {
        let place = given.count(*turn as usize);
        let command = command_at(commands, *turn as usize, place);
        let events = &mut history;
        let reply = reply_and_append(alloc, grid, setup, events, &mut sums, *turn, command)?;
        entries.push(Entry {
            caller: *turn,
            nth: place + 1,
            command: command.copy()?,
            reply,
        })?;
    }
    Ok(entries)
}

// A caller's command at a place, counted from 0.
fn command_at(commands: &[Commands], caller: usize, place: u32) -> &Command
    requires known { caller < length commands.now }
    requires given { place < length (commands_of commands.now caller) }
    ensures command { slice_get (commands_of commands.now caller) place ≡ Some result.now }
{
    &commands[caller].as_slice()[place as usize]
}
