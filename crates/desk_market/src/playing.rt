//! The session is played in the order of its lines.

ghost use Rattle.std.specs.Prelude.{◌≡◌, ◌==◌, ◌<◌, ℕ, All, [], None, IfOk, OnOk, count_by, length, map};
ghost use Rattle.zone_graph.specs.Grid.{JoinsZones};
ghost use Rattle.zone_graph.specs.GridFault.{grid_fault};
ghost use Rattle.market_model.specs.Grid.{graph_of};
ghost use Rattle.market_model.specs.Market.{in_turn, run_of};
ghost use Rattle.market_model.specs.Naming.{IsEntryIn};
ghost use Rattle.market_text.specs.Commands.{commands_of};
ghost use Rattle.market_text.specs.Session.{IsSession};
ghost use Rattle.session_journal.specs.Journal.{journal_of_session};

use crate::market::DeskMarket;
use crate::waiting::Waiting;
use market_text::Session;
use session_journal::grid_of;
use std::alloc::Global;
use trade_journal::Journal;
use zone_graph::NoMemory;

/// The market of a session to which no command is given yet.
///
/// # Errors
///
/// [`NoMemory`] where memory runs out.
pub fn market_of(alloc: Global, session: &Session) -> Result<DeskMarket, NoMemory>
    requires session { IsSession session.now }
    requires joined { JoinsZones (graph_of session.now.setup) }
    requires sound { grid_fault (graph_of session.now.setup) ≡ None }
    ensures { IfOk result (λ market. market ≡ record { setup = session.now.setup; entries = [] }) }
{
    let grid = grid_of(alloc, &session.setup)?;
    let zones = grid.zones();
    prove!(zones <= 64);
    DeskMarket::new(alloc, grid, &session.setup)
}

/// The journal of a session whose commands are given one after the other in the order of its lines: for each
/// command an entry with the market's reply to it after all replies before. The session is used up: no command
/// is copied.
///
/// # Errors
///
/// [`NoMemory`] where memory runs out.
pub fn journal_of(alloc: Global, session: Session) -> Result<Journal, NoMemory>
    requires session { IsSession session }
    requires joined { JoinsZones (graph_of session.setup) }
    requires sound { grid_fault (graph_of session.setup) ≡ None }
    ensures setup { IfOk result (λ journal. journal.setup ≡ session.setup) }
    ensures journal { IfOk result (λ journal. journal.entries ≡ journal_of_session session) }
    ensures named { IfOk result (λ journal. All (IsEntryIn session.setup) journal.entries) }
{
    let mut market = market_of(alloc, &session)?;
    let mut waiting = Waiting::new(alloc, session.commands)?;
    play(alloc, &mut market, &mut waiting, session.turns.as_slice())?;
    Ok(market.into_journal())
}

// Gives each caller's commands in the order of the turns.
fn play(
    alloc: Global,
    market: &mut DeskMarket,
    waiting: &mut Waiting,
    turns: &[u32],
) -> Result<(), NoMemory>
    requires begins { market.old.entries ≡ [] }
    requires matched { length waiting.old ≡ length market.old.setup.callers }
    requires known { All (λ turn. turn < length market.old.setup.callers) turns.now }
    requires counted { (caller : ℕ) → caller < length waiting.old
        → length (commands_of waiting.old caller) ≡ count_by (λ turn. turn == caller) turns.now }
    requires rooms { map (λ caller. caller.room) market.old.setup.callers ≡ map length waiting.old }
    ensures setup { market.new.setup ≡ market.old.setup }
    ensures journal { OnOk result (market.new.entries ≡ run_of market.old.setup (in_turn waiting.old turns.now)) }
{
    for turn in turns {
        let command = waiting.next(*turn as usize);
        market.give(alloc, *turn, command)?;
    }
    Ok(())
}
