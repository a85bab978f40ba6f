//! A session that is played on desks.

ghost use Rattle.std.specs.Prelude.{◌≡◌, [], None, IfOk};
ghost use Rattle.zone_graph.specs.Grid.{JoinsZones};
ghost use Rattle.zone_graph.specs.GridFault.{grid_fault};
ghost use Rattle.market_model.specs.Grid.{graph_of};
ghost use Rattle.market_text.specs.Session.{IsSession};

use desk_market::{DeskMarket, Waiting, market_of};
use market_model::{Entry, Setup};
use market_text::{Session, Turns};
use session_storing::Player;
use std::alloc::Global;
use trade_journal::Journal;
use zone_graph::NoMemory;

/// A market on desks, and the commands that the callers of its session have still to give.
#[derive(Drop)]
pub(crate) struct DeskPlayer {
    market: DeskMarket,
    waiting: Waiting,
}

impl DeskPlayer {
    /// The player of a session to which no command is given yet, and the turns of the session. The session is used up:
    /// no command is copied.
    ///
    /// # Errors
    ///
    /// [`NoMemory`] where memory runs out.
    pub(crate) fn new(alloc: Global, session: Session) -> Result<(DeskPlayer, Turns), NoMemory>
        requires session { IsSession session }
        requires joined { JoinsZones (graph_of session.setup) }
        requires sound { grid_fault (graph_of session.setup) ≡ None }
        ensures market { IfOk result (λ made. made.0.market ≡ record { setup = session.setup; entries = [] }) }
        ensures waiting { IfOk result (λ made. made.0.waiting ≡ session.commands) }
        ensures turns { IfOk result (λ made. made.1 ≡ session.turns) }
    {
        let market = market_of(alloc, &session)?;
        let Session {
            commands,
            turns,
            ..
        } = session;
        let waiting = Waiting::new(alloc, commands)?;
        Ok((DeskPlayer { market, waiting }, turns))
    }

    /// The journal of all that was played.
    pub(crate) fn into_journal(self) -> Journal
        ensures { result ≡ self.market }
    {
        self.market.into_journal()
    }
}

impl Player for DeskPlayer {
    ghost state = { λ player. record {
      setup = player.market.setup;
      waiting = player.waiting;
      entries = player.market.entries;
    } };

    fn setup(&self) -> &Setup {
        self.market.setup()
    }

    fn entries(&self) -> &[Entry] {
        self.market.entries()
    }

    fn has_next(&self, caller: u32) -> bool {
        self.market.has_room(caller)
    }

    fn give_next(&mut self, alloc: Global, caller: u32) -> Result<(), NoMemory> {
        let command = self.waiting.next(caller as usize);
        self.market.give(alloc, caller, command)
    }
}
