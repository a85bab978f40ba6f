//! A session is traded.

ghost use Rattle.std.specs.Prelude.{◌≡◌, All, None, IfOk};
ghost use Rattle.zone_graph.specs.Grid.{JoinsZones};
ghost use Rattle.zone_graph.specs.GridFault.{grid_fault};
ghost use Rattle.market_model.specs.Grid.{graph_of};
ghost use Rattle.market_model.specs.Naming.{IsEntryIn};
ghost use Rattle.market_text.specs.Session.{IsSession};
ghost use Rattle.session_journal.specs.Turns.{IsTraded};
ghost use Rattle.venue_core.specs.Setups.{IsVenueSetup};
ghost use Rattle.venue_core.specs.Venues.{IsOpenedFor};

use crate::callers::work_of_all;
use market_model::Setup;
use market_text::Session;
use outside::Gate;
use std::alloc::Global;
use std::sync::Wait;
use std::thread::Threads;
use trade_journal::Journal;
use venue_core::{OpenFault, Passes, Venue};
use zone_graph::NoMemory;

/// The journal of a session whose callers give their commands at a venue, each on a thread of its own where threads can
/// be made: for each command an entry, in the order of the turns that the threads took, with the market's reply to it
/// after all replies before. The order of the session's lines counts for nothing but the order of each caller's own.
///
/// It waits for all callers, who wait for one another.
///
/// # Errors
///
/// [`NoMemory`] where memory runs out.
pub fn trade_session<R: Threads + Wait + Sync, G: Gate>(
    rt: &R,
    alloc: Global,
    gate: &G,
    session: Session,
) -> Result<Journal, NoMemory>
    requires session { IsSession session }
    requires joined { JoinsZones (graph_of session.setup) }
    requires sound { grid_fault (graph_of session.setup) ≡ None }
    ensures setup { IfOk result (λ journal. journal.setup ≡ session.setup) }
    ensures journal { IfOk result (λ journal. IsTraded session journal.entries) }
    ensures named { IfOk result (λ journal. All (IsEntryIn session.setup) journal.entries) }
{
    let Session {
        setup,
        commands,
        turns: _,
    } = session;
    let (venue, passes) = open(alloc, setup)?;
    let mut passes = passes.into_vec();
    work_of_all(
        rt,
        alloc,
        &venue,
        gate,
        commands.as_slice(),
        passes.as_mut_slice(),
    )?;
    Ok(venue.close(rt, Passes::from(passes)))
}

// Opens a venue for a setup whose zones and borders make a grid.
fn open(alloc: Global, setup: Setup) -> Result<(Venue, Passes), NoMemory>
    requires venue { IsVenueSetup setup }
    requires sound { grid_fault (graph_of setup) ≡ None }
    ensures { IfOk result (λ opened. IsOpenedFor setup opened.0 opened.1) }
{
    match Venue::open(alloc, setup) {
        Ok(opened) => Ok(opened),
        Err(OpenFault::NoMemory) => Err(NoMemory),
        Err(OpenFault::BadSetup(_)) => unreachable!(),
    }
}
