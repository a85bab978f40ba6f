//! The work of one caller.

ghost use Rattle.std.specs.Prelude.{◌≡◌, ◌<◌, [], ◌∷◌, OnErr, OnOk, length};
ghost use Rattle.trade_journal.specs.Journals.{room_of_caller};
ghost use Rattle.trader_pass.specs.Passes.{IsOf};
ghost use Rattle.session_trade.specs.Working.{GaveAll, GaveSome, HasRoomFor};

use market_model::{Command, Commands, Duplicate};
use outside::Gate;
use std::alloc::Global;
use std::sync::Wait;
use venue_core::{Pass, SubmitFault, Venue};
use zone_graph::NoMemory;

/// Gives a caller's commands at a venue, one after the other. Each is copied when its turn comes.
///
/// It waits wherever [`Venue::submit`] waits.
///
/// # Errors
///
/// [`NoMemory`] where memory runs out: a first part of the commands was given.
pub fn work<R: Wait, G: Gate>(
    rt: &R,
    alloc: Global,
    venue: &Venue,
    gate: &G,
    pass: &mut Pass,
    commands: &Commands,
) -> Result<(), NoMemory>
    requires pass { IsOf venue.now pass.old }
    requires room { HasRoomFor pass.old (length commands.now) }
    ensures pass { IsOf venue.now pass.new }
    ensures all { OnOk result (GaveAll commands.now pass.old pass.new) }
    ensures some { OnErr result (GaveSome commands.now pass.old pass.new) }
{
    for command in commands.as_slice() {
        give(rt, alloc, venue, gate, pass, command)?;
    }
    Ok(())
}

// Gives one command. On an error the pass stays as it was.
fn give<R: Wait, G: Gate>(
    rt: &R,
    alloc: Global,
    venue: &Venue,
    gate: &G,
    pass: &mut Pass,
    command: &Command,
) -> Result<(), NoMemory>
    requires pass { IsOf venue.now pass.old }
    requires room { length pass.old.mine < room_of_caller pass.old.setup pass.old.caller }
    ensures pass { IsOf venue.now pass.new }
    ensures gave { OnOk result (GaveAll (command.now ∷ []) pass.old pass.new) }
    ensures unchanged { OnErr result (pass.new ≡ pass.old) }
{
    match venue.submit(rt, alloc, gate, pass, command.copy()?) {
        Ok(_) => Ok(()),
        Err(SubmitFault::NoMemory) => Err(NoMemory),
        Err(SubmitFault::JournalFull { .. }) => unreachable!(),
    }
}
