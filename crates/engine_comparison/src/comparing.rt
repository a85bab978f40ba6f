//! A session is given to desks, and each answer compared with that of the plain market.

ghost use Rattle.std.specs.Prelude.{◌≡◌, ◌≤◌, None, length};
ghost use Rattle.zone_graph.specs.Grid.{JoinsZones};
ghost use Rattle.zone_graph.specs.GridFault.{grid_fault};
ghost use Rattle.market_model.specs.Grid.{graph_of};
ghost use Rattle.market_text.specs.Session.{IsSession};

use crate::answers::Answers;
use crate::journal::plain_journal_of;
use crate::kinds::{NOTHING, Tallies, count};
use desk_market::{DeskMarket, market_of};
use market_model::{Duplicate, Entry};
use market_text::{Session, TextFault, read_session};
use std::alloc::Global;
use zone_graph::NoMemory;

/// Why a comparison ended early.
#[derive(Clone, Copy, Debug, PartialEq, Eq)]
pub(crate) enum Difference {
    /// The desks answered a command in another way than the plain market, as they tried it out.
    TriedOut,

    /// A desk answered in another way once what was tried out was taken back.
    TakenBack,

    /// The desks answered in another way as the command was given.
    Given,

    /// The caller had no room for the command, or is not known.
    NoRoom,

    /// The text is no session.
    NoSession,

    /// There was no memory.
    NoMemory,
}

impl From<NoMemory> for Difference {
    fn from(_error: NoMemory) -> Difference {
        Difference::NoMemory
    }
}

/// Compares the two engines on the session of a text.
pub(crate) fn compare_on(alloc: Global, text: &[u8]) -> Result<Tallies, Difference>
    requires { length text.now ≤ 8388608 }
{
    match read_session(alloc, text) {
        Ok(session) => compare(alloc, &session),
        Err(TextFault::BadSession { .. }) => Err(Difference::NoSession),
        Err(TextFault::NoMemory) => Err(Difference::NoMemory),
    }
}

// Plays a session on the plain market, and gives each command to desks beside it. Answers how many commands of each
// kind were done and refused.
fn compare(alloc: Global, session: &Session) -> Result<Tallies, Difference>
    requires session { IsSession session.now }
    requires joined { JoinsZones (graph_of session.now.setup) }
    requires sound { grid_fault (graph_of session.now.setup) ≡ None }
{
    let plain = plain_journal_of(alloc, session)?;
    let mut market = market_of(alloc, session)?;
    let mut tallies = NOTHING;
    for entry in plain.as_slice() {
        give(alloc, &mut market, entry)?;
        count(&mut tallies, &entry.command, &entry.reply);
    }
    if market.entries() == plain.as_slice() {
        Ok(tallies)
    } else {
        Err(Difference::Given)
    }
}

// Tries out the command of an entry of the plain market, and then gives it to the desks.
fn give(alloc: Global, market: &mut DeskMarket, entry: &Entry) -> Result<(), Difference> {
    if entry.caller as usize >= market.setup().callers.len() || !market.has_room(entry.caller) {
        return Err(Difference::NoRoom);
    }
    let Ok(zones) = u32::try_from(market.setup().zones.len()) else {
        return Err(Difference::NoSession);
    };
    let Ok(borders) = u32::try_from(market.setup().borders.len()) else {
        return Err(Difference::NoSession);
    };
    let before = answers_of(alloc, market, zones, borders)?;
    let reply = market.try_out(alloc, entry.caller, &entry.command)?;
    if reply != entry.reply {
        return Err(Difference::TriedOut);
    }
    let after = answers_of(alloc, market, zones, borders)?;
    if !are_same(before.as_slice(), after.as_slice()) {
        return Err(Difference::TakenBack);
    }
    market.give(alloc, entry.caller, entry.command.copy()?)?;
    Ok(())
}

// What each desk of a market answers, over so many zones and borders.
fn answers_of(
    alloc: Global,
    market: &DeskMarket,
    zones: u32,
    borders: u32,
) -> Result<Vec<Answers>, NoMemory>
    requires zones { zones ≤ length market.now.setup.zones }
    requires borders { borders ≤ length market.now.setup.borders }
{
    let mut answers = Vec::new(alloc);
    for hour in 1..=market.setup().hours {
        answers.push(Answers::of(alloc, market.desk(hour), zones, borders)?)?;
    }
    Ok(answers)
}

// Whether desks answer alike.
fn are_same(before: &[Answers], after: &[Answers]) -> bool {
    if before.len() != after.len() {
        return false;
    }
    for (place, answers) in before.iter().enumerate() {
        if !answers.are_same(&after[place]) {
            return false;
        }
    }
    true
}
