//! How many commands of each kind were done and refused.

ghost use Rattle.std.specs.Prelude.{◌<◌};

use market_model::{Command, Reply};

/// The names of the kinds of commands, by their places.
pub(crate) const KINDS: [&str; 12] = [
    "enter", "block", "basket", "cancel", "reduce", "blocks", "offer", "request", "halt", "resume",
    "gate", "view",
];

/// How many commands of a kind were answered.
#[derive(Clone, Copy)]
pub(crate) struct Tally {
    /// How many were done, or showed rows.
    pub done: u32,

    /// How many were refused.
    pub refused: u32,
}

/// The tallies of all kinds, by their places.
pub(crate) type Tallies = [Tally; 12];

/// The tallies of no command.
pub(crate) const NOTHING: Tallies = [Tally {
    done: 0,
    refused: 0,
}; 12];

/// Counts one more answer.
pub(crate) fn count(tallies: &mut Tallies, command: &Command, reply: &Reply) {
    let tally = &mut tallies[place_of(command)];
    match reply {
        Reply::Refused(_) => tally.refused = tally.refused.saturating_add(1),
        Reply::Done(_) | Reply::Seen(_) => tally.done = tally.done.saturating_add(1),
    }
}

// The place of the kind of a command.
fn place_of(command: &Command) -> usize
    ensures { result < 12 }
{
    match command {
        Command::Enter { .. } => 0,
        Command::EnterBlock { .. } => 1,
        Command::EnterBasket { .. } => 2,
        Command::Cancel { .. } => 3,
        Command::Reduce { .. } => 4,
        Command::Blocks { .. } => 5,
        Command::Offer { .. } => 6,
        Command::Request { .. } => 7,
        Command::Halt { .. } => 8,
        Command::Resume { .. } => 9,
        Command::Gate { .. } => 10,
        Command::View { .. } => 11,
    }
}
