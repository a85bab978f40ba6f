//! What the journal of a session holds, as the contracts of functions that do nothing.

ghost use Rattle.session_journal.specs.Laws.{EachCommandOnce, EntriesNameTheSetup};

/// The journal of a session has an entry for each turn, in the order of the turns, and of each caller
/// exactly its commands, each once and in that caller's order.
pub fn each_command_once()
    ensures { EachCommandOnce }
{}

/// Each entry of the journal of a session is of a caller of its setup, and names the zones and borders of
/// the setup alone.
pub fn entries_name_what_the_setup_has()
    ensures { EntriesNameTheSetup }
{}
