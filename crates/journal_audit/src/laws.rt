//! What holds of every audit, as the contracts of functions that do nothing.

ghost use Rattle.journal_audit.specs.Laws.{CompleteJournalsAreInOrder, FirstFaultIsOne, LinesAreAudited, LinesMakeTheText};
ghost use Rattle.journal_audit.specs.Laws.{JournalsAreComplete, JournalsAreOne, LinesNameTheTurns, SessionsAreNamedApart};

/// The lines of a text, one behind the other, are the text: no byte of a journal is passed over.
pub fn lines_make_the_text()
    ensures { LinesMakeTheText }
{}

/// A journal has one first fault at most, so which line is told leaves no choice.
pub fn first_fault_is_one()
    ensures { FirstFaultIsOne }
{}

/// Where no two callers have one name, the complete journals of a session are exactly the texts that the market makes
/// of its commands, in whatever order the callers had their turns.
pub fn complete_journals_are_in_order()
    ensures { CompleteJournalsAreInOrder }
{}

/// No two callers of a session that is read have one name.
pub fn sessions_are_named_apart()
    ensures { SessionsAreNamedApart }
{}

/// So the lines of the journal of a session that is read name its turns, in order; and where its callers came in some
/// other order, the lines of that journal name this one.
pub fn lines_name_the_turns()
    ensures { LinesNameTheTurns }
{}

/// A session that is read has one journal; and with its callers in some other order one journal for each such order,
/// and no journal for two.
pub fn journals_are_one()
    ensures { JournalsAreOne }
{}

/// The journal of a session that is read is complete, in whatever order its callers came, and its entries are what the
/// market makes of the commands in that order.
pub fn journals_are_complete()
    ensures { JournalsAreComplete }
{}

/// Lines that are kept without their line feeds are audited as the journal that they make: they are right, or one of them is
/// the first that is not, exactly where so are its lines.
pub fn lines_are_audited()
    ensures { LinesAreAudited }
{}
