//! What is read is what the grammar has, and makes a grid.

ghost use Rattle.laws_of_texts.specs.Laws.{AcceptedIsInGrammar, AnswersAreByGrammar, FirstBadIsReported};
ghost use Rattle.laws_of_texts.specs.Laws.{GrammarIsAccepted, ReportedIsFirstBad, SessionsMakeGrids, TextsAreSessions};

/// A text of which a session is read is a text of that session, by the grammar.
pub fn accepted_is_in_grammar()
    ensures { AcceptedIsInGrammar }
{}

/// Of each text of a session, by the grammar, that session is read.
pub fn grammar_is_accepted()
    ensures { GrammarIsAccepted }
{}

/// The line that is reported is the first bad one: after the lines before it a text can go on to one
/// of a session, and with it no more.
pub fn reported_is_first_bad()
    ensures { ReportedIsFirstBad }
{}

/// The first bad line of a text is the one that is reported.
pub fn first_bad_is_reported()
    ensures { FirstBadIsReported }
{}

/// What reading a text answers is, by the grammar, the session whose text it is or the first bad
/// line, unless memory is wanting.
pub fn answers_are_by_grammar()
    ensures { AnswersAreByGrammar }
{}

/// A session that is read has a day of 23 to 25 hours, names, limits that hold, and of each caller as many commands
/// as it has turns and room.
pub fn texts_are_sessions()
    ensures { TextsAreSessions }
{}

/// The zones and borders of a session that is read make a grid: each border joins zones of the
/// session, and the graph has none of the faults for which a grid is refused.
pub fn sessions_make_grids()
    ensures { SessionsMakeGrids }
{}
