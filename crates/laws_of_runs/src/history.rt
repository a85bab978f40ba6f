//! The law of printed journals.

ghost use Rattle.laws_of_runs.specs.OneHistory.{PrintedJournalsAreOneHistory, TradedJournalsAreOneHistory};

/// Where some bytes are a session and a text is that of its journal, the text is that of one single-thread history: it
/// has each caller's commands once, in that caller's order, each with the market's reply after the entries before it; the
/// rows of a view are the market's there; each leg and grant uses no more than remained just before it; and after every
/// entry from 0 to 200000.0 MW remains on each arc in each quarter, and no two open orders of one contract can trade. The
/// callers that its lines name are the session's turns.
pub fn printed_journals_are_one_history()
    ensures { PrintedJournalsAreOneHistory }
{}

/// Where some bytes are a session and a text is that of its journal with its callers in whatever order they came, the text
/// is that of one single-thread history in the same sense: of each caller the session's commands once, in that caller's
/// order, each with the market's reply after the entries before it. This order is that of the callers that its lines name.
pub fn traded_journals_are_one_history()
    ensures { TradedJournalsAreOneHistory }
{}
