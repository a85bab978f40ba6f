//! What is made of an input and what a run printed of it.

ghost use Rattle.record_run.specs.Laws.{PrintedJournalsMakeRecords, TradedJournalsMakeRecords};

/// Where some bytes are a session and a text is that of its journal, the bytes, the line `journal` and the text are a
/// record whose journal is complete, with the entries of that journal.
pub fn printed_journals_make_records()
    ensures { PrintedJournalsMakeRecords }
{}

/// And so they are where its callers came in whatever order.
pub fn traded_journals_make_records()
    ensures { TradedJournalsMakeRecords }
{}
