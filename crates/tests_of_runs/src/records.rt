//! Records that are audited and shipped: a session, the line `journal`, and a journal.

/// A sale with its journal.
pub(crate) const SALE_RECORD: &[u8] =
    b"day 2025-06-17\nzone DE\ntrader ann\ntrader bob\nbegin\nann sell h12 DE 10.0 50.00\nbob buy h12 DE 4.0 55.00\njournal\n{\"caller\":\"ann\",\"command\":1,\"done\":[[\"entered\",\"h12#1\",\"h12\"]],\"entry\":1}\n{\"caller\":\"bob\",\"command\":1,\"done\":[[\"entered\",\"h12#2\",\"h12\"],[\"leg\",\"h12#2\",\"h12#1\",\"4.0\",\"50.00\",[]]],\"entry\":2}\n";

/// The same with 3.0 in place of 4.0 in the second line.
pub(crate) const CHANGED_LINE: &[u8] =
    b"day 2025-06-17\nzone DE\ntrader ann\ntrader bob\nbegin\nann sell h12 DE 10.0 50.00\nbob buy h12 DE 4.0 55.00\njournal\n{\"caller\":\"ann\",\"command\":1,\"done\":[[\"entered\",\"h12#1\",\"h12\"]],\"entry\":1}\n{\"caller\":\"bob\",\"command\":1,\"done\":[[\"entered\",\"h12#2\",\"h12\"],[\"leg\",\"h12#2\",\"h12#1\",\"3.0\",\"50.00\",[]]],\"entry\":2}\n";

/// The same without the second line.
pub(crate) const LINE_WANTING: &[u8] =
    b"day 2025-06-17\nzone DE\ntrader ann\ntrader bob\nbegin\nann sell h12 DE 10.0 50.00\nbob buy h12 DE 4.0 55.00\njournal\n{\"caller\":\"ann\",\"command\":1,\"done\":[[\"entered\",\"h12#1\",\"h12\"]],\"entry\":1}\n";

/// The same with the two lines exchanged.
pub(crate) const LINES_EXCHANGED: &[u8] =
    b"day 2025-06-17\nzone DE\ntrader ann\ntrader bob\nbegin\nann sell h12 DE 10.0 50.00\nbob buy h12 DE 4.0 55.00\njournal\n{\"caller\":\"bob\",\"command\":1,\"done\":[[\"entered\",\"h12#2\",\"h12\"],[\"leg\",\"h12#2\",\"h12#1\",\"4.0\",\"50.00\",[]]],\"entry\":2}\n{\"caller\":\"ann\",\"command\":1,\"done\":[[\"entered\",\"h12#1\",\"h12\"]],\"entry\":1}\n";

/// The same with the second line twice.
pub(crate) const LINE_TWICE: &[u8] =
    b"day 2025-06-17\nzone DE\ntrader ann\ntrader bob\nbegin\nann sell h12 DE 10.0 50.00\nbob buy h12 DE 4.0 55.00\njournal\n{\"caller\":\"ann\",\"command\":1,\"done\":[[\"entered\",\"h12#1\",\"h12\"]],\"entry\":1}\n{\"caller\":\"bob\",\"command\":1,\"done\":[[\"entered\",\"h12#2\",\"h12\"],[\"leg\",\"h12#2\",\"h12#1\",\"4.0\",\"50.00\",[]]],\"entry\":2}\n{\"caller\":\"bob\",\"command\":1,\"done\":[[\"entered\",\"h12#2\",\"h12\"],[\"leg\",\"h12#2\",\"h12#1\",\"4.0\",\"50.00\",[]]],\"entry\":2}\n";

/// A session without commands, and its empty journal.
pub(crate) const EMPTY_RECORD: &[u8] =
    b"day 2025-06-17\nzone DE\nzone FR\nborder DE FR\ntrader ann\ntrader bob\ntrader cat\noperator tso\nbegin\njournal\n";

/// The same without the line between.
pub(crate) const UNDIVIDED: &[u8] =
    b"day 2025-06-17\nzone DE\nzone FR\nborder DE FR\ntrader ann\ntrader bob\ntrader cat\noperator tso\nbegin\n";

/// A sale over a border and a granted request, with their journal.
pub(crate) const GRANT_RECORD: &[u8] =
    b"day 2025-06-17\nzone DE\nzone FR\nborder DE FR\ntrader ann\ntrader bob\ntrader cat\noperator tso\nbegin\ntso offer DE>FR h12q1 h12q4 5.0\nann sell h12 DE 3.0 40.00\nbob buy h12 FR 3.0 40.00\ncat request DE>FR h12q2 h12q2 1.0\njournal\n{\"caller\":\"tso\",\"command\":1,\"done\":[[\"offered\",\"DE>FR\",\"h12q1\",\"h12q4\",\"5.0\"]],\"entry\":1}\n{\"caller\":\"ann\",\"command\":1,\"done\":[[\"entered\",\"h12#1\",\"h12\"]],\"entry\":2}\n{\"caller\":\"bob\",\"command\":1,\"done\":[[\"entered\",\"h12#2\",\"h12\"],[\"leg\",\"h12#2\",\"h12#1\",\"3.0\",\"40.00\",[\"DE>FR\"]]],\"entry\":3}\n{\"caller\":\"cat\",\"command\":1,\"done\":[[\"granted\",\"DE>FR\",\"h12q2\",\"h12q2\",\"1.0\"]],\"entry\":4}\n";

/// The schedule of that record.
pub(crate) const GRANT_SCHEDULE: &[u8] =
    b"exchange h12q1 DE>FR 3.0 0.0\nposition h12q1 DE 3.0 0.0 3.0\nposition h12q1 FR 0.0 3.0 -3.0\nexchange h12q2 DE>FR 3.0 1.0\nposition h12q2 DE 3.0 0.0 3.0\nposition h12q2 FR 0.0 3.0 -3.0\nexchange h12q3 DE>FR 3.0 0.0\nposition h12q3 DE 3.0 0.0 3.0\nposition h12q3 FR 0.0 3.0 -3.0\nexchange h12q4 DE>FR 3.0 0.0\nposition h12q4 DE 3.0 0.0 3.0\nposition h12q4 FR 0.0 3.0 -3.0\n";

/// The schedule of the sale.
pub(crate) const SALE_SCHEDULE: &[u8] =
    b"position h12q1 DE 4.0 4.0 0.0\nposition h12q2 DE 4.0 4.0 0.0\nposition h12q3 DE 4.0 4.0 0.0\nposition h12q4 DE 4.0 4.0 0.0\n";
