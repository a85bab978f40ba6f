//! Sessions with journals that were written out by hand, and the audit of any bytes beside one of them.

use journal_audit::{Verdict, audit};
use market_text::read_session;
use std::alloc::Global;
use std::test::Fail;
use zone_graph::Grid;

/// A sale in one zone.
pub(crate) const SALE: &[u8] = b"\
day 2025-06-17\nzone DE\ntrader ann\ntrader bob\nbegin\n\
ann sell h12 DE 10.0 50.00\nbob buy h12 DE 4.0 55.00\n";

/// The journal of the sale in the order of the text: bob buys at the price of the order that was there.
pub(crate) const SALE_JOURNAL: [&[u8]; 2] = [
    b"{\"caller\":\"ann\",\"command\":1,\"done\":[[\"entered\",\"h12#1\",\"h12\"]],\"entry\":1}\n",
    b"{\"caller\":\"bob\",\"command\":1,\"done\":[[\"entered\",\"h12#2\",\"h12\"],[\"leg\",\"h12#2\",\"h12#1\",\"4.0\",\"50.00\",[]]],\"entry\":2}\n",
];

/// The journal of the sale where bob came first, and ann sold at his price.
pub(crate) const BOB_FIRST_JOURNAL: &[u8] = b"\
{\"caller\":\"bob\",\"command\":1,\"done\":[[\"entered\",\"h12#1\",\"h12\"]],\"entry\":1}\n\
{\"caller\":\"ann\",\"command\":1,\"done\":[[\"entered\",\"h12#2\",\"h12\"],[\"leg\",\"h12#2\",\"h12#1\",\"4.0\",\"55.00\",[]]],\"entry\":2}\n";

/// An operator, a view, refusals, and two callers of whom one has the first letters of the other as its name.
pub(crate) const REFUSALS: &[u8] = b"\
day 2025-06-17\nzone DE\nzone FR\nborder DE FR\ntrader an\ntrader ann\noperator tso\nbegin\n\
ann cancel h12#1\ntso offer DE>FR h12q1 h12q4 6.0\nan sell h12 DE 10.0 50.00\nann view h12 sell FR\n\
an cancel h12#1\nann cancel h12#1\n";

/// The journal of these in the order of the text.
pub(crate) const REFUSALS_JOURNAL: &[u8] = b"\
{\"caller\":\"ann\",\"command\":1,\"entry\":1,\"refused\":[\"UnknownOrder\"]}\n\
{\"caller\":\"tso\",\"command\":1,\"done\":[[\"offered\",\"DE>FR\",\"h12q1\",\"h12q4\",\"6.0\"]],\"entry\":2}\n\
{\"caller\":\"an\",\"command\":1,\"done\":[[\"entered\",\"h12#1\",\"h12\"]],\"entry\":3}\n\
{\"caller\":\"ann\",\"command\":2,\"entry\":4,\"rows\":[[\"50.00\",\"6.0\"]]}\n\
{\"caller\":\"an\",\"command\":2,\"done\":[[\"withdrawn\",\"h12#1\",\"10.0\"]],\"entry\":5}\n\
{\"caller\":\"ann\",\"command\":3,\"entry\":6,\"refused\":[\"UnknownOrder\"]}\n";

/// A session without a command.
pub(crate) const NO_COMMAND: &[u8] = b"day 2025-06-17\nzone DE\ntrader ann\nbegin\n";

/// The verdict on bytes as the journal of the session of a text.
pub(crate) fn verdict_on(alloc: Global, text: &[u8], journal: &[u8]) -> Result<Verdict, Fail> {
    if text.len() > 1000 {
        return Err(Fail::from("a long text"));
    }
    let session = read_session(alloc, text)?;
    let grid = Grid::new(alloc, &session.setup.zones, &session.setup.borders)?;
    Ok(audit(alloc, &grid, &session, journal)?)
}
