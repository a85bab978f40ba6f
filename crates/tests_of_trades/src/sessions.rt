//! Sessions that are traded.

use std::alloc::{AllocError, Global};
use std::fmt::Write;

/// A session without commands.
pub(crate) const HEADER: &str = "\
    day 2025-06-17\n\
    zone DE\nzone FR\nborder DE FR\n\
    trader ann\ntrader bob\ntrader cat\n\
    operator tso\n\
    begin\n\
";

/// Two commands of one caller.
pub(crate) const ALONE: &str = "\
    day 2025-06-17\n\
    zone DE\nzone FR\nborder DE FR\n\
    trader ann\ntrader bob\ntrader cat\n\
    operator tso\n\
    begin\n\
    bob sell h12 DE 10.0 50.00\n\
    bob buy h13q2 FR 4.0 -5.50\n\
    bob cancel h12#1\n\
";

/// Its journal.
pub(crate) const ALONE_JOURNAL: &str = "\
    {\"caller\":\"bob\",\"command\":1,\"done\":[[\"entered\",\"h12#1\",\"h12\"]],\"entry\":1}\n\
    {\"caller\":\"bob\",\"command\":2,\"done\":[[\"entered\",\"h13#1\",\"h13q2\"]],\"entry\":2}\n\
    {\"caller\":\"bob\",\"command\":3,\"done\":[[\"withdrawn\",\"h12#1\",\"10.0\"]],\"entry\":3}\n\
";

/// The session of some command lines, each of which is given so many times, by turns.
pub(crate) fn repeated(alloc: Global, lines: &[&str], times: u32) -> Result<String, AllocError> {
    let mut text = String::from_str(alloc, HEADER)?;
    for _ in 0..times {
        put_lines(&mut text, lines)?;
    }
    Ok(text)
}

// Puts lines at the end of a text.
fn put_lines(text: &mut String, lines: &[&str]) -> Result<(), AllocError> {
    for line in lines {
        writeln!(text, "{line}")?;
    }
    Ok(())
}
