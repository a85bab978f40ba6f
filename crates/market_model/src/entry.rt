//! The journal.

use crate::command::Command;
use crate::reply::Reply;
use zone_graph::Sequence;

/// One entry of the journal: a command and its reply.
#[derive(Debug, Drop, PartialEq, Eq)]
pub struct Entry {
    /// Who gave the command.
    pub caller: u32,
    /// Which of the caller's entries it is, counted from 1.
    pub nth: u32,
    /// What was asked.
    pub command: Command,
    /// What was answered.
    pub reply: Reply,
}

/// A journal: the entries in the order in which the market met their commands.
pub type Entries = Sequence<Entry>;
