//! What seats on the journal's word know. No value of these types is made: proofs alone see them.

use market_model::{Entry, Setup, Who};
use std::collections::LinkedList;

/// How someone stands to the journal.
pub struct Standing {
    /// The hour or the caller.
    pub who: Who,
    /// A beginning of the journal that is current for them.
    pub entries: LinkedList<Entry>,
    /// The greatest number that was loaded for them.
    pub known: u64,
}

/// What a seat knows.
pub struct View {
    /// The setup, which is the same for all seats.
    pub setup: Setup,
    /// Whether the seat is still there: one that was joined into another is not.
    pub live: bool,
    /// Whether it is the journal's seat.
    pub leads: bool,
    /// Of the journal's seat, the journal.
    pub entries: LinkedList<Entry>,
    /// The standings that it has: of the journal's seat those that were joined into it, of any other
    /// seat its own.
    pub standings: LinkedList<Standing>,
}
