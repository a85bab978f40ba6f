//! What the market answers.

use crate::event::Events;
use crate::refusal::Refusal;
use order_kinds::Price;
use zone_graph::{Duplicate, NoMemory, Sequence};

/// One row of a view: what can be traded at one price with one resting order.
#[derive(Clone, Copy, Debug, PartialEq, Eq)]
pub struct ViewRow {
    /// The resting order's price, in cents per MWh.
    pub price: Price,
    /// How much of it, in lots (tenths of a MW).
    pub lots: u32,
}

/// The rows of a view, in the order in which a taker would trade.
pub type Rows = Sequence<ViewRow>;

/// The answer to a command.
#[derive(Debug, Drop, PartialEq, Eq)]
pub enum Reply {
    /// It was done, with these events.
    Done(Events),
    /// It asked for a view, which has these rows.
    Seen(Rows),
    /// It was refused.
    Refused(Refusal),
}

impl Duplicate for Reply {
    fn copy(&self) -> Result<Reply, NoMemory> {
        Ok(match self {
            Reply::Done(events) => Reply::Done(events.copy()?),
            Reply::Seen(rows) => Reply::Seen(rows.copy()?),
            Reply::Refused(refusal) => Reply::Refused(refusal.copy()?),
        })
    }
}
