//! The blocks that rest and start in one hour, in priority.
//!
//! A block is of a period: it starts in the hour of its book, and ends with the hour that its
//! record names as its last. A [`BlockBook`] has a line for each period and side of the market, in
//! which the blocks of all quantities stand by the better price, then the earlier moment, then the
//! smaller number, and such a line for each quantity besides. Its blocks are in one pool of 4096
//! places, and the lines are linked through it. All memory is taken when a book is made or copied.
//!
//! Quantities are lots, tenths of a MW. Prices are cents per MWh. A moment is a place in time that
//! the caller counts.
#![tactic(auto)]

mod block;
mod book;
mod faults;
mod ladder;
mod line_key;

pub use block::RestingBlock;
pub use book::BlockBook;
pub use faults::Full;
pub use zone_graph::NoMemory;
