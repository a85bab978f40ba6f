//! An hour as a desk keeps it: its events, the book of its orders, the book of its blocks and its flows,
//! changed in place with each event, and taken back all at once.
//!
//! A [`KeptHour`] is a board, so that the matchers work on it. Its first events are settled; those behind
//! them are planned, and [`KeptHour::undo`] drops these. Each call that adds an event asks that the events
//! with it are the hour's of some history over the grid.
//!
//! Quantities are lots, tenths of a MW. Prices are cents per MWh. A moment is a place among the hour's
//! events, counted from 1.
#![tactic(auto)]

mod blocks;
mod board;
mod capacity;
mod changed;
mod changes;
mod cutting;
mod dealing;
mod deals;
mod hour;
mod legs;
mod parts;
mod showing;

pub use blocks::entered_block;
pub use hour::KeptHour;
pub use parts::{number_of, quarters_in_range};
pub use zone_graph::NoMemory;
