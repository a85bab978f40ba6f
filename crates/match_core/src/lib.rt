//! The matching of an order that comes in, on a board.
//!
//! Quantities and rooms are lots, tenths of a MW; prices are cents per MWh.
#![tactic(auto)]

mod taker;
mod taking;
mod walk;

pub use taker::Taker;
pub use taking::take;
