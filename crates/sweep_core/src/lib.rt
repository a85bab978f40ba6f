//! The sweep of an hour, on a board: resting orders that can trade do, until none can.
//!
//! Quantities and rooms are lots, tenths of a MW; prices are cents per MWh.
#![tactic(auto)]

mod buys;
mod marks;
mod part_set;
mod parts;
mod sells;
mod sweeping;

pub use part_set::PartSet;
pub use parts::may_open;
pub use sweeping::{sweep, sweep_opened};
