//! The desk of one delivery hour: it plans what a command does there in place, and carries it or takes it
//! back.
//!
//! A [`HourDesk`] keeps the hour and its local views. [`HourDesk::plan`] answers the market's reply to a command
//! that touches the hour alone; [`HourDesk::carry`] settles what it planned, and [`HourDesk::undo`] drops it.
//! Neither of these takes memory.
//!
//! Quantities are lots, tenths of a MW. Prices are cents per MWh.
#![tactic(auto)]

mod changing;
mod copying;
mod desk;
mod part;
mod part_work;
mod planning;
mod ranges;
mod replying;
mod sharing;

pub use copying::events_from;
pub use desk::HourDesk;
pub use desk_changes::entered_block;
pub use part_work::{BlockDeals, BlockEntry, PartWork};
pub use ranges::range_work;
pub use zone_graph::NoMemory;
