//! What an hour keeps: its books and its flows, changed in place.
//!
//! An [`HourStore`] has the orders and the blocks that rest in an hour, and the hour's flows. Each
//! call changes them in place, and notes before the change what brings the old state back. So all
//! changes since the last [`HourStore::settle`] are taken back at once by [`HourStore::undo`].
//! Memory is taken beforehand, by [`HourStore::reserve`]; no other call but [`HourStore::new`] takes
//! any.
//!
//! Quantities are lots, tenths of a MW. Prices are cents per MWh. A moment is a place in time that
//! the caller counts.
#![tactic(auto)]

mod change;
mod changed;
mod faults;
mod flows;
mod kept;
mod orders;
mod store;

pub use change::Change;
pub use changed::{
    ChangedBorders, ChangedZones, borders_change_where_noted, flows_change_where_noted,
    lines_change_in_their_zones,
};
pub use faults::Full;
pub use store::HourStore;
pub use zone_graph::NoMemory;
