//! The capacity that a list of events leaves, computed anew from the events alone: what is offered
//! and what flows on each arc in each quarter of an hour, which borders are halted, the phase, and
//! the rooms that follow. Nothing is kept from one call to the next, but for the capacity of an hour that a
//! caller holds while it asks for the rooms of several contracts, or again when more events have come.
//!
//! All numbers are lots, tenths of a MW. The quarters of an hour are numbered from 1 to 4.
#![tactic(auto)]

mod hour;
mod phases;
mod quarter;
mod rooms;

pub use hour::{HourCapacity, hour_capacity};
pub use phases::{is_halted, phase_of};
pub use rooms::{CapacitySums, block_rooms, contract_rooms, contract_rooms_over};
