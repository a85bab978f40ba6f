//! The orders that rest in the contracts of one hour, in priority.
//!
//! A [`ContractBook`] has a line for each part of the hour and each side of the market, in which
//! orders stand by the better price, then the earlier moment, then the smaller number. Its orders
//! are in one pool of 4096 places, and each line is linked through it. All memory is taken when a
//! book is made or copied.
//!
//! Quantities are lots, tenths of a MW. Prices are cents per MWh. A moment is a place in time that
//! the caller counts.
#![tactic(auto)]

mod book;
mod faults;
mod held;
mod places;
mod resting;

pub use book::ContractBook;
pub use faults::Full;
pub use resting::{Ice, Resting};
pub use zone_graph::NoMemory;
