//! The local views of an hour as a desk keeps them: as the hour is settled, and beside them as it is
//! planned, made anew near what the plan has changed.
//!
//! [`DeskViews::refresh`] asks a kept hour in which zones orders have changed, and, over the borders whose flows
//! have, for the rooms; only the rows that these changes can reach are computed. [`DeskViews::adopt`] keeps what
//! was made once the plan is settled, and [`DeskViews::forget`] drops it.
//!
//! Quantities are lots, tenths of a MW. Prices are cents per MWh.
#![tactic(auto)]

mod desk;
mod refreshing;
mod rooms;

pub use desk::DeskViews;
pub use zone_graph::NoMemory;
