//! Orders enter a kept hour: what becomes of one is planned there, or it is refused and nothing is. Why
//! an order cannot be filled is told from the book and the rooms that the hour keeps: by the zones that
//! its taking could still reach at its end, and the most that it could have obtained of them and from
//! outside them.
//!
//! Quantities and rooms are lots, tenths of a MW; prices are cents per MWh.
#![tactic(auto)]

mod certificate;
mod crossing;
mod ending;
mod entering;
mod laws;
mod obstacle;
mod opening;
mod taking;

pub use certificate::{bound, zones_in_reach};
pub use entering::enter_order;
pub use laws::{
    bounds_are_those_of_the_line, entries_leave_the_bound, records_tell_what_crosses,
    rooms_of_events_fit,
};
