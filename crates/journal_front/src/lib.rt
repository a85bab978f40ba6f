//! The front of the journal: one word that counts its entries, and the seats on it.
#![tactic(auto)]

mod desks;
mod front;
mod hours;
mod opening;
mod places;
mod rule;
mod seats;
mod view;

pub use front::Front;
pub use hours::HourSeats;
pub use rule::{JournalRule, each_step_keeps_the_rule};
pub use seats::{DeskSeat, DeskSeats, JournalSeat, PassSeat, PassSeats};
pub use view::{Standing, View};
