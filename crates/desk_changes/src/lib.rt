//! What changes an hour other than an order that enters: capacity is offered and granted, borders are
//! halted and resumed, the hour moves to a later phase, a block enters and may trade at once, deals of a period are made, and the
//! deals of the resting blocks of a period are found. Each call plans its part on one hour, the events and what they bring about
//! there, with the sweep of the hour.
//!
//! As settled, nothing is left to trade in the hour. So a sweep looks only at the parts over which an
//! arc has room now and had none before; behind an entry and deals, which change no other order, it is made only where a leg of a
//! deal goes over an arc whose opposite arc had no room; after a halt and a gate none is made.
//!
//! Quantities are lots, tenths of a MW. Prices are cents per MWh.
#![tactic(auto)]

mod capacity;
mod closing;
mod dealing;
mod entering;
mod halting;
mod leg_openings;
mod matching;
mod openings;
mod rooms;
mod still_open;
mod sweeping;

pub use capacity::{grant, offer};
pub use closing::gate;
pub use dealing::make_deals;
pub use entering::enter_block;
pub use halting::{halt, resume};
pub use kept_hour::{KeptHour, entered_block, number_of};
pub use matching::match_period;
pub use zone_graph::NoMemory;
