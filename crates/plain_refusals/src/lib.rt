//! Why a command is refused, from the list of events alone: whether a command whose names are there
//! meets an order that it can change, hours that are open and capacity that is there; and why an order
//! cannot be filled, by the zones that its taking could still reach at its end and the most that it
//! could have obtained of them and from outside them. Nothing is kept from one call to the next.
//!
//! All quantities are lots, tenths of a MW; all prices are cents per MWh.
#![tactic(auto)]

mod capacity;
mod closing;
mod crossing;
mod orders;
mod state;
mod unfilled;

pub use state::refuse_by_state;
pub use unfilled::{bound, zones_in_reach};
