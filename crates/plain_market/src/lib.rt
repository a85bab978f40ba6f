//! The plain market: the reply to a command, from the list of all events before it and nothing
//! else. It keeps no order book, no flows and no rows: what rests, what flows and what a view shows is
//! summed up from the events at each command. Of the orders of an hour alone the sums may be kept from one
//! command to the next: they take in the events that have come since.
//!
//! Quantities are lots, tenths of a MW; prices are cents per MWh.
#![tactic(auto)]

mod basket;
mod blocks;
mod border_events;
mod changes;
mod entering;
mod filling;
mod gates;
mod judging;
mod local_view;
mod maker;
mod replying;
mod rows;

pub use replying::{reply, reply_and_append};
