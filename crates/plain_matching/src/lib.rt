//! The legs of an order that comes in, those of an hour's sweep and those of blocks, from the list of events
//! and nothing else: each leg is made from what all events as they then are come to, over the best route. No
//! order book is kept. From one leg to the next of an order or a sweep stay the sums of the hour, which take in
//! the events that came since. Blocks trade wholly or not at all, each with one other of its period and quantity.
//!
//! Quantities are lots, tenths of a MW; prices are cents per MWh.
#![tactic(auto)]

mod block_matching;
mod block_taking;
mod cutting_back;
mod deal;
mod hour_sums;
mod partner;
mod pouring;
mod routes;
mod sweeping;
mod taking;
mod trade;

pub use block_matching::match_deals;
pub use block_taking::take_block;
pub use cutting_back::cut_back;
pub use hour_sums::HourSums;
pub use routes::{best_route, is_reached};
pub use sweeping::{sweep, sweeps};
pub use taking::take;
