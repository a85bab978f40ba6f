//! The peak of an iceberg order that shows, from what is filled of it.
//!
//! An iceberg shows only one peak of its total at a time. The peaks stand one behind the other and
//! are filled in order, each dearer by a delta than the one before if the order sells, and cheaper
//! by it if the order buys. So the total, the peak, the delta, the entry price and the lots that
//! are filled say which peak shows, how much of it is left, and at which price.
//!
//! Quantities are lots, tenths of a MW. Prices are cents per MWh. That an iceberg shows one peak at
//! a time is in the NEMO Committee's public description of the single intraday coupling; the exact
//! rule is this project's own. No function here takes memory.
#![tactic(auto)]

mod laws;
mod peak;

pub use laws::{
    filled_peak_makes_way_for_the_next, open_iceberg_shows_something, peaks_hold_what_is_left,
};
pub use peak::{left_of_peak, number_now, price_now, price_of_peak, shown};
