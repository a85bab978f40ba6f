//! What the kept state of one hour refuses: the market's rules on the state of orders, hours and capacity,
//! answered from the hour's books and flows. No memory is taken, and the events are not gone through.
//!
//! All quantities are lots, tenths of a MW.
#![tactic(auto)]

mod capacity;
mod closing;
mod found;
mod orders;
mod owning;
mod state;
mod told;

pub use capacity::{refuse_offer, refuse_request};
pub use closing::is_closed;
pub use owning::{Own, own_of};
pub use state::refuse_by_state;
