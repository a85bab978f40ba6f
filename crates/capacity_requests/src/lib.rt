//! What a network operator offers and what a trader requests, tested against the flows of an hour:
//! which quarter refuses it. An offer must cover what flows already; a request for capacity must
//! find room in each quarter. Both are explicit, as against the implicit allocation by trades.
#![tactic(auto)]

mod requests;

pub use requests::{test_offer, test_request};
