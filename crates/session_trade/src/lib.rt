//! A session is traded: each caller gives its commands on a thread of its own, at a venue that they share. Whatever
//! turns the threads take, what comes of it is the journal of the session with its callers in some order.
#![tactic(auto)]

mod callers;
mod trading;
mod working;

pub use trading::trade_session;
pub use working::work;
pub use zone_graph::NoMemory;
