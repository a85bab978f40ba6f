//! The events of a market so far, with those of each hour at hand: so that what concerns one hour need
//! not pass over the events of all. It is no order book: contracts see the one list of events.
#![tactic(auto)]

mod by_hour;
mod history;
mod touching;

pub use history::History;
pub use touching::touches;
pub use zone_graph::NoMemory;

#[cfg(test)]
mod tests;
