//! Load for a market: large sessions that are drawn by a fixed generator of numbers, and the
//! summary of the journal that such a session leaves.
//!
//! A session's text depends on the number of its commands alone, so that two runs, or two
//! programs, can be compared on the same load.
#![tactic(auto)]

mod commands;
mod drawn_lines;
mod draws;
mod session;
mod totals;

pub use session::session_text;
pub use totals::summary;
