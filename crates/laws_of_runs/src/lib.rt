//! What a run prints is one single-thread history of the market, as the contracts of functions that do nothing.
#![tactic(auto)]

mod history;

pub use history::{printed_journals_are_one_history, traded_journals_are_one_history};
