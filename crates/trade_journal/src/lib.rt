//! The journal that the market's runs keep: legal by its type. Beside it stands a count of entries for each caller.
#![tactic(auto)]

mod counts;
mod journal;

pub use counts::Counts;
pub use journal::Journal;
