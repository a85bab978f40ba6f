//! A market on one thread: a desk for each hour of the delivery day, of which a command is lent those that it touches, and
//! the journal of all that was done. A session is played on it in the order of its lines.
#![tactic(auto)]

mod day;
mod market;
mod planning;
mod playing;
mod waiting;

pub use market::DeskMarket;
pub use playing::{journal_of, market_of};
pub use waiting::Waiting;
pub use zone_graph::NoMemory;
