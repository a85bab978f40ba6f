//! How the words of a session text are spelled: numbers, prices, contracts, names of orders, dates,
//! instants, and the words that stand for themselves.
//!
//! Each reader answers the value that its bytes spell, and nothing where they are no spelling; the
//! definitions that the contracts cite say which value that is, for every list of bytes.
#![tactic(auto)]

mod dates;
mod hours;
mod numbers;
mod words;

pub use dates::{read_date, read_instant};
pub use hours::{read_contract, read_hour, read_order_name, read_quarter};
pub use numbers::{read_cents, read_price, read_quantity};
pub use words::{
    Heading, Verb, read_arc, read_heading, read_phase, read_side, read_verb, spells_name,
};
