//! The text of a trading session: the delivery day, the bidding zones and their borders, the
//! callers, and the commands that they give.
//!
//! A text becomes a [`Session`], or it is refused at its first bad line.
#![tactic(auto)]

mod callers;
mod fault;
mod header;
mod reader;
mod session;

pub use fault::TextFault;
pub use session::{PerCaller, Session, Turns, read_session};
