//! A run of the program: the words of the command line, a session that is read from a source or
//! generated, the market that plays it or the venue where it is traded, and the journal or its
//! summary written to a sink.
#![tactic(auto)]

mod generating;
mod players;
mod recovering;
mod running;
mod sessions;
mod storing;

pub use running::{run, run_alone};
pub use session_io::{Status, message};
