//! The venue: where traders and operators meet, each from a thread of its own.
//!
//! [`Venue::open`] gives a venue, and a pass for each caller. A caller submits its commands with its pass, and gets the
//! market's replies; together they are one legal journal, as if all commands had come on one thread.
#![tactic(auto)]

mod faults;
mod passes;
mod planning;
mod shared;
mod venue;

pub use faults::{OpenFault, SubmitFault};
pub use passes::Passes;
pub use trader_pass::Pass;
pub use venue::{Receipt, Venue};
pub use zone_graph::{GridFault, NoMemory};
