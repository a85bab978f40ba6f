//! The flows of one hour over the borders of a grid: what is offered, what flows and what remains on
//! each arc in each of the hour's quarters, which borders are halted, and the hour's phase.
//!
//! Flows in opposite directions net: what flows over an arc adds to what remains on the opposite one.
//! The room of an arc over several quarters is the least of what remains in them, and there is none
//! where the border is halted or the hour is not open.
//!
//! All numbers are lots, tenths of a MW. Only [`HourFlows::new`] and [`HourFlows::copy`] take memory.
#![tactic(auto)]

mod border;
mod borders;
mod hour;
mod quarter_set;

pub use hour::HourFlows;
pub use quarter_set::QuarterSet;
