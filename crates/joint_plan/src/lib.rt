//! Commands of several hours, planned on a row of desks, each of an hour of its own.
//!
//! [`plan_joint`] answers the market's reply to a command and plans on each desk what the reply has of the desk's
//! hour; [`carry_all`] settles what they plan, and [`undo_all`] drops it. The value that has the desks is any
//! [`Desks`].
//!
//! Quantities are lots, tenths of a MW. Prices are cents per MWh.
#![tactic(auto)]

mod alone;
mod desks;
mod entering;
mod joint;
mod matching;
mod parts;
mod period_rooms;
mod ranges;
mod refusing;
mod undoing;

pub use desks::Desks;
pub use hour_desk::HourDesk;
pub use joint::plan_joint;
pub use refusing::refuse_closed;
pub use undoing::{carry_all, refuse, undo_all};
