//! The desks of the hours of a delivery day, each under a lock of its own.
//!
//! A [`DeskRow`] has the desk of each hour and the desk's seat on the journal's word. [`DeskRow::hold`] takes the
//! locks of some hours and hands out their desks and seats, a [`Held`]; [`Held::give_back`] puts them back. While they
//! are held they may disagree; whenever a lock is taken, the desk stands where the list in its seat leaves it.
#![tactic(auto)]

mod held;
mod home;
mod row;

pub use held::Held;
pub use joint_plan::{Desks, HourDesk, carry_all, plan_joint, refuse, undo_all};
pub use row::DeskRow;
pub use zone_graph::NoMemory;
