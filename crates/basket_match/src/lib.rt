//! Baskets, planned on a row of desks, each of the hour of one of their orders.
//!
//! [`plan_basket`] answers the market's reply to a basket and plans on each desk what the reply has of the desk's
//! hour: each order enters on the desk of its hour, and none does where one of them is not filled.
//!
//! Quantities are lots, tenths of a MW. Prices are cents per MWh.
#![tactic(auto)]

mod basket;
mod orders;

pub use basket::plan_basket;
pub use joint_plan::{Desks, HourDesk, carry_all, plan_joint, refuse, undo_all};
