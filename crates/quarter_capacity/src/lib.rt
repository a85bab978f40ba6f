//! The capacity of a border in one quarter of an hour.
//!
//! A border joins two zones and has two arcs, one in each direction. Capacity is offered on each
//! arc, and flows in opposite directions net: what is allocated on one arc adds to what remains on
//! the other. So one running number says all of what is allocated on the two: the flow over the
//! forward arc. That opposite flows net is in the public descriptions of cross-border capacity;
//! the limit of what is offered is this project's own.
//!
//! All numbers are lots, tenths of a MW. No function here takes memory.
#![tactic(auto)]

mod laws;
mod row;

pub use laws::{
    flows_are_opposite, offers_keep_the_flow, opposite_flows_net, taking_moves_the_flow,
};
pub use row::{BelowFlow, MOST_OFFERED, MOST_REMAINING, QuarterRow};
