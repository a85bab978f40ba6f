//! The local views of one hour: what a taker of any quantity at any price would take of its resting
//! orders, for each part, side and zone, kept and refreshed near a change.
#![tactic(auto)]

mod balance;
mod cuts;
mod draft;
mod filling;
mod footing;
mod laws;
mod listing;
mod nearness;
mod part_views;
mod replacing;
mod still_standing;
mod taker;
mod views;
mod walk;
mod ways;
mod whole;
mod work;

pub use laws::{
    certified_rows_are_views, replaced_orders_behind_cuts_change_nothing, whole_lines_are_views,
};
pub use views::LocalViews;
