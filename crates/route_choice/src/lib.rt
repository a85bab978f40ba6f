//! The best route between two zones of a grid, trees of the best routes between one zone and all others,
//! and what several routes carry together.
#![tactic(auto)]

mod choice;
mod laws;
mod pouring;
mod reading;
mod search;
mod tree;

pub use choice::best_route;
pub use laws::{
    fresh_searches_exclude, legs_keep_exclusion, no_flow_carries_more, pours_run_to_their_end,
    short_legs_keep_searches,
};
pub use pouring::pour;
pub use tree::RouteTree;
