//! Small grids, rooms on their arcs and legs over them, for the tests of the crates beneath and above.
#![tactic(auto)]

mod grids;
mod rooms;

pub use grids::{diamond, grid_of, ring_of_twelve, two_zones};
pub use rooms::{legs_over, rooms_of, rooms_of_diamond};
