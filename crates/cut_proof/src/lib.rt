//! What fits between zones. How far the zones of a grid are from one of them is found by a search over
//! arcs that have room. The room of the borders around a set of zones bounds what can be carried into it or out
//! of it. What a route can carry is told with the rooms that it leaves, and what a leg carries changes the room around a
//! set by just its lots.
#![tactic(auto)]

mod bound;
mod laws;
mod over_routes;
mod reached;
mod search;
mod zone_set;

pub use bound::border_bound;
pub use laws::{
    inner_legs_keep_the_cut, legs_in_take_entering_room, legs_out_take_leaving_room,
    no_room_enters_the_zones_towards, no_room_leaves_the_zones_beyond,
    reach_from_a_start_does_not_grow, reach_to_an_end_does_not_grow, routes_use_borders_once,
};
pub use over_routes::{carried, carry};
pub use reached::reach;
pub use search::{Distances, distances};
