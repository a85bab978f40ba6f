//! The graph of bidding zones: names of zones, the borders that join them, the room on each arc of
//! a border, and the routes over borders that energy takes. Below it stand the small values that every other crate is built of:
//! lists, words and texts that contracts see as plain lists.
#![tactic(auto)]

mod grid;
mod grid_parts;
mod laws;
mod memory;
mod rooms;
mod route;
mod sequence;
mod word;

pub use grid::{Grid, GridFault, MOST_BORDERS, MOST_ZONES, Neighbour};
pub use laws::{
    no_best_route_where_no_route_is, no_route_beats_the_best, rooms_of_arcs_decide_the_best_route,
    zones_are_reached_by_routes,
};
pub use memory::{Duplicate, NoMemory};
pub use rooms::Rooms;
pub use route::{Arc, Legs, Pairs, Route, RouteLeg, Zones};
pub use sequence::Sequence;
pub use word::{Names, Text, Word, is_name};
