//! The journal of a session: its callers' commands are given in the order of its lines, and each gets the
//! market's reply. It is defined in `specs/`; here stand its laws, and the grid that it is over.
#![tactic(auto)]

mod grid;
mod laws;

pub use grid::grid_of;
pub use laws::{each_command_once, entries_name_what_the_setup_has};
pub use zone_graph::NoMemory;
