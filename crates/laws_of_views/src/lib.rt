//! A view depends only on what is in its reach, and in which zones events change what it sees; it shows
//! the most that a taker of any quantity can obtain.
#![tactic(auto)]

mod changes;
mod nearby;
mod places;

pub use changes::{
    changes_of_an_hour_stay_within, changes_stay_within, differences_join, differences_widen,
    events_stay_within, named_orders_have_the_zones, orders_change_in_their_zones,
    other_events_change_no_orders, zones_of_events_are_of_the_grid,
};
pub use nearby::{
    reach_changes_nearby, routes_depend_on_what_is_reached, routes_depend_on_what_reaches,
    views_change_nearby,
};
pub use places::{
    each_place_gets_the_most, each_place_in_journals_gets_the_most, each_place_takes_a_plan,
    views_add_up_to_their_bound, views_have_their_takers_bound, views_in_journals_add_up,
    views_take_no_more_than_is_open,
};
