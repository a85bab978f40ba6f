//! What a taking obtains is the most that could flow: certified by a set of zones and its bound.
#![tactic(auto)]

mod blocks;
mod examples;
mod journals;
mod plans;
mod rooms;
mod takings;
mod unfilled;

pub use blocks::blocks_are_passed_over_for_want_of_room;
pub use examples::falling_iceberg_stops_short;
pub use journals::journals_obtain_the_most;
pub use plans::{no_plan_beats_a_bound, no_plan_beats_the_bound};
pub use rooms::{legs_leave_the_rooms, takings_leave_the_rooms, takings_open_no_way};
pub use takings::{takings_obtain_the_most, takings_reach_their_bound};
pub use unfilled::{
    basket_unfilled_is_certified, journals_refuse_as_certified,
    journals_refuse_baskets_as_certified, unfilled_is_certified,
};
