//! What a command of several hours does, hour by hour: laws about definitions, each the contract of a
//! function that does nothing.
#![tactic(auto)]

mod baskets;
mod entering_blocks;
mod going_on;
mod matching_blocks;
mod period_rooms;
mod ranges;
mod state_refusals;
mod sweeps;

pub use baskets::{
    baskets_are_done_hour_by_hour, baskets_are_refused_hour_by_hour, orders_enter_hour_by_hour,
    orders_have_their_hours, orders_leave_other_hours,
};
pub use entering_blocks::{
    blocks_enter_hour_by_hour, blocks_find_room_in_their_first_hour, entries_go_on_in_hours,
    entries_of_an_hour, entry_deals_close_both,
};
pub use going_on::{fitting_events_go_on_in_hours, replies_go_on_in_hours};
pub use matching_blocks::{
    blocks_match_hour_by_hour, matches_are_the_reply, matches_of_an_hour,
    next_deals_go_on_in_hours, period_deals_go_on_in_hours, periods_find_their_next_deal,
    periods_have_their_deals,
};
pub use period_rooms::period_rooms_are_the_least_of_hours;
pub use ranges::{
    ranges_are_done_hour_by_hour, ranges_of_an_hour, ranges_touch_their_hours,
    shared_events_are_swept_hour_by_hour, shared_events_of_an_hour,
};
pub use state_refusals::{
    hours_are_closed_by_themselves, offers_are_refused_hour_by_hour,
    requests_are_refused_hour_by_hour, state_refuses_hour_by_hour,
};
pub use sweeps::{sweeps_are_hour_by_hour, sweeps_of_an_hour};
