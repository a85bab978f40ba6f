//! What each event makes of the books and flows of an hour, said of the hour's own events: the flows
//! stand for a list of events, and refuse an offer or a request for capacity as it does. These are
//! theorems about definitions, each the contract of a function that does nothing.
#![tactic(auto)]

mod blocks;
mod calls;
mod changes;
mod counts;
mod flows;
mod next;
mod orders;
mod quarters;
mod refusing;
mod standing;

pub use blocks::{block_legs_are_made, blocks_enter, closed_blocks_are_gone};
pub use calls::{
    block_legs_can_be_carried, grants_can_be_made, legs_can_be_carried, offers_can_be_made,
};
pub use changes::{
    block_legs_stand, gates_stand, grants_stand, halts_stand, legs_stand, offers_stand,
    other_events_leave_the_flows, resumptions_stand,
};
pub use counts::all_that_rests_is_in_the_books;
pub use flows::{
    flow_events_leave_the_books, grants_fit_the_flows, halts_fit_the_flows, offers_fit_the_flows,
    resumptions_fit_the_flows,
};
pub use next::{
    first_of_many_are_hours, first_parts_are_hours, hours_begin_empty, next_events_fit,
};
pub use orders::{
    closed_orders_are_gone, legs_are_made, orders_enter_in_hand, reductions_are_made,
    withdrawals_are_made,
};
pub use quarters::{
    nothing_is_carried, nothing_is_offered, quarters_are_carried_in_turn,
    quarters_are_offered_in_turn,
};
pub use refusing::{
    one_hour_refuses_offers_alike, one_hour_refuses_requests_alike, quarter_flows_are_the_markets,
    quarter_rooms_are_the_markets, ranges_refuse_offers_hour_by_hour,
    ranges_refuse_requests_hour_by_hour,
};
pub use standing::{
    flows_begin_idle, hours_have_their_flows, remaining_is_the_markets, rooms_are_the_markets,
};
