//! Laws of boards: what the market's legs make of the hour that a board stands for, and what may follow
//! its events. A taking walks the opposite line once: whom a taker has passed over it can never trade
//! with again. Of a line the first order of each zone decides who can trade first; and which contracts
//! a sweep need not look at after one event is told as well.
#![tactic(auto)]

mod boards;
mod entering;
mod fronts;
mod hours;
mod quiet;
mod settled;
mod takers;
mod walking;

pub use boards::{
    board_sweeps_are_runs, board_takings_are_runs, legs_leave_a_board, legs_lower_the_hour,
    next_legs_can_be_made, sweep_legs_can_be_made, walks_go_on,
};
pub use entering::{basket_entries_fit, block_entries_fit, entries_fit};
pub use fronts::{
    first_buys_decide, partners_stand_in_front, uncrossed_contracts_have_no_leg,
    unopened_contracts_have_no_leg,
};
pub use hours::{
    entries_stay_hours, fits_in_its_hour, prefixes_are_hours, replies_stay_hours,
    sweeps_stay_hours, takings_stay_hours, withdrawals_stay_hours,
};
pub use quiet::{
    block_entries_stay_quiet, block_legs_stay_quiet, entries_stay_quiet,
    events_raise_their_arcs_alone, events_stay_quiet_where_there_was_room, gates_stay_quiet,
    grants_stay_quiet, halts_stay_quiet, legs_stay_quiet, legs_stay_quiet_apart, offers_stay_quiet,
    other_hours_stay_quiet, reductions_stay_quiet, resumptions_stay_quiet,
    takers_leave_their_contract_quiet, takers_of_an_hour_leave_their_contract_quiet,
    unopened_contracts_stay_quiet, withdrawals_stay_quiet,
    withdrawn_takers_leave_their_contract_quiet,
};
pub use settled::{settled_hours_are_quiet, uncrossed_hours_are_settled};
pub use takers::{board_takers_pass_for_good, board_takings_obtain_the_most, legs_stay_behind};
pub use walking::{fills_stay_behind, fills_stay_in_their_line, takers_pass_for_good};
