//! The laws of the market: theorems about its definitions, each the contract of a function that does
//! nothing. They say what stays true as histories grow event by event; what bounds every history and
//! every reply; that a reply depends on the events of the hours that its command touches alone; that
//! nobody is passed over in the queue; that no book is left crossed; and that half hours change
//! nothing for those who name none. The lemmas behind them stand in `proofs/` for the crates above.
#![tactic(auto)]

mod bounds;
mod capacity;
mod halves;
mod histories;
mod hour_lists;
mod locality;
mod moments;
mod refusals;
mod repetitions;
mod reply_bounds;
mod turns;
mod uncrossed_books;

pub use bounds::{
    capacity_adds_up, few_are_open, hours_go_on_alone, little_is_left, moments_differ,
    prices_stay_in_range, replies_leave_few_open, trades_and_withdrawals_alone_close,
};
pub use capacity::{
    capacity_remains, nothing_is_oversold, offers_cover_the_flow, replies_leave_capacity,
    replies_oversell_nothing,
};
pub use halves::{halves_change_no_other_reply, halves_change_nothing_else, replies_stay_halfless};
pub use histories::{
    block_legs_lower_both, journals_are_histories, legs_lower_both, names_are_given_once,
    nothing_falls_below_zero, orders_show_what_is_left, replies_keep_histories,
};
pub use hour_lists::{
    block_lines_stand_alone, hours_answer_alone, lines_stand_alone, one_hour_answers_alone,
    sweeps_stand_alone, takings_stand_alone,
};
pub use locality::{
    events_stay_in_their_hours, journals_keep_to_their_hours, replies_are_local,
    replies_stay_within, touched_hours_decide,
};
pub use moments::{moments_are_kept, nobody_overtakes, replies_keep_moments};
pub use refusals::{only_its_rules_refuse, state_comes_second};
pub use repetitions::{deals_are_runs, pours_are_runs, sweeps_are_runs, takings_are_runs};
pub use reply_bounds::{replies_enter_few, replies_name_the_setup};
pub use turns::{
    none_is_passed_over, replies_pass_none_over, resting_orders_trade_first_buy_first,
    sweeps_begin_with_the_first_buy, takings_pass_none_over,
};
pub use uncrossed_books::{
    nothing_is_left_to_trade, reductions_enable_no_trade, replies_keep_books_uncrossed,
    withdrawals_enable_no_trade,
};
