//! The book of an hour is the lines of the market's definitions, its book of blocks the market's open
//! blocks that start in it, and what each event makes of both: theorems about definitions, each the
//! contract of a function that does nothing.
#![tactic(auto)]

mod block_changes;
mod block_deals;
mod block_legs;
mod block_lines;
mod changes;
mod lines;

pub use block_changes::{
    blocks_come_to_rest, entering_numbers_are_free, other_events_leave_the_blocks,
    withdrawn_blocks_leave,
};
pub use block_deals::{
    deals_take_both_out, entering_deals_take_the_maker_out, partners_make_deals,
};
pub use block_legs::{closed_blocks_are_gone, legs_leave_the_other_blocks};
pub use block_lines::{
    block_books_are_books, block_books_are_their_lines, block_books_begin_empty,
    hours_have_their_block_books, no_more_blocks_rest_than_are_open, open_blocks_are_found,
    runs_keep_block_books,
};
pub use changes::{
    entries_come_to_rest, legs_fill_both, legs_fill_the_maker, other_events_leave_the_book,
    reductions_lessen, withdrawals_take_out,
};
pub use lines::{
    books_are_books, books_are_their_lines, books_begin_empty, hours_have_their_books,
    no_more_rest_than_are_open, open_orders_are_found, runs_keep_books,
};
