//! The orders and blocks of an hour as they stand after a list of events, and nothing else: what is
//! filled and left of each, what it shows and at which price, its moment, and the lines of the order
//! book in priority.
//!
//! No order book is kept. The sums of all orders and blocks of an hour are taken in one pass over
//! the events; sums that a caller holds take in the events that have come since, and those of each hour
//! can be kept from one command to the next. All quantities are lots, tenths of a MW; all prices are cents
//! per MWh.
#![tactic(auto)]

mod day_sums;
mod hour;
mod lines;
mod naming;
mod owning;
mod part_prices;
mod placed;
mod standing;
mod sums;
mod tally;

pub use day_sums::DaySums;
pub use hour::{blocks_of, open_names, open_orders, open_orders_over, withdrawals};
pub use lines::{
    best_price, block_line, block_lines_are_of_blocks, goes_first, is_in_line, line,
    lines_are_of_orders,
};
pub use naming::{next_name, next_name_over};
pub use owning::{
    DESK_ROOM, has_desk_room, has_desk_room_over, has_own, open_block, open_order, own_limit,
};
pub use part_prices::{BestPrices, PartPrices};
pub use placed::{PlacedBlock, PlacedOrder};
pub use standing::{StandingBlock, StandingOrder};
pub use sums::{left, left_over};
pub use tally::{OrderSums, sum_orders};
