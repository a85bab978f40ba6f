//! The next deal of blocks, over a book of the blocks that rest and the rooms of a period.
//!
//! Blocks trade wholly or not at all, each with one other block of its period and quantity: the
//! first of the opposite line in priority whose price crosses and for which the pour over the
//! period's rooms carries the whole quantity.
//!
//! Quantities and rooms are lots, tenths of a MW; prices are cents per MWh.
#![tactic(auto)]

mod deal;
mod laws;
mod matching;
mod partner;
mod pouring;

pub use deal::BlockDeal;
pub use laws::{
    entering_blocks_deal_as_in_the_market, open_blocks_deal_as_in_the_market,
    periods_deal_as_in_the_market,
};
pub use matching::{match_block, match_resting};
