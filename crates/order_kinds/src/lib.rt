//! The kinds of orders of a continuous intraday power market, and what can be said of an order's
//! own numbers: the ranges of its price and its quantity, and the peaks of an iceberg.
//!
//! Quantities are lots, tenths of a MW. Prices are cents per MWh. Limit, immediate-or-cancel,
//! fill-or-kill and iceberg orders, and blocks that are matched whole, are those of the NEMO
//! Committee's public description of the single intraday coupling; all ranges and limits, and
//! the exact rule of an iceberg's peaks, are this project's own.
#![tactic(auto)]

mod contract;
mod order;
mod phase;
mod price;
mod side;

pub use contract::{Contract, Part, Quarter};
pub use order::{
    BlockOrder, Kind, Order, OrderFault, OrderName, check_block, check_order, peak_cents,
};
pub use phase::Phase;
pub use price::{Lots, Price};
pub use side::Side;
