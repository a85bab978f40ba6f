//! What a market of continuous intraday trading is made of: the commands that its callers give,
//! the events that they bring about, the replies, and the journal's entries.
//!
//! Zones, borders, callers and hours are numbers: zones, borders and callers from 0 in the order
//! of their declaration, hours from 1 through the delivery day.
#![tactic(auto)]

mod asked;
mod board;
mod command;
mod copying;
mod early_rules;
mod entry;
mod event;
mod hours;
mod refusal;
mod reply;
mod setup;
mod touched_hours;
mod who;

pub use asked::Asked;
pub use board::{Board, Shown};
pub use command::{Command, Commands, Orders};
pub use early_rules::refuse_early;
pub use entry::{Entries, Entry};
pub use event::{Event, Events, Leg};
pub use hours::Hours;
pub use order_kinds::{
    BlockOrder, Contract, Kind, Lots, Order, OrderFault, OrderName, Part, Phase, Price, Quarter,
    Side, check_block, check_order,
};
pub use refusal::Refusal;
pub use reply::{Reply, Rows, ViewRow};
pub use setup::{Caller, Callers, Role, Setup};
pub use touched_hours::touches;
pub use who::{Who, current_lists_miss_nothing};
pub use zone_graph::{
    Arc, Duplicate, Legs, Names, NoMemory, Pairs, Route, RouteLeg, Sequence, Text, Word, Zones,
};
