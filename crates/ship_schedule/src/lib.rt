//! What operators ship after a session: the scheduled exchanges of borders and the net positions of
//! zones, quarter by quarter, of a journal. The sums stand in rows, by quarter of the delivery day and
//! by number.
//!
//! All sums are lots, tenths of a MW. A number that the rows do not have counts nothing.
#![tactic(auto)]

mod balance;
mod laws;
mod lines;
mod page;
mod party_index;
mod period;
mod rows;
mod shipping;
mod sums;
mod tally;

pub use balance::{Amount, Balance};
pub use laws::{
    exchanges_are_the_flow, positions_add_up_to_nothing, positions_are_what_borders_carry,
};
pub use period::{Period, quarter_at};
pub use rows::Rows;
pub use shipping::schedule;
