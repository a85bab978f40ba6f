//! The sums that a schedule shows.

use crate::Rows;

/// What is carried and what is traded, in lots, by the place of the quarter in the day.
#[derive(Drop)]
pub(crate) struct Sums {
    /// What trades carry over each border, forward and back.
    pub(crate) traded: Rows,

    /// What is granted without a trade on each border, forward and back.
    pub(crate) granted: Rows,

    /// What each zone has sold, and what it has bought.
    pub(crate) positions: Rows,
}
