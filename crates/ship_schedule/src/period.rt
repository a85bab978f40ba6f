//! The quarters of a day by their places, and the periods for which something counts.

ghost use Rattle.std.specs.Prelude.{◌≡◌, ℕ, ◌+◌, ◌*◌, ◌<◌, ◌≤◌, true};
ghost use Rattle.ship_schedule.specs.Places as places;

use order_kinds::{Contract, Quarter};

/// The quarter at a place of the delivery day, counted from 0: four quarters of each hour, and the
/// hours from 1.
pub fn quarter_at(place: u64) -> Quarter
    requires { place < 17179869180 }
    ensures { result ≡ places.quarter_at place }
{
    Quarter {
        hour: (place / 4 + 1) as u32,
        number: (place % 4 + 1) as u32,
    }
}

/// For which quarters something counts.
#[derive(Clone, Copy, Debug, PartialEq, Eq)]
pub enum Period {
    /// Those of a contract.
    Contract(Contract),

    /// Those of the hours from the first to the last.
    Hours {
        /// The first hour.
        first: u32,
        /// The last one.
        last: u32,
    },

    /// The quarters from the first to the last.
    Range {
        /// The first quarter.
        first: Quarter,
        /// The last one.
        last: Quarter,
    },
}

impl Period {
    /// Whether a quarter is one of those.
    pub fn has(self, quarter: Quarter) -> bool
        ensures { result ≡ places.period_has self quarter }
    {
        match self {
            Period::Contract(contract) => contract.has(quarter),
            Period::Hours { first, last } => quarter.is_in_hours(first, last),
            Period::Range { first, last } => quarter.is_in_range(first, last),
        }
    }

    // The place of the day from which on its quarters stand, and the one behind them.
    pub(crate) fn places(self) -> (u64, u64)
        ensures covers { (place : ℕ) → places.period_has self (places.quarter_at place) ≡ true → (result.0 ≤ place) × (place < result.1) }
        ensures few { result.1 < 17179869181 }
    {
        let (first, last) = self.hours();
        let first = u64::from(first);
        (4 * first.saturating_sub(1), 4 * u64::from(last))
    }

    // The first of its hours, and the last.
    fn hours(self) -> (u32, u32)
        ensures { (place : ℕ) → places.period_has self (places.quarter_at place) ≡ true → (result.0 ≤ (places.quarter_at place).hour) × ((places.quarter_at place).hour ≤ result.1) }
    {
        match self {
            Period::Contract(contract) => (contract.hour, contract.hour),
            Period::Hours { first, last } => (first, last),
            Period::Range { first, last } => (first.hour, last.hour),
        }
    }
}
