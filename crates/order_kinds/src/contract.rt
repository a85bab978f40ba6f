//! What is traded: an hour of the delivery day, one of its quarters, or one of its halves.

ghost use Rattle.std.specs.Prelude.{◌≡◌, Some};
ghost use Rattle.order_kinds.specs.Contract as contracts;
ghost use Rattle.order_kinds.specs.Period as periods;

use std::fmt;

/// The part of an hour for which a contract delivers.
#[derive(Clone, Copy, Debug, PartialEq, Eq)]
pub enum Part {
    /// The whole hour: its quarters 1 to 4.
    Hour,

    /// The quarter of this number. The hour has quarters 1 to 4; any other number is of no
    /// quarter that is traded.
    Quarter(u32),

    /// The half of this number: half 1 is quarters 1 and 2, half 2 is quarters 3 and 4. Any
    /// other number is of no half that is traded.
    Half(u32),
}

impl Part {
    /// Whether an hour has this part: its quarters are 1 to 4, its halves 1 and 2.
    pub fn is_known(&self) -> bool
        ensures { result ≡ contracts.is_known self.now }
    {
        match self {
            Part::Hour => true,
            Part::Quarter(number) => 1 <= *number && *number <= 4,
            Part::Half(number) => 1 <= *number && *number <= 2,
        }
    }

    /// Whether this part delivers in the quarter of this number of its hour.
    pub fn covers(&self, quarter: u32) -> bool
        ensures { result ≡ contracts.covers self.now quarter }
    {
        match self {
            Part::Hour => 1 <= quarter && quarter <= 4,
            Part::Quarter(number) => quarter == *number,
            Part::Half(number) => quarter / 2 + quarter % 2 == *number,
        }
    }
}

/// A contract for delivery: an hour, and the part of it.
///
/// It prints as `h12` for hour 12, `h12q3` for its third quarter, `h12f2` for its second half.
#[derive(Clone, Copy, Debug, PartialEq, Eq)]
pub struct Contract {
    /// The number of the hour, counted from 1 through the delivery day.
    pub hour: u32,

    /// The part of the hour.
    pub part: Part,
}

impl Contract {
    /// Whether the contract delivers in a quarter.
    pub fn has(self, quarter: Quarter) -> bool
        ensures { result ≡ periods.contract_has self quarter }
    {
        self.hour == quarter.hour && self.part.covers(quarter.number)
    }
}

impl fmt::Display for Contract {
    ghost output = { λ contract. Some (contracts.contract_text contract) };

    fn fmt<W: fmt::Write>(&self, f: &mut fmt::Formatter<W>) -> fmt::Result {
        let hour = self.hour;
        match self.part {
            Part::Hour => write!(f, "h{hour}"),
            Part::Quarter(number) => write!(f, "h{hour}q{number}"),
            Part::Half(number) => write!(f, "h{hour}f{number}"),
        }
    }
}

/// A quarter of an hour of the delivery day.
///
/// It prints as `h12q3` for the third quarter of hour 12.
#[derive(Clone, Copy, Debug, PartialEq, Eq)]
pub struct Quarter {
    /// The number of the hour, counted from 1 through the delivery day.
    pub hour: u32,

    /// The number of the quarter in its hour, 1 to 4.
    pub number: u32,
}

impl Quarter {
    /// Whether its hour has this quarter: the quarters of an hour are 1 to 4.
    pub fn is_known(self) -> bool
        ensures { result ≡ periods.is_quarter self }
    {
        1 <= self.number && self.number <= 4
    }

    /// Whether this quarter is another one or comes before it: quarters stand by hour, then by
    /// number.
    pub fn is_not_after(self, other: Quarter) -> bool
        ensures { result ≡ periods.is_not_after self other }
    {
        self.hour < other.hour || (self.hour == other.hour && self.number <= other.number)
    }

    /// Whether this quarter is one of those from the first to the last.
    pub fn is_in_range(self, first: Quarter, last: Quarter) -> bool
        ensures { result ≡ periods.range_has first last self }
    {
        self.is_known() && first.is_not_after(self) && self.is_not_after(last)
    }

    /// Whether this quarter is one of the hours from the first to the last, as a block has them.
    pub fn is_in_hours(self, first: u32, last: u32) -> bool
        ensures { result ≡ periods.block_has first last self }
    {
        first <= self.hour && self.hour <= last && self.is_known()
    }
}

impl fmt::Display for Quarter {
    ghost output = { λ quarter. Some (contracts.quarter_text quarter) };

    fn fmt<W: fmt::Write>(&self, f: &mut fmt::Formatter<W>) -> fmt::Result {
        write!(f, "h{}q{}", self.hour, self.number)
    }
}
