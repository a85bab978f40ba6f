//! Sets of hours.

ghost use Rattle.std.specs.Prelude.{◌≡◌, ℕ, ◌≤◌, ◌↔◌, ◌==◌, ◌||◌, [], ◌∷◌, IsTrue, MatchOption};
ghost use Rattle.order_kinds.specs.Period.{hours_from};
ghost use Rattle.market_model.specs.HourSet.{IsFirstOf, IsSetOf, has_hour};

/// A set of the hours of a delivery day, which are numbered from 1: bit 0 stands for hour 1, bit 1
/// for hour 2, and so on through hour 32.
#[derive(Clone, Copy, Debug, PartialEq, Eq)]
pub struct Hours(pub u32);

impl Hours {
    /// The set of no hour.
    pub const EMPTY: Hours = Hours(0);

    /// The greatest hour that a set can have.
    pub const GREATEST: u32 = u32::BITS;

    /// Whether the hour is in the set: no set has hour 0 or an hour above [`Hours::GREATEST`].
    pub fn contains(self, hour: u32) -> bool
        ensures { result ≡ has_hour self hour }
    {
        if hour < 1 || hour > Hours::GREATEST {
            return false;
        }
        (self.0 >> (hour - 1)) % 2 == 1
    }

    /// Whether the set has no hour.
    pub fn is_empty(self) -> bool
        ensures { IsTrue result ↔ IsSetOf [] self }
    {
        self.0 == 0
    }

    /// The least hour of the set: `None` exactly where it is empty.
    pub fn first(self) -> Option<u32>
        ensures { MatchOption result (IsSetOf [] self) (IsFirstOf self) }
    {
        if self.is_empty() {
            None
        } else {
            Some(self.0.trailing_zeros() + 1)
        }
    }

    // The hour alone.
    pub(crate) fn one(hour: u32) -> Hours
        requires first { 1 ≤ hour }
        requires last { hour ≤ 32 }
        ensures { IsSetOf (hour ∷ []) result }
    {
        Hours::EMPTY.with(hour)
    }

    // The hours from the first to the last: of those up to the last, those from the first on.
    pub(crate) fn from_to(first: u32, last: u32) -> Hours
        requires first { 1 ≤ first }
        requires order { first ≤ last }
        requires last { last ≤ 32 }
        ensures { IsSetOf (hours_from first last) result }
    {
        Hours((u32::MAX >> (Hours::GREATEST - last)) & (u32::MAX << (first - 1)))
    }

    // The set with an hour more.
    pub(crate) fn with(self, hour: u32) -> Hours
        requires first { 1 ≤ hour }
        requires last { hour ≤ 32 }
        ensures { (other : ℕ) → has_hour result other ≡ ((hour == other) || has_hour self other) }
    {
        Hours(self.0 | 1 << (hour - 1))
    }
}
