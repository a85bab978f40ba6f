//! Sets of the quarters of an hour.

ghost use Rattle.std.specs.Prelude.{◌≡◌, ◌≤◌};
ghost use Rattle.flow_netting.specs.QuarterSet as sets;

/// A set of the quarters of an hour, which are numbered from 1 to 4: bit 0 stands for quarter 1,
/// bit 1 for quarter 2, bit 2 for quarter 3, and bit 3 for quarter 4. No other bit counts.
#[derive(Clone, Copy, Debug, PartialEq, Eq)]
pub struct QuarterSet(pub u8);

impl QuarterSet {
    /// Whether the quarter of this number is in the set.
    pub fn contains(self, number: u32) -> bool
        requires first { 1 ≤ number }
        requires last { number ≤ 4 }
        ensures { result ≡ sets.has self number }
    {
        (self.0 >> (number - 1)) % 2 == 1
    }
}
