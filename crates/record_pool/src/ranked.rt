//! The spot at which a record joins a line.

ghost use Rattle.std.specs.Prelude.{◌≡◌, ℕ, ◌<◌, length, IsSome};
ghost use Rattle.std.specs.Cmp.{IsTotalOrder};
ghost use Rattle.std.specs.Ordering.{is_lt};
ghost use Rattle.std.specs.declared.cmp.Ordering.{Ordering};
ghost use Rattle.order_kinds.specs.declared.side.Side.{Side};
ghost use Rattle.order_pool.specs.Lines.{line_at, StandsIn, StandOnce};
ghost use Rattle.zone_graph.specs.InOrder.{IsStrictlyInOrder};
ghost use Rattle.record_pool.specs.Keyed.{held_at};
ghost use Rattle.record_pool.specs.Ranked.{records_of, IsSpot};

use crate::keyed::{Keyed, KeyedPool};
use order_kinds::Side;
use order_pool::Rings;

/// A record that has its place in a line by an order, which is another one on each side of the
/// market.
pub trait Ranked: Keyed {
    ghost cmp: { Side → Self → Self → Ordering };

    /// Whether it comes before another record in a line of a side.
    fn goes_before(&self, other: &Self, side: Side) -> bool
        ensures { result ≡ is_lt (cmp side self.now other.now) };

    ghost total: { (side : Side) → IsTotalOrder (cmp side) };
}

/// The place of a line before which a record is to stand, or `None` where it is to stand at its
/// end. The line is walked from both ends at once, so from the nearer one to the spot.
pub fn spot<T: Ranked>(
    records: &KeyedPool<T>,
    lines: &Rings,
    line: u32,
    side: Side,
    joining: &T,
) -> Option<u32>
    requires line { line < length lines.now }
    requires once { StandOnce lines.now }
    requires held { (place : ℕ) → StandsIn lines.now line place → IsSome (held_at records.now place) }
    requires sorted { IsStrictlyInOrder (T.cmp side) (records_of records.now (line_at lines.now line)) }
    ensures { IsSpot (T.cmp side) records.now (line_at lines.now line) joining.now result }
{
    let mut ahead = lines.first(line);
    let mut behind = lines.last(line);
    while let Some(front) = ahead {
        if joining.goes_before(records.get(front), side) {
            return Some(front);
        }
        let Some(back) = behind else {
            unreachable!();
        };
        if !joining.goes_before(records.get(back), side) {
            return lines.next(back);
        }
        ahead = lines.next(front);
        behind = lines.previous(back);
    }
    None
}
