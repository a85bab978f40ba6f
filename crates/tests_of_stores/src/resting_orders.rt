//! Orders that tests put to rest.

ghost use Rattle.std.specs.Prelude.{◌≡◌, ◌<◌, ◌≤ℤ◌, pos, negsuc};
ghost use Rattle.contract_book.specs.Resting.{IsSound};

use contract_book::{Ice, Resting};
use order_kinds::{Price, Side};

/// An order of so many lots that is no iceberg.
pub fn plain(number: u32, side: Side, cents: i32, left: u32, moment: u64) -> Resting
    requires { 0 < left }
    ensures left { result.left ≡ left }
    ensures price { result.price.0 ≡ cents }
    ensures sound { IsSound result }
{
    Resting {
        number,
        caller: 1,
        zone: 2,
        side,
        price: Price(cents),
        left,
        shown: left,
        moment,
        ice: None,
    }
}

/// The order as an iceberg that shows a peak at a time, each dearer or cheaper than the one before
/// by so many cents.
pub fn iced(order: Resting, peak: u32, delta: u32) -> Resting
    requires some { 0 < order.left }
    requires few { order.left < 100 }
    requires peak { 0 < peak }
    requires delta { delta < 10 }
    requires low { negsuc 999 ≤ℤ order.price.0 }
    requires high { order.price.0 ≤ℤ pos 1000 }
    ensures { IsSound result }
{
    Resting {
        shown: peak.min(order.left),
        ice: Some(Ice {
            price: order.price,
            total: order.left,
            peak,
            delta,
            filled: 0,
        }),
        ..order
    }
}
