//! An order that rests.

ghost use Rattle.std.specs.Prelude.{◌≡◌, ◌≤◌, ◌<◌, IsTrue, if◌then◌else◌};
ghost use Rattle.std.specs.Ordering.{is_lt};
ghost use Rattle.order_kinds.specs.Price.{price_in_range};
ghost use Rattle.iceberg_peak.specs.Peak as peaks;

use iceberg_peak::{price_now, shown};
use order_kinds::{Price, Side};

/// An order that rests in a book.
#[derive(Clone, Copy, Debug, PartialEq, Eq)]
pub struct Resting {
    /// Its number in its hour.
    pub number: u32,

    /// The number of the caller whose it is.
    pub caller: u32,

    /// The number of its bidding zone.
    pub zone: u32,

    /// Whether it buys or sells.
    pub side: Side,

    /// Its price now: of an iceberg that of the peak that shows.
    pub price: Price,

    /// The lots that are left of it.
    pub left: u32,

    /// The lots that it shows: of an iceberg what is left of its peak, else all that is left.
    pub shown: u32,

    /// The moment from which it has its priority.
    pub moment: u64,

    /// What it hides, if it is an iceberg.
    pub ice: Option<Ice>,
}

/// What an iceberg hides, and what is filled of it.
#[derive(Clone, Copy, Debug, PartialEq, Eq)]
pub struct Ice {
    /// The price of its first peak.
    pub price: Price,

    /// The lots of all its peaks.
    pub total: u32,

    /// The lots that show at a time.
    pub peak: u32,

    /// The cents by which each next peak is dearer, of a sell, or cheaper, of a buy.
    pub delta: u32,

    /// The lots that are filled.
    pub filled: u32,
}

impl Resting {
    ghost use Rattle.contract_book.specs.Resting as orders;

    /// Whether it comes before another order of its line in priority: its price is better, or it
    /// has the same price and an earlier moment, or the same moment too and a smaller number.
    pub fn goes_before(&self, other: &Resting, side: Side) -> bool
        ensures { result ≡ is_lt (orders.resting_cmp side self.now other.now) }
    {
        if self.price != other.price {
            return side.prefers(self.price, other.price);
        }
        if self.moment != other.moment {
            return self.moment < other.moment;
        }
        self.number < other.number
    }

    /// The order after a fill of less than all that is left of it, and of no more than it shows. A
    /// new peak has the given moment.
    pub fn after(&self, lots: u32, moment: u64) -> Resting
        requires sound { orders.IsSound self.now }
        requires shown { lots ≤ self.now.shown }
        requires rest { lots < self.now.left }
        ensures after { result ≡ orders.order_after self.now lots moment }
        ensures sound { orders.IsSound result }
    {
        match self.ice {
            None => self.less(lots),
            Some(ice) => self.iceberg_after(ice, lots, moment),
        }
    }

    // The iceberg after such a fill.
    fn iceberg_after(&self, ice: Ice, lots: u32, moment: u64) -> Resting
        requires sound { orders.IsIceberg self.now ice }
        requires shown { lots ≤ self.now.shown }
        requires rest { lots < self.now.left }
        ensures { result ≡ orders.iceberg_after self.now ice lots moment }
    {
        let filled = ice.filled + lots;
        let ends_peak = filled % ice.peak == 0;
        Resting {
            price: showing_price(self.side, ice, filled),
            left: self.left - lots,
            shown: shown(ice.total, ice.peak, filled),
            moment: later_if(ends_peak, self.moment, moment),
            ice: Some(Ice { filled, ..ice }),
            ..*self
        }
    }

    /// The order, which is no iceberg, with so many lots less than it has.
    pub fn less(&self, lots: u32) -> Resting
        requires { lots < self.now.left }
        ensures { result ≡ orders.order_less self.now lots }
    {
        let left = self.left - lots;
        Resting {
            left,
            shown: left,
            ..*self
        }
    }
}

// The moment, or the later one where it comes.
fn later_if(comes: bool, moment: u64, later: u64) -> u64
    ensures { result ≡ (if comes then later else moment) }
{
    if comes { later } else { moment }
}

// The price of the peak that shows of an iceberg after so many filled lots.
fn showing_price(side: Side, ice: Ice, filled: u32) -> Price
    requires some { 1 ≤ ice.peak }
    requires allowed { IsTrue (price_in_range (peaks.showing_price side ice.price ice.peak ice.delta filled)) }
    ensures { result ≡ peaks.showing_price side ice.price ice.peak ice.delta filled }
{
    let side_up = match side {
        Side::Buy => false,
        Side::Sell => true,
    };
    Price(price_now(side_up, ice.price.0, ice.peak, ice.delta, filled))
}
