//! An order in hand, as it takes.

ghost use Rattle.std.specs.Prelude.{◌≡◌, ◌≤◌};
ghost use Rattle.match_core.specs.Takers as takers;

use contract_book::Ice;
use iceberg_peak::{left_of_peak, number_now, price_of_peak};
use order_kinds::{OrderName, Price, Side};

/// An order in hand, as it takes.
#[derive(Clone, Copy, Debug, PartialEq, Eq)]
pub struct Taker {
    /// Its name.
    pub name: OrderName,

    /// The number of its bidding zone.
    pub zone: u32,

    /// Whether it buys or sells.
    pub side: Side,

    /// Its price now, in cents per MWh: of an iceberg that of the peak that shows, and where nothing
    /// is left that of the last peak that showed.
    pub price: Price,

    /// The lots (tenths of a MW) that are left of it.
    pub left: u32,

    /// The moment from which it has its priority: the place among the hour's events, counted from 1,
    /// at which it entered, or at which a leg last emptied one of its peaks.
    pub moment: u64,

    /// What it hides, if it is an iceberg.
    pub ice: Option<Ice>,
}

impl Taker {
    // The lots that it shows: of an iceberg what is left of its peak, else all that is left.
    pub(crate) fn shown(&self) -> u32
        requires { takers.HasPeak self.now }
        ensures { result ≡ takers.shown_of self.now }
    {
        match self.ice {
            None => self.left,
            Some(ice) => left_of_peak(ice.peak, ice.filled).min(self.left),
        }
    }

    // Fills so many lots of what it shows, at a moment.
    pub(crate) fn fill(&mut self, lots: u32, moment: u64)
        requires { takers.CanFill self.old lots }
        ensures { self.new ≡ takers.after_fill self.old lots moment }
    {
        self.left -= lots;
        if let Some(ice) = self.ice {
            self.fill_iceberg(ice, ice.filled + lots, moment);
        }
    }

    // Gives an iceberg, what is left of which is told already, so many filled lots.
    fn fill_iceberg(&mut self, ice: Ice, filled: u32, moment: u64)
        requires { takers.CanShow self.old ice filled }
        ensures { self.new ≡ takers.with_filled self.old ice filled moment }
    {
        if self.left > 0 {
            self.price = price_of_peak(
                self.side,
                ice.price,
                ice.delta,
                number_now(ice.peak, filled),
            );
        }
        if filled % ice.peak == 0 {
            self.moment = moment;
        }
        self.ice = Some(Ice { filled, ..ice });
    }
}
