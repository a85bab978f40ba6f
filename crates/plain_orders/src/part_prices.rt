//! The best prices of all contracts of an hour.

ghost use Rattle.std.specs.Prelude.{◌≡◌, ◌<◌, true};
ghost use Rattle.order_kinds.specs.Contract as contracts;
ghost use Rattle.plain_orders.specs.Prices.{AreBestPrices, is_part_of, prices_at, prices_with};

use crate::lines::best_with;
use crate::standing::StandingOrder;
use market_model::{Contract, Part, Price, Side};

/// The best prices of the lines of a contract, in cents per MWh: each is that of the line's first order, if it
/// has one.
#[derive(Clone, Copy, Debug)]
pub struct BestPrices {
    /// That of its buys, the highest.
    pub buy: Option<Price>,
    /// That of its sells, the lowest.
    pub sell: Option<Price>,
}

impl BestPrices {
    // Those of empty lines.
    const NONE: BestPrices = BestPrices {
        buy: None,
        sell: None,
    };

    // With an order that may be of one of the lines.
    #[inline(always)]
    fn with(self, order: &StandingOrder, contract: Contract) -> BestPrices
        ensures { result ≡ prices_with contract order.now self }
    {
        BestPrices {
            buy: best_with(order, contract, Side::Buy, self.buy),
            sell: best_with(order, contract, Side::Sell, self.sell),
        }
    }
}

/// The best prices of the contracts of an hour, of each of its parts.
#[derive(Clone, Copy, Debug)]
pub struct PartPrices {
    // Those of each part, at its number: the hour has 0, its quarters 1 to 4, its halves 5 and 6.
    pub(crate) prices: [BestPrices; 7],
}

impl PartPrices {
    /// Those that some orders make of an hour. The orders are passed over once, and no line is made.
    pub fn of(orders: &[StandingOrder], hour: u32) -> PartPrices
        ensures { AreBestPrices orders.now hour result.prices }
    {
        let mut prices = [BestPrices::NONE; 7];
        for order in orders {
            let contract = order.order().contract;
            if is_part_of(contract, hour) {
                let number = number_of(contract.part);
                prices[number] = prices[number].with(order, contract);
            }
        }
        PartPrices { prices }
    }

    /// Those of a part of the hour.
    pub fn at(&self, part: Part) -> BestPrices
        requires known { contracts.is_known part ≡ true }
        ensures { result ≡ prices_at self.now.prices part }
    {
        self.prices[number_of(part)]
    }
}

// Whether a contract is one of the parts of an hour.
#[inline(always)]
fn is_part_of(contract: Contract, hour: u32) -> bool
    ensures { result ≡ is_part_of hour contract }
{
    contract.hour == hour && contract.part.is_known()
}

// The number of a part: the hour has 0, its quarters 1 to 4, its halves 5 and 6.
fn number_of(part: Part) -> usize
    requires known { contracts.is_known part ≡ true }
    ensures number { result ≡ contracts.part_number part }
    ensures few { result < 7 }
{
    match part {
        Part::Hour => 0,
        Part::Quarter(number) => number as usize,
        Part::Half(number) => 4 + number as usize,
    }
}
