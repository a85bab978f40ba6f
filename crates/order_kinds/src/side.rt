//! The two sides of the market.

ghost use Rattle.std.specs.Prelude.{◌≡◌, Some};
ghost use Rattle.order_kinds.specs.Side as sides;

use crate::price::Price;
use std::fmt;

/// The side of an order.
///
/// It prints as `buy` or `sell`.
#[derive(Clone, Copy, Debug, PartialEq, Eq)]
pub enum Side {
    /// A bid: it takes energy, for at most its price.
    Buy,

    /// An offer: it gives energy, for at least its price.
    Sell,
}

impl Side {
    /// The other side.
    pub fn opposite(self) -> Side
        ensures { result ≡ sides.opposite self }
    {
        match self {
            Side::Buy => Side::Sell,
            Side::Sell => Side::Buy,
        }
    }

    /// Whether an order of this side at its own price can trade with one of the other side at
    /// the other price: the buy's price is at least the sell's.
    pub fn crosses(self, own: Price, other: Price) -> bool
        ensures { result ≡ sides.crosses self own other }
    {
        match self {
            Side::Buy => own.0 >= other.0,
            Side::Sell => other.0 >= own.0,
        }
    }

    /// Whether an order of this side at the one price goes before an order of the same side at
    /// the other price: a buy at a higher price, a sell at a lower one.
    pub fn prefers(self, one: Price, other: Price) -> bool
        ensures { result ≡ sides.prefers self one other }
    {
        match self {
            Side::Buy => one.0 > other.0,
            Side::Sell => one.0 < other.0,
        }
    }
}

impl fmt::Display for Side {
    ghost output = { λ side. Some (sides.side_text side) };

    fn fmt<W: fmt::Write>(&self, f: &mut fmt::Formatter<W>) -> fmt::Result {
        f.write_str(match self {
            Side::Buy => "buy",
            Side::Sell => "sell",
        })
    }
}
