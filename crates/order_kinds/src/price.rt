//! Prices and quantities.

ghost use Rattle.std.specs.Prelude.{◌≡◌, Some};
ghost use Rattle.std.specs.Fmt.{DisplaysOnOk};
ghost use Rattle.order_kinds.specs.Price.{price_in_range, price_text, cents_text};
ghost use Rattle.order_kinds.specs.Price.{lots_in_range, lots_text};

use std::fmt;

/// A price in cents per MWh, which may be below 0.
///
/// It prints as an amount with two digits after the point, as `-0.01` or `50.00`.
#[derive(Clone, Copy, Debug, PartialEq, Eq)]
pub struct Price(pub i32);

impl Price {
    /// The least price of an order: -9999.00 a MWh.
    pub const LEAST: Price = Price(-999900);

    /// The greatest price of an order: 9999.00 a MWh.
    pub const GREATEST: Price = Price(999900);

    /// Whether an order may have this price: it is from [`Price::LEAST`] to [`Price::GREATEST`].
    pub fn is_in_range(self) -> bool
        ensures { result ≡ price_in_range self }
    {
        Price::LEAST.0 <= self.0 && self.0 <= Price::GREATEST.0
    }
}

impl fmt::Display for Price {
    ghost output = { λ price. Some (price_text price) };

    fn fmt<W: fmt::Write>(&self, f: &mut fmt::Formatter<W>) -> fmt::Result {
        if self.0 < 0 {
            f.write_str("-")?;
        }
        write_cents(self.0.unsigned_abs(), f)
    }
}

// Writes an amount of cents, with two digits after the point.
#[tactic(auto, using(std::proofs::lemmas::Fmt::decimal_digit))]
fn write_cents<W: fmt::Write>(cents: u32, f: &mut fmt::Formatter<W>) -> fmt::Result
    ensures { DisplaysOnOk W.write_str_gives f.old result (Some (cents_text cents)) f.new }
{
    write!(f, "{}.{}{}", cents / 100, cents / 10 % 10, cents % 10)
}

/// A quantity in lots, tenths of a MW.
///
/// It prints as megawatts with one digit after the point, as `0.1` or `10.0`.
#[derive(Clone, Copy, Debug, PartialEq, Eq)]
pub struct Lots(pub u32);

impl Lots {
    /// The least quantity of an order: 0.1 MW.
    pub const LEAST: Lots = Lots(1);

    /// The greatest quantity of an order: 999.0 MW.
    pub const GREATEST: Lots = Lots(9990);

    /// Whether an order may have this quantity: it is from [`Lots::LEAST`] to
    /// [`Lots::GREATEST`].
    pub fn is_in_range(self) -> bool
        ensures { result ≡ lots_in_range self }
    {
        Lots::LEAST.0 <= self.0 && self.0 <= Lots::GREATEST.0
    }
}

impl fmt::Display for Lots {
    ghost output = { λ lots. Some (lots_text lots) };

    #[tactic(auto, using(std::proofs::lemmas::Fmt::decimal_digit))]
    fn fmt<W: fmt::Write>(&self, f: &mut fmt::Formatter<W>) -> fmt::Result {
        write!(f, "{}.{}", self.0 / 10, self.0 % 10)
    }
}
