//! The number, the lots and the price of the peak that shows.

ghost use Rattle.std.specs.Prelude.{◌≡◌, ◌-◌, ◌%◌, ◌<◌, ◌≤◌, FitsSigned, IsTrue};
ghost use Rattle.std.specs.Int.{w32};
ghost use Rattle.order_kinds.specs.Order.{peak_number, peak_price};
ghost use Rattle.order_kinds.specs.Price.{price_in_range};
ghost use Rattle.iceberg_peak.specs.Peak.{peak_shown};
ghost use Rattle.iceberg_peak.specs.PriceNow.{price_after, side_moving_up};

use order_kinds::{Price, Side, peak_cents};

/// The number, counted from 0, of the peak that shows after `filled` lots, where each peak but the
/// last has `peak` lots.
pub fn number_now(peak: u32, filled: u32) -> u32
    requires { 1 ≤ peak }
    ensures { result ≡ peak_number peak filled }
{
    filled / peak
}

/// The lots that are left of the peak that shows after `filled` lots, where that is a whole one.
pub fn left_of_peak(peak: u32, filled: u32) -> u32
    requires { 1 ≤ peak }
    ensures { result ≡ peak - filled % peak }
{
    peak - filled % peak
}

/// The lots that show of an iceberg of `total` lots after `filled` of them: what is left of the
/// peak, or of the order where that is less.
pub fn shown(total: u32, peak: u32, filled: u32) -> u32
    requires some_shows { 1 ≤ peak }
    requires some_left { filled < total }
    ensures { result ≡ peak_shown peak filled (total - filled) }
{
    left_of_peak(peak, filled).min(total - filled)
}

/// The price of the peak of this number, counted from 0, of an iceberg whose first peak has the
/// price: each peak is dearer by `delta` cents than the one before if it sells, and cheaper if it
/// buys. It need not be an allowed price: where all of the iceberg is filled, the peak after its
/// last one may have none.
pub fn price_of_peak(side: Side, price: Price, delta: u32, number: u32) -> Price
    requires { FitsSigned w32 (peak_price side price delta number).0 }
    ensures { result ≡ peak_price side price delta number }
{
    Price(peak_cents(side, price, delta, number) as i32)
}

/// The cents per MWh of the peak that shows after `filled` lots, where `price` is that of the first
/// peak, and each next peak is dearer by `delta` cents where `side_up`, as a sell is, and cheaper
/// by them where not, as a buy is.
pub fn price_now(side_up: bool, price: i32, peak: u32, delta: u32, filled: u32) -> i32
    requires some_shows { 1 ≤ peak }
    requires allowed { IsTrue (price_in_range (price_after side_up price peak delta filled)) }
    ensures { result ≡ (price_after side_up price peak delta filled).0 }
{
    price_of_peak(
        side_moving(side_up),
        Price(price),
        delta,
        number_now(peak, filled),
    )
    .0
}

// The side whose peaks move up, or down.
fn side_moving(up: bool) -> Side
    ensures { result ≡ side_moving_up up }
{
    if up { Side::Sell } else { Side::Buy }
}
