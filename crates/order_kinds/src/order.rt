//! Orders and blocks, as they are entered.

ghost use Rattle.std.specs.Prelude.{◌≡◌, ◌*◌, ◌^◌, ◌<◌, Some};
ghost use Rattle.order_kinds.specs.Order as orders;
ghost use Rattle.order_kinds.specs.Price.{price_in_range};

use crate::contract::Contract;
use crate::price::{Lots, Price};
use crate::side::Side;
use std::error::Error;
use std::fmt;

/// How an order is executed.
#[derive(Clone, Copy, Debug, PartialEq, Eq)]
pub enum Kind {
    /// What is not traded at once stays in the order book.
    Limit,

    /// Immediate or cancel: what is not traded at once is withdrawn.
    Ioc,

    /// Fill or kill: it is traded at once and wholly, or nothing happens.
    Fok,

    /// Only a part of the total shows at a time.
    Iceberg {
        /// The lots that show at a time.
        peak: Lots,

        /// The cents per MWh by which each next peak is dearer than the one before, of a sell, or
        /// cheaper, of a buy.
        delta: u32,
    },
}

impl Kind {
    /// Whether an order of this kind is a plain limit order: what is not traded rests, and all of
    /// it shows.
    pub fn is_limit(self) -> bool
        ensures { result ≡ orders.is_limit self }
    {
        matches!(self, Kind::Limit)
    }

    /// Whether an order of this kind is traded wholly or not at all.
    pub fn is_fill_or_kill(self) -> bool
        ensures { result ≡ orders.is_fill_or_kill self }
    {
        matches!(self, Kind::Fok)
    }
}

/// An order for one contract.
#[derive(Clone, Copy, Debug, PartialEq, Eq)]
pub struct Order {
    /// What is bought or sold.
    pub contract: Contract,

    /// The number of the bidding zone, counted from 0.
    pub zone: u32,

    /// Whether it buys or sells.
    pub side: Side,

    /// The worst price that the owner accepts; of an iceberg the price of its first peak.
    pub price: Price,

    /// The lots, of an iceberg those of all its peaks.
    pub quantity: Lots,

    /// How it is executed.
    pub kind: Kind,
}

impl Order {
    /// The most peaks that an iceberg may have.
    pub const MOST_PEAKS: u32 = 100;

    /// Whether the order is no iceberg, or an iceberg whose peak is above 0 and below its total,
    /// which has at most [`Order::MOST_PEAKS`] peaks, and whose last peak has an allowed price.
    pub fn has_allowed_peaks(&self) -> bool
        ensures { result ≡ orders.has_allowed_peaks self.now }
    {
        match self.kind {
            Kind::Limit | Kind::Ioc | Kind::Fok => true,
            Kind::Iceberg { peak, delta } => self.allows_peaks(peak.0, delta),
        }
    }

    // Whether an iceberg of the order's total, of this peak and delta, has such peaks.
    fn allows_peaks(&self, peak: u32, delta: u32) -> bool
        ensures { let order = self.now in
            result ≡ orders.peaks_allowed order.side order.price order.quantity.0 peak delta }
    {
        let total = self.quantity.0;
        if peak == 0 || peak >= total {
            return false;
        }
        let last = (total - 1) / peak;
        last < Order::MOST_PEAKS && is_allowed_price(peak_cents(self.side, self.price, delta, last))
    }
}

/// The cents per MWh of the peak of this number, counted from 0, of an iceberg whose first peak has
/// the price: each peak is dearer by `delta` than the one before if it sells, and cheaper if it
/// buys. They may be no allowed price.
pub fn peak_cents(side: Side, price: Price, delta: u32, number: u32) -> i64
    requires { delta * number < 2 ^ 62 }
    ensures { result ≡ (orders.peak_price side price delta number).0 }
{
    let change = i64::from(delta) * i64::from(number);
    match side {
        Side::Buy => i64::from(price.0) - change,
        Side::Sell => i64::from(price.0) + change,
    }
}

// Whether so many cents are an allowed price.
fn is_allowed_price(cents: i64) -> bool
    ensures { result ≡ price_in_range (record { 0 = cents }) }
{
    i64::from(Price::LEAST.0) <= cents && cents <= i64::from(Price::GREATEST.0)
}

/// A block: an order for consecutive hours, which is traded wholly in all of them or not at all.
#[derive(Clone, Copy, Debug, PartialEq, Eq)]
pub struct BlockOrder {
    /// The number of its first hour, by which it is named.
    pub first: u32,

    /// The number of its last hour.
    pub last: u32,

    /// The number of the bidding zone, counted from 0.
    pub zone: u32,

    /// Whether it buys or sells.
    pub side: Side,

    /// The worst price that the owner accepts.
    pub price: Price,

    /// The lots in each quarter of its hours.
    pub quantity: Lots,
}

/// The name of an order or of a block: the hour that it is for (a block: its first), and its
/// number in that hour.
///
/// It prints as `h12#7` for number 7 of hour 12.
#[derive(Clone, Copy, Debug, PartialEq, Eq)]
pub struct OrderName {
    /// The number of the hour, counted from 1 through the delivery day.
    pub hour: u32,

    /// The number among the accepted orders and blocks of the hour, counted from 1.
    pub number: u32,
}

impl fmt::Display for OrderName {
    ghost output = { λ name. Some (orders.name_text name) };

    fn fmt<W: fmt::Write>(&self, f: &mut fmt::Formatter<W>) -> fmt::Result {
        write!(f, "h{}#{}", self.hour, self.number)
    }
}

/// What is wrong with an order's own numbers.
#[derive(Clone, Copy, Debug, PartialEq, Eq)]
pub enum OrderFault {
    /// The price is not between the least and the greatest price.
    PriceOutOfRange,

    /// The quantity is not between the least and the greatest quantity.
    QuantityOutOfRange,

    /// An iceberg's peak is 0 or not below its total, it has too many peaks, or the price of its
    /// last peak is out of range.
    BadPeak,
}

impl fmt::Display for OrderFault {
    ghost output = { λ fault. Some (orders.fault_text fault) };

    fn fmt<W: fmt::Write>(&self, f: &mut fmt::Formatter<W>) -> fmt::Result {
        f.write_str(match self {
            OrderFault::PriceOutOfRange => "the price is out of range",
            OrderFault::QuantityOutOfRange => "the quantity is out of range",
            OrderFault::BadPeak =>
                "the iceberg's peak is not below its total, or it has too many peaks, or its last peak's price is out of range",
        })
    }
}

impl Error for OrderFault {}

/// Checks an order's own numbers, whatever the state of the market, and takes no memory.
///
/// # Errors
///
/// The first of these that holds: [`OrderFault::PriceOutOfRange`], where the price is not from
/// [`Price::LEAST`] to [`Price::GREATEST`]; [`OrderFault::QuantityOutOfRange`], where the
/// quantity is not from [`Lots::LEAST`] to [`Lots::GREATEST`]; [`OrderFault::BadPeak`], where it
/// is an iceberg whose peak is 0 or not below its total, that has more than
/// [`Order::MOST_PEAKS`] peaks, or whose last peak's price is out of range.
pub fn check_order(order: &Order) -> Result<(), OrderFault>
    ensures { result ≡ orders.ok_unless (orders.order_fault order.now) }
{
    check_numbers(order.price, order.quantity)?;
    if !order.has_allowed_peaks() {
        return Err(OrderFault::BadPeak);
    }
    Ok(())
}

/// Checks a block's own numbers, whatever the state of the market, and takes no memory.
///
/// # Errors
///
/// The first of these that holds: [`OrderFault::PriceOutOfRange`], where the price is not from
/// [`Price::LEAST`] to [`Price::GREATEST`]; [`OrderFault::QuantityOutOfRange`], where the
/// quantity is not from [`Lots::LEAST`] to [`Lots::GREATEST`].
pub fn check_block(order: &BlockOrder) -> Result<(), OrderFault>
    ensures { result ≡ orders.ok_unless (orders.block_fault order.now) }
{
    check_numbers(order.price, order.quantity)
}

// Checks a price, and then a quantity.
fn check_numbers(price: Price, quantity: Lots) -> Result<(), OrderFault>
    ensures { result ≡ orders.ok_unless (orders.numbers_fault price quantity None) }
{
    if !price.is_in_range() {
        return Err(OrderFault::PriceOutOfRange);
    }
    if !quantity.is_in_range() {
        return Err(OrderFault::QuantityOutOfRange);
    }
    Ok(())
}
