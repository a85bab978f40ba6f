//! Orders and blocks as they stand after some events.

ghost use Rattle.std.specs.Prelude.{◌≡◌, ◌≤◌};
ghost use Rattle.market_model.specs.Orders.{price_now, shown_lots};
ghost use Rattle.plain_orders.specs.Tallies as tallies;
ghost use Rattle.plain_orders.specs.Histories.{HasSoundNumbers};

use crate::placed::{PlacedBlock, PlacedOrder};
use crate::tally::Tally;
use iceberg_peak::{left_of_peak, number_now, price_of_peak};
use market_model::{BlockOrder, Kind, Order, OrderName, Price};
use std::marker::Model;

/// An order as it stands after some events, which contracts see as the market's own record of it.
#[derive(Clone, Copy, Debug)]
pub struct StandingOrder {
    name: OrderName,
    caller: u32,
    order: Order,
    filled: u32,
    left: u32,
    shown: u32,
    price: Price,
    moment: u64,
}

impl Model for StandingOrder {
    ghost use Rattle.market_model.specs.Orders.{Standing};

    ghost Value = { Standing };

    ghost view = { λ s. record { name = s.name; caller = s.caller; order = s.order; filled = s.filled; left = s.left; shown = s.shown; price = s.price; moment = s.moment } };

    ghost inverse = { λ s. record { name = s.name; caller = s.caller; order = s.order; filled = s.filled; left = s.left; shown = s.shown; price = s.price; moment = s.moment } };
}

impl StandingOrder {
    // An order of which so much is filled and left.
    pub(crate) fn new(placed: &PlacedOrder, tally: Tally) -> StandingOrder
        requires sound { HasSoundNumbers placed.now.order }
        requires most { tally.filled ≤ placed.now.order.quantity.0 }
        ensures { result ≡ tallies.standing_by tally placed.now }
    {
        let order = placed.order();
        StandingOrder {
            name: placed.name(),
            caller: placed.caller(),
            order,
            filled: tally.filled,
            left: tally.left,
            shown: shown_of(order.kind, tally.filled, tally.left),
            price: price_of(&order, tally.filled),
            moment: tally.moment,
        }
    }

    /// Its name.
    pub fn name(&self) -> OrderName
        ensures { result ≡ self.now.name }
    {
        self.name
    }

    /// Whose it is.
    pub fn caller(&self) -> u32
        ensures { result ≡ self.now.caller }
    {
        self.caller
    }

    /// What was entered.
    pub fn order(&self) -> Order
        ensures { result ≡ self.now.order }
    {
        self.order
    }

    /// How much of it is filled, in lots.
    pub fn filled(&self) -> u32
        ensures { result ≡ self.now.filled }
    {
        self.filled
    }

    /// How much is left of it, in lots: 0 once it is open no more.
    pub fn left(&self) -> u32
        ensures { result ≡ self.now.left }
    {
        self.left
    }

    /// How much of it shows, in lots: of an iceberg what is left of its peak.
    pub fn shown(&self) -> u32
        ensures { result ≡ self.now.shown }
    {
        self.shown
    }

    /// Its price now, in cents per MWh: of an iceberg that of its showing peak.
    pub fn price(&self) -> Price
        ensures { result ≡ self.now.price }
    {
        self.price
    }

    /// Its place in time: which event of its hour it was that entered it, or that last
    /// emptied a peak of it, counted from 1.
    pub fn moment(&self) -> u64
        ensures { result ≡ self.now.moment }
    {
        self.moment
    }
}

// What an order of this kind shows, of which so much is filled and left.
fn shown_of(kind: Kind, filled: u32, left: u32) -> u32
    requires { tallies.HasPeak kind }
    ensures { result ≡ shown_lots kind filled left }
{
    match kind {
        Kind::Iceberg { peak, .. } => left_of_peak(peak.0, filled).min(left),
        Kind::Limit | Kind::Ioc | Kind::Fok => left,
    }
}

// The price of an order of which so much is filled: of an iceberg that of its showing peak.
fn price_of(order: &Order, filled: u32) -> Price
    requires sound { HasSoundNumbers order.now }
    requires most { filled ≤ order.now.quantity.0 }
    ensures { result ≡ price_now order.now filled }
{
    match order.kind {
        Kind::Iceberg { peak, delta } => {
            price_of_peak(order.side, order.price, delta, number_now(peak.0, filled))
        }
        Kind::Limit | Kind::Ioc | Kind::Fok => order.price,
    }
}

/// A block as it stands after some events, which contracts see as the market's own record of it.
#[derive(Clone, Copy, Debug)]
pub struct StandingBlock {
    name: OrderName,
    order: BlockOrder,
    left: u32,
    moment: u64,
}

impl Model for StandingBlock {
    ghost use Rattle.market_model.specs.Blocks.{StandingBlock as Block};

    ghost Value = { Block };

    ghost view = { λ s. record { name = s.name; order = s.order; left = s.left; moment = s.moment } };

    ghost inverse = { λ s. record { name = s.name; order = s.order; left = s.left; moment = s.moment } };
}

impl StandingBlock {
    // A block of which so much is left.
    pub(crate) fn new(placed: &PlacedBlock, tally: Tally) -> StandingBlock
        ensures { result ≡ tallies.standing_block_by tally placed.now }
    {
        StandingBlock {
            name: placed.name(),
            order: placed.order(),
            left: tally.left,
            moment: tally.moment,
        }
    }

    /// Its name.
    pub fn name(&self) -> OrderName
        ensures { result ≡ self.now.name }
    {
        self.name
    }

    /// What was entered.
    pub fn order(&self) -> BlockOrder
        ensures { result ≡ self.now.order }
    {
        self.order
    }

    /// How much is left of it, in lots: 0 once it is open no more.
    pub fn left(&self) -> u32
        ensures { result ≡ self.now.left }
    {
        self.left
    }

    /// Its place in time: which event of its first hour it was that entered it, counted
    /// from 1.
    pub fn moment(&self) -> u64
        ensures { result ≡ self.now.moment }
    {
        self.moment
    }
}
