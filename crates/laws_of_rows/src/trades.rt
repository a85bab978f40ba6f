//! Makers, the trades of a taker with them, and a row for each maker.

use market_model::{OrderName, Price, Route, ViewRow};

/// A trade of the taker.
#[derive(Drop)]
pub struct Fill {
    /// The maker's name.
    pub maker: OrderName,
    /// The maker's price, in cents per MWh.
    pub price: Price,
    /// How much is traded, in lots.
    pub lots: u32,
    /// The way from the seller to the buyer.
    pub route: Route,
}

/// An order of a line, of which a taker takes.
#[derive(Clone, Copy, Debug)]
pub struct Maker {
    /// Its name.
    pub name: OrderName,
    /// Its zone.
    pub zone: u32,
    /// Its price, in cents per MWh.
    pub price: Price,
    /// What it showed, less what was taken of it, in lots.
    pub left: u32,
}

/// The row of a maker.
#[derive(Clone, Copy, Debug)]
pub struct MakerRow {
    /// The maker's name.
    pub maker: OrderName,
    /// Its price, and the sum of the lots of its trades.
    pub row: ViewRow,
}
