//! The deal of two blocks.

ghost use Rattle.std.specs.Prelude.{◌≡◌, ◌==◌};
ghost use Rattle.block_match.specs.Deals as deals;
ghost use Rattle.block_match.specs.Walking as walking;

use block_book::RestingBlock;
use order_kinds::Price;
use zone_graph::Legs;

/// A deal of two blocks, which closes both.
#[derive(Debug, Drop)]
pub struct BlockDeal {
    /// The number of the block that takes.
    pub taker: u32,

    /// The number of the block whose price it is.
    pub maker: u32,

    /// The price.
    pub price: Price,

    /// What each route carries of the quantity, in every quarter of the period.
    pub legs: Legs,
}

/// The deal of a taker with a maker over the legs between them: at the maker's price.
pub(crate) fn deal_over(taker: &RestingBlock, maker: &RestingBlock, legs: Legs) -> BlockDeal
    ensures { result ≡ walking.deal_over taker.now maker.now legs }
{
    BlockDeal {
        taker: taker.number,
        maker: maker.number,
        price: maker.price,
        legs,
    }
}

/// Whether a block was there earlier than another: at the earlier moment, or at the same one with
/// the smaller number.
pub(crate) fn is_earlier(one: &RestingBlock, other: &RestingBlock) -> bool
    ensures { result ≡ deals.is_earlier one.now other.now }
{
    one.moment
        .cmp(&other.moment)
        .then(one.number.cmp(&other.number))
        .is_lt()
}
