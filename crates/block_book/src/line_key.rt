//! What a line is found by.

ghost use Rattle.std.specs.Prelude.{◌≡◌, ◌↔◌, IsTrue};

use crate::block::RestingBlock;
use order_kinds::Side;

/// Which blocks a line has: those of a period and side, or those of a quantity among them.
#[derive(Clone, Copy, Debug, PartialEq, Eq)]
pub enum Grain {
    /// A line has the blocks of one period and side.
    Period,

    /// A line has the blocks of one period, side and quantity.
    Quantity,
}

/// What a line is found by: what its blocks have in common.
#[derive(Clone, Copy, Debug, PartialEq, Eq)]
pub struct LineKey {
    /// The last hour of their period.
    pub last: u32,

    /// Their side.
    pub side: Side,

    /// Their quantity, if the line has one alone.
    pub quantity: Option<u32>,
}

impl Grain {
    ghost use Rattle.block_book.specs.Inside.{key_by};

    /// What the line is found by that has a block.
    pub fn key_of(self, block: &RestingBlock) -> LineKey
        ensures { result ≡ key_by self block.now }
    {
        let quantity = match self {
            Grain::Period => None,
            Grain::Quantity => Some(block.quantity),
        };
        LineKey {
            last: block.last,
            side: block.side,
            quantity,
        }
    }

    /// Whether a key is the one by which the line is found that has a block.
    pub fn is_key_of(self, key: LineKey, block: &RestingBlock) -> bool
        ensures { IsTrue result ↔ (key_by self block.now ≡ key) }
    {
        self.key_of(block) == key
    }
}

impl LineKey {
    ghost use Rattle.block_book.specs.Inside.{key_ring};

    /// The number of the ring in which the blocks of the line stand: below 2048 for buyers, and
    /// from there on for sellers. 2039 is a prime, and 83 is odd, so that quantities that are all
    /// multiples of ten or a hundred lots spread too, and that two lines of all quantities share a
    /// ring only where their last hours are a multiple of 2048 hours apart.
    pub fn ring(self) -> u32
        ensures { result ≡ key_ring self }
    {
        let lots = self.quantity.unwrap_or(0);
        let spread = (self.last % 2048 * 83 + lots % 2039) % 2048;
        match self.side {
            Side::Buy => spread,
            Side::Sell => 2048 + spread,
        }
    }
}
