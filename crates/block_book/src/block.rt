//! A block that rests.

ghost use Rattle.std.specs.Prelude.{◌≡◌, ◌%◌};
ghost use Rattle.std.specs.Ordering.{is_lt};

use order_kinds::{Price, Side};
use record_pool::{Keyed, Ranked};

/// A block that rests in a book, wholly.
#[derive(Clone, Copy, Debug, PartialEq, Eq)]
pub struct RestingBlock {
    /// Its number in the hour in which it starts.
    pub number: u32,

    /// The number of the caller whose it is.
    pub caller: u32,

    /// The number of its bidding zone.
    pub zone: u32,

    /// Whether it buys or sells.
    pub side: Side,

    /// Its price.
    pub price: Price,

    /// Its lots in each hour.
    pub quantity: u32,

    /// The last hour of its period.
    pub last: u32,

    /// The moment from which it has its priority.
    pub moment: u64,
}

impl Keyed for RestingBlock {
    ghost use Rattle.block_book.specs.Blocks.{number_of};

    type Key = u32;

    ghost key_of = { number_of };

    ghost bucket_of = { λ number. number % 4096 };

    fn key(&self) -> u32 {
        self.number
    }

    fn is_of(&self, key: u32) -> bool {
        self.number == key
    }

    fn bucket(key: u32) -> u32 {
        key % 4096
    }
}

impl Ranked for RestingBlock {
    ghost use Rattle.block_book.specs.Blocks.{block_cmp};

    ghost cmp = { block_cmp };

    fn goes_before(&self, other: &RestingBlock, side: Side) -> bool {
        if self.price != other.price {
            return side.prefers(self.price, other.price);
        }
        if self.moment != other.moment {
            return self.moment < other.moment;
        }
        self.number < other.number
    }

    ghost use Rattle.block_book.specs.Priority.{block_total};

    ghost total = { block_total };
}
