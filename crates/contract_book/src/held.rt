//! An order in the place that holds it.

ghost use Rattle.std.specs.Prelude.{◌%◌};

use crate::resting::Resting;
use order_kinds::Side;
use record_pool::{Keyed, Ranked};

/// An order, and the number of the line in which it stands.
#[derive(Clone, Copy)]
pub struct Held {
    pub line: u32,
    pub order: Resting,
}

impl Keyed for Held {
    ghost use Rattle.contract_book.specs.Inside.{number_of};

    type Key = u32;

    ghost key_of = { number_of };

    ghost bucket_of = { λ number. number % 4096 };

    fn key(&self) -> u32 {
        self.order.number
    }

    fn is_of(&self, key: u32) -> bool {
        self.order.number == key
    }

    fn bucket(key: u32) -> u32 {
        key % 4096
    }
}

impl Ranked for Held {
    ghost use Rattle.contract_book.specs.Inside.{held_cmp};

    ghost cmp = { held_cmp };

    fn goes_before(&self, other: &Held, side: Side) -> bool {
        self.order.goes_before(&other.order, side)
    }

    ghost use Rattle.contract_book.specs.Priority.{held_total};

    ghost total = { held_total };
}
