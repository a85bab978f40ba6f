//! The sums of the orders of each hour, kept from one command to the next.

ghost use Rattle.std.specs.Prelude.{◌≡◌, IfOk, None, slice_set};
ghost use Rattle.plain_orders.specs.DaySums.{nothing_summed, sums_at};

use crate::tally::OrderSums;
use market_model::NoMemory;
use std::alloc::Global;
use std::marker::Model;

// For how many hours sums are kept: one for each number up to the last hour of the longest delivery day.
const HOURS: usize = 26;

/// The sums of the orders and blocks of each hour, where they are kept: each over the first events of a
/// history. Contracts see them as a list, in which those of an hour stand at its number.
#[derive(Debug, Drop)]
pub struct DaySums {
    hours: Vec<Option<OrderSums>>,
}

impl Model for DaySums {
    ghost use Rattle.std.specs.Prelude.{List, Option};
    ghost use Rattle.plain_orders.specs.declared.tally.OrderSums.{OrderSums};

    ghost Value = { List (Option OrderSums) };

    ghost view = { λ day. day.hours.items };
}

impl DaySums {
    /// None are kept.
    ///
    /// # Errors
    ///
    /// [`NoMemory`], where there is no memory for their places.
    pub fn new(alloc: Global) -> Result<DaySums, NoMemory>
        ensures { IfOk result (λ made. made ≡ nothing_summed) }
    {
        let mut hours = Vec::with_capacity(alloc, HOURS)?;
        for _hour in 0..HOURS {
            hours.push(None)?;
        }
        Ok(DaySums { hours })
    }

    /// Takes those of an hour out, where they are kept: they can take in the events that have come since.
    #[tactic(auto, using(crate::proofs::Kept::none_at, crate::proofs::Kept::set_off))]
    pub fn take(&mut self, hour: u32) -> Option<OrderSums>
        ensures taken { result ≡ sums_at self.old hour }
        ensures left { self.new ≡ slice_set self.old hour None }
    {
        if (hour as usize) < self.hours.len() {
            self.hours[hour as usize].take()
        } else {
            None
        }
    }

    /// Keeps the sums of an hour, or none, in place of those that were kept. Where the hour has no place
    /// they are let go.
    #[tactic(auto, using(crate::proofs::Kept::set_off))]
    pub fn put(&mut self, hour: u32, sums: Option<OrderSums>)
        ensures { self.new ≡ slice_set self.old hour sums }
    {
        if (hour as usize) < self.hours.len() {
            self.hours[hour as usize] = sums;
        }
    }
}
