//! Deals of two blocks.

ghost use Rattle.std.specs.Prelude.{◌≡◌, ◌-◌, ◌^◌, ◌<◌, None, OnOk, OnErr};
ghost use Rattle.block_match.specs.Market.{deal_events};
ghost use Rattle.market_model.specs.Orders.{next_name};
ghost use Rattle.kept_hour.specs.Deals as deals;
ghost use Rattle.kept_hour.specs.Kept.{names_given};
ghost use Rattle.kept_hour.specs.Planned as planned;

use crate::dealing::{deal_in, push_deal, push_dealt_entry, reserve_for};
use crate::hour::KeptHour;
use block_match::BlockDeal;
use market_model::{BlockOrder, OrderName};
use zone_graph::NoMemory;

impl KeptHour {
    /// Makes a deal of two blocks of a period, this hour among its hours: its legs are carried over their
    /// routes, and in the first hour of the period both blocks are gone then. No order is in hand.
    ///
    /// # Errors
    ///
    /// [`NoMemory`] where memory runs out, and then nothing changes.
    pub fn deal(&mut self, first: u32, last: u32, deal: &BlockDeal) -> Result<(), NoMemory>
        requires free { self.old.board.hand ≡ None }
        requires next { planned.CanFollow self.old (deal_events first last deal.now) }
        requires whole { self.old.board.hour ≡ first → deals.ClosesBoth self.old first last deal.now }
        ensures made { OnOk result (self.new ≡ planned.after_events self.old (deal_events first last deal.now)) }
        ensures unchanged { OnErr result (self.new ≡ self.old) }
    {
        reserve_for(&mut self.store, deal)?;
        push_deal(&mut self.events, first, last, deal)?;
        deal_in(&mut self.store, self.hour == first, deal);
        Ok(())
    }

    /// Lets a caller's block enter its first hour under the next number of the hour, and makes the deal that
    /// it has found, in which it takes: the legs are carried over their routes, the other block is gone then,
    /// and nothing of the block that entered rests. No order is in hand.
    ///
    /// # Errors
    ///
    /// [`NoMemory`] where memory runs out, and then nothing changes.
    pub fn enter_dealt_block(
        &mut self,
        caller: u32,
        order: &BlockOrder,
        deal: &BlockDeal,
    ) -> Result<(), NoMemory>
        requires free { self.old.board.hand ≡ None }
        requires few { names_given self.old.board < 2 ^ 32 - 1 }
        requires next { planned.CanFollow self.old (deals.dealt_entry self.old caller order.now deal.now) }
        requires takes { deal.now.taker ≡ (next_name self.old.board.events self.old.board.hour).number }
        requires whole { deals.ClosesBoth (deals.with_entry self.old caller order.now) order.now.first order.now.last deal.now }
        ensures made { OnOk result (self.new ≡ planned.after_events self.old (deals.dealt_entry self.old caller order.now deal.now)) }
        ensures unchanged { OnErr result (self.new ≡ self.old) }
    {
        reserve_for(&mut self.store, deal)?;
        let number = self.numbers + 1;
        let name = OrderName {
            hour: self.hour,
            number,
        };
        push_dealt_entry(&mut self.events, name, caller, order, deal)?;
        self.numbers = number;
        deal_in(&mut self.store, true, deal);
        Ok(())
    }
}
