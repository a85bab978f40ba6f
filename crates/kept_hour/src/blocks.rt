//! Blocks enter.

ghost use Rattle.std.specs.Prelude.{◌≡◌, ◌-◌, ◌^◌, ◌<◌, ℕ, None, length, IfOk, OnErr};
ghost use Rattle.laws_of_books.specs.BlocksOf.{entered_resting_block};
ghost use Rattle.market_model.specs.Orders.{next_name, open_names};
ghost use Rattle.market_model.specs.Refusals.{desk_room};
ghost use Rattle.kept_hour.specs.Kept.{names_given};
ghost use Rattle.kept_hour.specs.State as states;

use crate::hour::KeptHour;
use block_book::RestingBlock;
use market_model::{BlockOrder, Event, OrderName};
use zone_graph::NoMemory;

impl KeptHour {
    /// Lets a caller's block enter under the next number of the hour, which is answered. It rests then. No
    /// order is in hand, and there is room for one more.
    ///
    /// # Errors
    ///
    /// [`NoMemory`] where memory runs out, and then nothing changes.
    pub fn enter_block(&mut self, caller: u32, order: &BlockOrder) -> Result<u32, NoMemory>
        requires free { self.old.board.hand ≡ None }
        requires few { names_given self.old.board < 2 ^ 32 - 1 }
        requires room { length (open_names self.old.board.events self.old.board.hour) < desk_room }
        requires next { states.CanBeNext self.old (states.block_entry_of self.old caller order.now) }
        ensures number { IfOk result (λ number. number ≡ (next_name self.old.board.events self.old.board.hour).number) }
        ensures entered { IfOk result (λ _. self.new ≡ states.after_event self.old (states.block_entry_of self.old caller order.now) None) }
        ensures unchanged { OnErr result (self.new ≡ self.old) }
    {
        self.store.reserve(1)?;
        let number = self.numbers + 1;
        let name = OrderName {
            hour: self.hour,
            number,
        };
        self.events.push(Event::EnteredBlock {
            name,
            caller,
            order: *order,
        })?;
        self.numbers = number;
        let moment = self.events.len() as u64;
        let block = entered_block(number, caller, order, moment);
        let Ok(()) = self.store.rest_block(block) else {
            unreachable!();
        };
        Ok(number)
    }
}

/// The record of a caller's block that enters under a number, at a moment.
pub fn entered_block(number: u32, caller: u32, order: &BlockOrder, moment: u64) -> RestingBlock
    ensures { (hour : ℕ) → result ≡ entered_resting_block (record { hour = hour; number = number }) caller order.now moment }
{
    RestingBlock {
        number,
        caller,
        zone: order.zone,
        side: order.side,
        price: order.price,
        quantity: order.quantity.0,
        last: order.last,
        moment,
    }
}
