//! Orders and blocks are withdrawn and reduced.

ghost use Rattle.std.specs.Prelude.{◌≡◌, None, IfSome, OnOk, OnErr};
ghost use Rattle.contract_book.specs.Book.{order_of};
ghost use Rattle.laws_of_books.specs.BookOf.{book_of};
ghost use Rattle.hour_store.specs.Contents.{IsOfPart};
ghost use Rattle.kept_hour.specs.State as states;

use crate::hour::KeptHour;
use market_model::{Event, OrderName};
use zone_graph::NoMemory;

impl KeptHour {
    /// Withdraws so many lots, all that is left, of an order of a part, or of a block. No order is in hand.
    ///
    /// # Errors
    ///
    /// [`NoMemory`] where memory runs out, and then nothing changes.
    pub fn withdraw(&mut self, part: u32, number: u32, lots: u32) -> Result<(), NoMemory>
        requires free { self.old.board.hand ≡ None }
        requires part { IfSome (order_of (book_of self.old.board.events self.old.board.hour) number)
            (λ order. IsOfPart (book_of self.old.board.events self.old.board.hour) part order) }
        requires next { states.CanBeNext self.old (states.withdrawal_of self.old number lots) }
        ensures withdrawn { OnOk result (self.new ≡ states.after_event self.old (states.withdrawal_of self.old number lots) None) }
        ensures unchanged { OnErr result (self.new ≡ self.old) }
    {
        self.store.reserve(2)?;
        let hour = self.hour;
        let name = OrderName { hour, number };
        self.events.push(Event::Withdrawn { name, lots })?;
        self.store.withdraw(part, number);
        self.store.withdraw_block(number);
        Ok(())
    }

    /// Takes so many lots off an order of a part, of which some are left. No order is in hand.
    ///
    /// # Errors
    ///
    /// [`NoMemory`] where memory runs out, and then nothing changes.
    pub fn reduce(&mut self, part: u32, number: u32, by: u32) -> Result<(), NoMemory>
        requires free { self.old.board.hand ≡ None }
        requires part { IfSome (order_of (book_of self.old.board.events self.old.board.hour) number)
            (λ order. IsOfPart (book_of self.old.board.events self.old.board.hour) part order) }
        requires next { states.CanBeNext self.old (states.reduction_of self.old number by) }
        ensures reduced { OnOk result (self.new ≡ states.after_event self.old (states.reduction_of self.old number by) None) }
        ensures unchanged { OnErr result (self.new ≡ self.old) }
    {
        self.store.reserve(1)?;
        let hour = self.hour;
        let name = OrderName { hour, number };
        self.events.push(Event::Reduced { name, by })?;
        self.store.reduce(part, number, by);
        Ok(())
    }
}
