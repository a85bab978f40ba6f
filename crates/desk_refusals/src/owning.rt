//! What a caller has open in the hour.

ghost use Rattle.std.specs.Prelude.{◌≡◌, None, IfSome, is_some};
ghost use Rattle.contract_book.specs.Book.{order_of};
ghost use Rattle.laws_of_books.specs.BookOf.{book_of};
ghost use Rattle.hour_store.specs.Contents.{IsOfPart};
ghost use Rattle.kept_hour.specs.State.{name_in};
ghost use Rattle.market_model.specs.Refusals.{has_own};
ghost use Rattle.desk_refusals.specs.Found as found;
ghost use Rattle.desk_refusals.specs.Owned as owned;

use crate::found::{is_limit, open_block, open_order, part_of};
use block_book::RestingBlock;
use contract_book::Resting;
use kept_hour::KeptHour;

/// What a caller has open under a number of an hour.
#[derive(Clone, Copy, Debug)]
pub enum Own {
    /// An order.
    Order {
        /// The number of its part: 0 is the hour, 1 to 4 are its quarters, 5 and 6 its halves.
        part: u32,

        /// The lots that are left of it.
        left: u32,
    },

    /// A block.
    Block {
        /// The lots that are left of it, in each of its hours.
        left: u32,
    },
}

impl Own {
    /// The number of the part in which it rests: of a block, which rests in none, that of the hour.
    pub fn part(self) -> u32
        ensures { result ≡ owned.part_of self }
    {
        match self {
            Own::Order { part, .. } => part,
            Own::Block { .. } => 0,
        }
    }

    /// The lots that are left of it.
    pub fn left(self) -> u32
        ensures { result ≡ owned.left_of self }
    {
        match self {
            Own::Order { left, .. } | Own::Block { left } => left,
        }
    }
}

/// What the caller has open under a number of the hour: an order or a block, with what is left of it, or
/// `None` exactly where it has neither. No order is in hand.
pub fn own_of(hour: &KeptHour, caller: u32, number: u32) -> Option<Own>
    requires free { hour.now.board.hand ≡ None }
    ensures own { result ≡ owned.own_of hour.now.board.events caller (name_in hour.now number) }
    ensures known { is_some result ≡ has_own hour.now.board.events caller (name_in hour.now number) }
    ensures part { IfSome result (λ own. IfSome (order_of (book_of hour.now.board.events hour.now.board.hour) number)
        (λ order. IsOfPart (book_of hour.now.board.events hour.now.board.hour) (owned.part_of own) order)) }
{
    // The events show that they are an hour's of some history.
    let _ = hour.events();
    match own_order(hour, caller, number) {
        Some(order) => Some(Own::Order {
            part: part_of(hour, order),
            left: order.left,
        }),
        None => {
            let block = own_block(hour, caller, number)?;
            Some(Own::Block {
                left: block.quantity,
            })
        }
    }
}

/// The caller's plain limit order of a number, if it is open. No order is in hand.
pub(crate) fn own_limit(hour: &KeptHour, caller: u32, number: u32) -> Option<Resting>
    requires free { hour.now.board.hand ≡ None }
    ensures { result ≡ found.own_limit_order hour.now.board.events caller (name_in hour.now number) }
{
    let order = own_order(hour, caller, number)?;
    if is_limit(hour, order) {
        Some(order)
    } else {
        None
    }
}

// The caller's order of a number, if it is open.
fn own_order(hour: &KeptHour, caller: u32, number: u32) -> Option<Resting>
    requires free { hour.now.board.hand ≡ None }
    ensures order { result ≡ found.own_order hour.now.board.events caller (name_in hour.now number) }
    ensures number { IfSome result (λ order. order.number ≡ number) }
{
    let order = open_order(hour, number)?;
    if order.caller == caller {
        Some(order)
    } else {
        None
    }
}

// The caller's block of a number, if it is open.
fn own_block(hour: &KeptHour, caller: u32, number: u32) -> Option<RestingBlock>
    ensures { result ≡ found.own_block hour.now.board.events caller (name_in hour.now number) }
{
    let block = open_block(hour, number)?;
    if block.caller == caller {
        Some(block)
    } else {
        None
    }
}
