//! The open orders and blocks of the hour by their numbers, and what the events tell of them.

ghost use Rattle.std.specs.Prelude.{◌≡◌, ◌≤◌, None, Some, IfSome};
ghost use Rattle.std.specs.Option.{option_map};
ghost use Rattle.order_kinds.specs.Contract.{part_number};
ghost use Rattle.order_kinds.specs.Order as kinds;
ghost use Rattle.kept_hour.specs.State.{name_in};
ghost use Rattle.laws_of_books.specs.BlocksOf as blocks;
ghost use Rattle.market_model.specs.Orders as orders;
ghost use Rattle.desk_refusals.specs.Found.{IsOpenAs, record_of};

use crate::told::{contract_told, enters_limit};
use block_book::RestingBlock;
use contract_book::Resting;
use kept_hour::{KeptHour, number_of};

/// The order of a number, if it is open. No order is in hand.
pub(crate) fn open_order(hour: &KeptHour, number: u32) -> Option<Resting>
    requires free { hour.now.board.hand ≡ None }
    ensures order { result ≡ option_map (record_of hour.now.board.events) (orders.open_order hour.now.board.events (name_in hour.now number)) }
    ensures number { IfSome result (λ order. order.number ≡ number) }
{
    // The events show that they are an hour's of some history.
    let _ = hour.events();
    hour.book().get(number)
}

/// The block of a number, if it is open.
pub(crate) fn open_block(hour: &KeptHour, number: u32) -> Option<RestingBlock>
    ensures { result ≡ option_map (blocks.resting_block hour.now.board.events) (orders.open_block hour.now.board.events (name_in hour.now number)) }
{
    let _ = hour.events();
    hour.blocks().get(number)
}

/// The number of the part in which an open order rests: the hour has 0, its quarters 1 to 4, its halves 5
/// and 6.
pub(crate) fn part_of(hour: &KeptHour, order: Resting) -> u32
    requires rests { IsOpenAs hour.now order }
    ensures { (placed : orders.Placed) → orders.open_order hour.now.board.events (name_in hour.now order.number) ≡ Some placed
        → result ≡ part_number placed.order.contract.part }
{
    let Some(contract) = contract_told(hour.events(), order.moment) else {
        unreachable!();
    };
    number_of(contract.part)
}

/// Whether an open order is a plain limit order.
pub(crate) fn is_limit(hour: &KeptHour, order: Resting) -> bool
    requires rests { IsOpenAs hour.now order }
    ensures { (placed : orders.Placed) → orders.open_order hour.now.board.events (name_in hour.now order.number) ≡ Some placed
        → result ≡ kinds.is_limit placed.order.kind }
{
    enters_limit(hour.events(), order.moment)
}
