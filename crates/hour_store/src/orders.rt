//! How changes of the books are taken back.

ghost use Rattle.std.specs.Prelude.{◌≡◌};
ghost use Rattle.contract_book.specs.Book as orders;
ghost use Rattle.block_book.specs.Book as blocks;
ghost use Rattle.hour_store.specs.TakenBack.{CanRestAgain, CanRestBlock};

use block_book::{BlockBook, RestingBlock};
use contract_book::{ContractBook, Resting};

/// Puts the old record of an order into its part in the stead of the one that rests, if one does.
pub fn put_back(book: &mut ContractBook, part: u32, was: Resting)
    requires { CanRestAgain book.old part was }
    ensures { book.new ≡ orders.with_order (orders.without book.old was.number) part was }
{
    book.withdraw(was.number);
    let Ok(()) = book.rest(part, was) else {
        unreachable!();
    };
}

/// Puts a block that left back.
pub fn put_block_back(book: &mut BlockBook, was: RestingBlock)
    requires { CanRestBlock book.old was }
    ensures { book.new ≡ blocks.with_block book.old was }
{
    let Ok(()) = book.rest(was) else {
        unreachable!();
    };
}
