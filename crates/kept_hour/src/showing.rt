//! What a board shows of the book of its hour.

ghost use Rattle.std.specs.Prelude.{◌≡◌, ℕ, ◌<◌, IsSome, IsTrue};
ghost use Rattle.std.specs.List.{list_any};
ghost use Rattle.std.specs.Option.{option_map};
ghost use Rattle.order_kinds.specs.declared.side.Side.{Side};
ghost use Rattle.contract_book.specs.Book as books;
ghost use Rattle.kept_hour.specs.Showing.{shown_record};

use contract_book::{ContractBook, Resting};
use market_model::{Shown, Side};

// What a board shows of a record.
fn shown(order: Resting) -> Shown
    ensures { result ≡ shown_record order }
{
    Shown {
        number: order.number,
        zone: order.zone,
        side: order.side,
        price: order.price,
        lots: order.shown,
        moment: order.moment,
    }
}

/// What shows of the first order of a part and side.
pub(crate) fn first_shown(book: &ContractBook, part: u32, side: Side) -> Option<Shown>
    requires { part < books.parts_of book.now }
    ensures { result ≡ option_map shown_record (books.first_of (books.line_of book.now part side)) }
{
    let order = book.first(part, side)?;
    Some(shown(order))
}

/// What shows of the order behind another one.
pub(crate) fn shown_behind(book: &ContractBook, number: u32) -> Option<Shown>
    requires { IsSome (books.order_of book.now number) }
    ensures { (part : ℕ) (side : Side)
        → IsTrue (list_any (books.has_number number) (books.line_of book.now part side))
        → result ≡ option_map shown_record (books.after_in number (books.line_of book.now part side)) }
{
    let order = book.after(number)?;
    Some(shown(order))
}
