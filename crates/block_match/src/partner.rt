//! The partner of a block.

ghost use Rattle.std.specs.Prelude.{◌≡◌, ℕ, IfOk, IfSome, IsSome, length};
ghost use Rattle.order_kinds.specs.Side.{opposite};
ghost use Rattle.zone_graph.specs.Graph.{HasZone, border_count};
ghost use Rattle.zone_graph.specs.Rooms.{room_of};
ghost use Rattle.zone_graph.specs.Route.{IsIn};
ghost use Rattle.block_book.specs.declared.block.RestingBlock.{RestingBlock as Block};
ghost use Rattle.block_book.specs.Book as books;
ghost use Rattle.block_match.specs.Meeting as meeting;
ghost use Rattle.block_match.specs.Walking as walking;
ghost use Rattle.cut_proof.specs.Carrying.{FitTogether};

use crate::pouring::pour_whole;
use block_book::{BlockBook, RestingBlock};
use std::alloc::Global;
use zone_graph::{Grid, Legs, NoMemory, Rooms};

/// The partner of a block, and the legs between the two.
#[derive(Drop)]
pub(crate) struct Partner {
    pub block: RestingBlock,
    pub legs: Legs,
}

/// The partner of a block, with the legs between the two: the first of the blocks that its price
/// crosses to which the pour carries its whole quantity.
///
/// # Errors
///
/// [`NoMemory`] where memory runs out.
pub(crate) fn partner_of(
    alloc: Global,
    grid: &Grid,
    book: &BlockBook,
    rooms: &Rooms,
    scratch: &mut Option<Rooms>,
    own: &RestingBlock,
) -> Result<Option<Partner>, NoMemory>
    requires own { HasZone grid.now own.now.zone }
    requires zones { meeting.HaveZones grid.now book.now }
    requires size { length rooms.now ≡ border_count grid.now }
    requires fit { FitTogether grid.now (room_of rooms.now) }
    requires scratch { IfSome scratch.old (λ rooms. length rooms ≡ border_count grid.now) }
    ensures partner { IfOk result (λ partner. partner ≡ walking.partner_with_legs grid.now (room_of rooms.now) book.now own.now) }
    ensures scratch { IfSome scratch.new (λ rooms. length rooms ≡ border_count grid.now) }
{
    let resting = book.len();
    prove!(resting <= 4096);
    let mut next = first_crossed(book, own);
    while let Some(other) = next {
        if let Some(legs) = pour_whole(alloc, grid, rooms, scratch, own, &other)? {
            return Ok(Some(Partner { block: other, legs }));
        }
        next = next_crossed(book, own, &other);
    }
    Ok(None)
}

// The first block of the opposite line of a block's period and quantity, if its price crosses.
fn first_crossed(book: &BlockBook, own: &RestingBlock) -> Option<RestingBlock>
    ensures { result ≡ walking.if_crossed own.now (books.first_of (walking.opposite_line book.now own.now)) }
{
    let first = book.first(own.last, own.quantity, own.side.opposite());
    if_crossed(own, first)
}

// The block of that line behind another one, if its price crosses.
fn next_crossed(book: &BlockBook, own: &RestingBlock, other: &RestingBlock) -> Option<RestingBlock>
    requires there { books.block_of book.now other.now.number ≡ Some other.now }
    requires in_line { IsIn other.now (walking.opposite_line book.now own.now) }
    ensures { result ≡ walking.if_crossed own.now (books.after_in other.now.number (walking.opposite_line book.now own.now)) }
{
    let next = book.after(other.number);
    if_crossed(own, next)
}

// A block that is found, if the price of another one crosses it.
fn if_crossed(own: &RestingBlock, found: Option<RestingBlock>) -> Option<RestingBlock>
    ensures { result ≡ walking.if_crossed own.now found }
{
    let other = found?;
    if own.side.crosses(own.price, other.price) {
        Some(other)
    } else {
        None
    }
}
