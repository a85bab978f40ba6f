//! The next deal.

ghost use Rattle.std.specs.Prelude.{◌≡◌, ℕ, IfOk, length};
ghost use Rattle.zone_graph.specs.Graph.{HasZone, border_count};
ghost use Rattle.zone_graph.specs.Rooms.{room_of};
ghost use Rattle.block_match.specs.Deals as deals;
ghost use Rattle.block_match.specs.Meeting as meeting;
ghost use Rattle.block_match.specs.Walking as walking;
ghost use Rattle.cut_proof.specs.Carrying.{FitTogether};

use crate::deal::{BlockDeal, deal_over, is_earlier};
use crate::partner::{Partner, partner_of};
use block_book::{BlockBook, RestingBlock};
use order_kinds::Side;
use std::alloc::Global;
use zone_graph::{Grid, Legs, NoMemory, Rooms};

/// The deal of a block, which takes, with its partner: the first block of the opposite line of its
/// period in priority that is of the same quantity, whose price crosses, and for which the pour over
/// the rooms of the period carries the whole quantity from the seller's zone to the buyer's. `None`
/// exactly where the book has no such block.
///
/// The zones of the block and of the book's blocks are in the grid. The rooms are those of its arcs
/// over the whole period, the two of a border less than 2^32 lots together; they stay as they are.
///
/// # Errors
///
/// [`NoMemory`] where memory runs out.
pub fn match_block(
    alloc: Global,
    grid: &Grid,
    book: &BlockBook,
    rooms: &Rooms,
    block: &RestingBlock,
) -> Result<Option<BlockDeal>, NoMemory>
    requires block { HasZone grid.now block.now.zone }
    requires zones { meeting.HaveZones grid.now book.now }
    requires size { length rooms.now ≡ border_count grid.now }
    requires fit { FitTogether grid.now (room_of rooms.now) }
    ensures { IfOk result (λ deal. deal ≡ deals.deal_of_block grid.now (room_of rooms.now) book.now block.now) }
{
    let mut scratch = None;
    let Some(partner) = partner_of(alloc, grid, book, rooms, &mut scratch, block)? else {
        return Ok(None);
    };
    let Partner { block: maker, legs } = partner;
    Ok(Some(deal_over(block, &maker, legs)))
}

/// The next deal of the resting blocks of the period that ends with an hour: the first buy block in
/// priority that has a partner trades with it. The one that was there earlier is the maker. `None`
/// exactly where no buy block of the period has a partner.
///
/// The zones of the book's blocks are in the grid. The rooms are those of its arcs over the whole
/// period, the two of a border less than 2^32 lots together; they stay as they are.
///
/// # Errors
///
/// [`NoMemory`] where memory runs out.
pub fn match_resting(
    alloc: Global,
    grid: &Grid,
    book: &BlockBook,
    rooms: &Rooms,
    last: u32,
) -> Result<Option<BlockDeal>, NoMemory>
    requires zones { meeting.HaveZones grid.now book.now }
    requires size { length rooms.now ≡ border_count grid.now }
    requires fit { FitTogether grid.now (room_of rooms.now) }
    ensures { IfOk result (λ deal. deal ≡ deals.deal_of_period grid.now (room_of rooms.now) book.now last) }
{
    let resting = book.len();
    prove!(resting <= 4096);
    let mut scratch = None;
    let mut next = book.first_any(last, Side::Buy);
    while let Some(buy) = next {
        if let Some(partner) = partner_of(alloc, grid, book, rooms, &mut scratch, &buy)? {
            let Partner { block: sell, legs } = partner;
            return Ok(Some(resting_deal(&buy, &sell, legs)));
        }
        next = book.after_any(buy.number);
    }
    Ok(None)
}

// The deal of a resting buy block with a sell block over the legs between them: the one that was there
// earlier is the maker.
fn resting_deal(buy: &RestingBlock, sell: &RestingBlock, legs: Legs) -> BlockDeal
    ensures { result ≡ walking.resting_deal_over buy.now sell.now legs }
{
    if is_earlier(buy, sell) {
        deal_over(sell, buy, legs)
    } else {
        deal_over(buy, sell, legs)
    }
}
