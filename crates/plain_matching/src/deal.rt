//! The deal of two blocks, wholly or not at all.

ghost use Rattle.std.specs.Prelude.{◌≡◌, ◌++◌, IfOk, OnOk, OnErr, is_some};
ghost use Rattle.std.specs.Ordering.{is_lt};
ghost use Rattle.market_model.specs.Blocks as blocks;
ghost use Rattle.plain_matching.specs.Meeting as meeting;
ghost use Rattle.plain_matching.specs.Grown.{Grew};

use crate::cutting_back::cut_back;
use crate::pouring::pour;
use event_history::History;
use market_model::NoMemory;
use plain_orders::{StandingBlock, left};
use std::alloc::Global;
use std::cmp::Ordering;
use zone_graph::Grid;

/// Makes the deal of a block with its partner in a line of the other side: the first with which it can
/// trade. The legs go to the end of the events. Whether there is one.
///
/// # Errors
///
/// [`NoMemory`], where there is no memory for what a leg is made from or for a leg: legs that were
/// tried can then stand behind the events.
pub(crate) fn deal_with_first(
    alloc: Global,
    grid: &Grid,
    events: &mut History,
    own: &StandingBlock,
    line: &[StandingBlock],
) -> Result<bool, NoMemory>
    requires meets { meeting.MeetsAll grid.now events.old own.now line.now }
    ensures found { IfOk result (λ found. found ≡ is_some (meeting.deal_in grid.now events.old line.now own.now)) }
    ensures ok { OnOk result (events.new ≡ events.old ++ meeting.legs_of (meeting.deal_in grid.now events.old line.now own.now)) }
    ensures err { OnErr result (Grew events.old events.new) }
{
    for other in line {
        if deal(alloc, grid, events, own, other)? {
            return Ok(true);
        }
    }
    Ok(false)
}

// Makes the deal of two blocks if they can trade: the one that was there earlier is the maker. Whether
// they can.
fn deal(
    alloc: Global,
    grid: &Grid,
    events: &mut History,
    own: &StandingBlock,
    other: &StandingBlock,
) -> Result<bool, NoMemory>
    requires meet { meeting.Meet grid.now events.old own.now other.now }
    ensures found { IfOk result (λ found. found ≡ blocks.can_trade_blocks grid.now events.old own.now other.now) }
    ensures ok { OnOk result (events.new ≡ events.old ++ meeting.deal_if (blocks.can_trade_blocks grid.now events.old own.now other.now) grid.now events.old own.now other.now) }
    ensures err { OnErr result (Grew events.old events.new) }
{
    if !is_match(own, other) {
        return Ok(false);
    }
    if is_earlier(own, other) {
        pour_whole(alloc, grid, events, other, own)
    } else {
        pour_whole(alloc, grid, events, own, other)
    }
}

// Whether two blocks are of the same quantity, at prices that cross.
fn is_match(own: &StandingBlock, other: &StandingBlock) -> bool
    ensures { result ≡ meeting.is_match own.now other.now }
{
    let order = own.order();
    let another = other.order();
    another.quantity == order.quantity && order.side.crosses(order.price, another.price)
}

// Whether a block has priority by time.
fn is_earlier(one: &StandingBlock, other: &StandingBlock) -> bool
    ensures { result ≡ is_lt (blocks.block_time_cmp one.now other.now) }
{
    by_time(one, other) == Ordering::Less
}

// How two blocks stand in time.
fn by_time(one: &StandingBlock, other: &StandingBlock) -> Ordering
    ensures { result ≡ blocks.block_time_cmp one.now other.now }
{
    one.moment()
        .cmp(&other.moment())
        .then(one.name().number.cmp(&other.name().number))
}

// Puts the legs of the pour between two blocks to the end of the events if they carry all that is left
// of the taker. Whether they do.
fn pour_whole(
    alloc: Global,
    grid: &Grid,
    events: &mut History,
    taker: &StandingBlock,
    maker: &StandingBlock,
) -> Result<bool, NoMemory>
    requires pair { meeting.ArePoured grid.now events.old taker.now maker.now }
    ensures found { IfOk result (λ found. found ≡ blocks.carries_whole grid.now events.old taker.now maker.now) }
    ensures ok { OnOk result (events.new ≡ events.old ++ meeting.legs_if (blocks.carries_whole grid.now events.old taker.now maker.now) (blocks.block_legs grid.now taker.now maker.now events.old)) }
    ensures err { OnErr result (Grew events.old events.new) }
{
    let mark = events.len();
    pour(alloc, grid, events, taker, maker)?;
    let is_whole = left(events, taker.name()) == 0;
    if !is_whole {
        cut_back(events, mark);
    }
    Ok(is_whole)
}
