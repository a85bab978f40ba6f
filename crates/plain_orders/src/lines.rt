//! The lines of the order book.

ghost use Rattle.std.specs.Prelude.{◌≡◌, IfOk, filter};
ghost use Rattle.market_model.specs.Blocks.{block_priority_cmp};
ghost use Rattle.market_model.specs.Lines.{priority_cmp};
ghost use Rattle.order_kinds.specs.Same.{same_contract, same_side};
ghost use Rattle.order_kinds.specs.Side.{price_cmp};
ghost use Rattle.plain_orders.specs.Listed as listed;
ghost use Rattle.zone_graph.specs.InOrder.{in_order};

use crate::standing::{StandingBlock, StandingOrder};
use market_model::{Contract, NoMemory, Price, Side};
use std::alloc::Global;
use std::cmp::Ordering;

/// The line of a contract and side: its open orders among these, the better price first, then the
/// earlier moment, then the smaller number.
///
/// # Errors
///
/// [`NoMemory`], where there is no memory for the line or to put it in order.
pub fn line(
    alloc: Global,
    orders: &[StandingOrder],
    contract: Contract,
    side: Side,
) -> Result<Vec<StandingOrder>, NoMemory>
    ensures { IfOk result (λ made. made.items ≡ listed.line_of orders.now contract side) }
{
    let mut line = Vec::new(alloc);
    for order in orders {
        if is_in_line(order, contract, side) {
            line.push(*order)?;
        }
    }
    line.sort_by(|one, other| in_priority(side, one, other))?;
    Ok(line)
}

/// The best price of the line of a contract and side, that of its first order, in cents per MWh: the
/// highest of the buys, or the lowest of the sells. `None` exactly where the line is empty. The orders
/// are passed over once, and no line is made.
pub fn best_price(orders: &[StandingOrder], contract: Contract, side: Side) -> Option<Price>
    ensures { result ≡ listed.best_price orders.now contract side }
{
    let mut best = None;
    for order in orders {
        best = best_with(order, contract, side, best);
    }
    best
}

/// The best price of a line so far, with an order that may be of it.
#[inline(always)]
pub(crate) fn best_with(
    order: &StandingOrder,
    contract: Contract,
    side: Side,
    best: Option<Price>,
) -> Option<Price>
    ensures { result ≡ listed.best_with contract side order.now best }
{
    if is_in_line(order, contract, side) {
        Some(better_of(side, order.price(), best))
    } else {
        best
    }
}

// The better of a price of a side and the best so far, if there is one.
fn better_of(side: Side, price: Price, best: Option<Price>) -> Price
    ensures { result ≡ listed.better_of side price best }
{
    match best {
        Some(best) if !side.prefers(price, best) => best,
        _ => price,
    }
}

/// Whether an order is open, of a contract and on a side: it is of that line.
#[inline(always)]
pub fn is_in_line(order: &StandingOrder, contract: Contract, side: Side) -> bool
    ensures { result ≡ listed.is_in_line contract side order.now }
{
    order.left() > 0 && order.order().contract == contract && order.order().side == side
}

/// Whether an order of a side has priority over the first one so far, if there is one.
#[inline(always)]
pub fn goes_first(side: Side, order: &StandingOrder, first: &Option<StandingOrder>) -> bool
    ensures { result ≡ listed.goes_first side order.now first.now }
{
    match first {
        Some(first) => in_priority(side, order, first) == Ordering::Less,
        None => true,
    }
}

// How two orders of a side stand in priority.
fn in_priority(side: Side, one: &StandingOrder, other: &StandingOrder) -> Ordering
    ensures { result ≡ priority_cmp side one.now other.now }
{
    by_price(side, one.price(), other.price())
        .then(one.moment().cmp(&other.moment()))
        .then(one.name().number.cmp(&other.name().number))
}

// How two prices of a side stand in priority.
fn by_price(side: Side, one: Price, other: Price) -> Ordering
    ensures { result ≡ price_cmp side one other }
{
    match side {
        Side::Buy => other.0.cmp(&one.0),
        Side::Sell => one.0.cmp(&other.0),
    }
}

/// The line of a period of hours and a side: its open blocks among these, of all quantities, the
/// better price first, then the earlier moment, then the smaller number.
///
/// # Errors
///
/// [`NoMemory`], where there is no memory for the line or to put it in order.
pub fn block_line(
    alloc: Global,
    blocks: &[StandingBlock],
    first: u32,
    last: u32,
    side: Side,
) -> Result<Vec<StandingBlock>, NoMemory>
    ensures { IfOk result (λ made. made.items ≡ listed.block_line_of blocks.now first last side) }
{
    let mut line = Vec::new(alloc);
    for block in blocks {
        if is_in_block_line(block, first, last, side) {
            line.push(*block)?;
        }
    }
    line.sort_by(|one, other| in_block_priority(side, one, other))?;
    Ok(line)
}

// Whether a block is open, of a period and on a side.
fn is_in_block_line(block: &StandingBlock, first: u32, last: u32, side: Side) -> bool
    ensures { result ≡ listed.is_in_block_line first last side block.now }
{
    let order = block.order();
    block.left() > 0 && order.first == first && order.last == last && order.side == side
}

// How two blocks of a side stand in priority.
fn in_block_priority(side: Side, one: &StandingBlock, other: &StandingBlock) -> Ordering
    ensures { result ≡ block_priority_cmp side one.now other.now }
{
    by_price(side, one.order().price, other.order().price)
        .then(one.moment().cmp(&other.moment()))
        .then(one.name().number.cmp(&other.name().number))
}

/// The open orders of an hour make the lines of its contracts: what [`line`] answers from what
/// [`crate::open_orders`] answers is the market's line.
pub fn lines_are_of_orders()
    ensures { listed.LinesAreOfOrders }
{}

/// The blocks that are named by an hour make the lines of the periods that it begins: what
/// [`block_line`] answers from what [`crate::blocks_of`] answers is the market's line.
pub fn block_lines_are_of_blocks()
    ensures { listed.BlockLinesAreOfBlocks }
{}
