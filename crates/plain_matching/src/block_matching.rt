//! Deals of resting blocks.

ghost use Rattle.std.specs.Prelude.{◌≡◌, ◌++◌, IfOk, OnOk, OnErr, flat_map, is_some};
ghost use Rattle.zone_graph.specs.Grid.{IsGrid};
ghost use Rattle.market_model.specs.Blocks as blocks;
ghost use Rattle.market_model.specs.Sweep.{first_answer};
ghost use Rattle.plain_matching.specs.BlockEntering.{IsHistoryOver};
ghost use Rattle.plain_matching.specs.Meeting as meeting;
ghost use Rattle.plain_matching.specs.Grown.{Grew};

use crate::deal::deal_with_first;
use event_history::History;
use market_model::{NoMemory, Side};
use plain_orders::{StandingBlock, block_line, blocks_of};
use std::alloc::Global;
use zone_graph::Grid;

/// Matches the resting blocks of a period, deal by deal, until no two of them can trade: the legs of
/// the deals go to the end of the events. Each is at the price of the block that was there earlier.
///
/// # Errors
///
/// [`NoMemory`], where there is no memory for what a deal is made from or for a leg: some of the legs,
/// and legs that were tried, can then stand behind the events.
pub fn match_deals(
    alloc: Global,
    grid: &Grid,
    events: &mut History,
    first: u32,
    last: u32,
) -> Result<(), NoMemory>
    requires history { IsHistoryOver grid.now events.old }
    ensures ok { OnOk result (events.new ≡ events.old ++ flat_map (λ deal. deal) (blocks.block_deals grid.now first last events.old)) }
    ensures err { OnErr result (Grew events.old events.new) }
{
    while deal_next(alloc, grid, events, first, last)? {}
    Ok(())
}

// Makes the next deal of a period, of the first buy block in priority that has a partner. Whether
// there is one.
fn deal_next(
    alloc: Global,
    grid: &Grid,
    events: &mut History,
    first: u32,
    last: u32,
) -> Result<bool, NoMemory>
    requires history { IsHistoryOver grid.now events.old }
    ensures found { IfOk result (λ found. found ≡ is_some (blocks.block_deal grid.now first last events.old)) }
    ensures ok { OnOk result (events.new ≡ events.old ++ meeting.legs_of (blocks.block_deal grid.now first last events.old)) }
    ensures err { OnErr result (Grew events.old events.new) }
    ensures grid { IsGrid grid.now }
{
    let zones = grid.zones();
    prove!(zones <= 64);
    let resting = blocks_of(alloc, events, first)?;
    let buys = block_line(alloc, resting.as_slice(), first, last, Side::Buy)?;
    let sells = block_line(alloc, resting.as_slice(), first, last, Side::Sell)?;
    deal_of_first(alloc, grid, events, buys.as_slice(), sells.as_slice())
}

// Makes the deal of the first of some buy blocks that has a partner in a line of sell blocks. Whether
// there is one.
fn deal_of_first(
    alloc: Global,
    grid: &Grid,
    events: &mut History,
    buys: &[StandingBlock],
    sells: &[StandingBlock],
) -> Result<bool, NoMemory>
    requires meet { meeting.AllMeet grid.now events.old buys.now sells.now }
    ensures found { IfOk result (λ found. found ≡ is_some (first_answer (meeting.deal_in grid.now events.old sells.now) buys.now)) }
    ensures ok { OnOk result (events.new ≡ events.old ++ meeting.legs_of (first_answer (meeting.deal_in grid.now events.old sells.now) buys.now)) }
    ensures err { OnErr result (Grew events.old events.new) }
{
    for buy in buys {
        if deal_with_first(alloc, grid, events, buy, sells)? {
            return Ok(true);
        }
    }
    Ok(false)
}
