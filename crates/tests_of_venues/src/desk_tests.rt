//! How many lists of rows a desk makes anew: those of the zones that could trade with one that a command touches.

use crate::commands::{Ask, command_of};
use crate::setups::market;
use desk_market::DeskMarket;
use market_model::{Command, Side};
use std::alloc::Global;
use std::test::Fail;
use zone_graph::Grid;

// The hour of the desk.
const HOUR: u32 = 12;

// An order of the hour, in a zone.
fn order(zone: u32, side: Side, lots: u32, cents: i32) -> Ask {
    Ask::Order {
        hour: HOUR,
        zone,
        side,
        lots,
        cents,
    }
}

// How many lists of rows the desk of the hour makes anew for a caller's command.
fn lists_made(
    alloc: Global,
    market: &mut DeskMarket,
    caller: u32,
    command: Command,
) -> Result<u64, Fail> {
    let setup = market.setup();
    if setup.hours < HOUR || caller as usize >= setup.callers.len() || !market.has_room(caller) {
        return Err(Fail::from("the caller may give no command"));
    }
    let before = market.desk(HOUR).views().made();
    market.give(alloc, caller, command)?;
    Ok(market.desk(HOUR).views().made().wrapping_sub(before))
}

#[test]
fn a_desk_makes_the_lists_near_what_a_command_touches(rt: HostRuntime) -> Result<(), Fail> {
    let alloc: Global = rt.alloc();
    let setup = market(alloc, b"FR", 2, 100)?;
    let Ok(grid) = Grid::new(alloc, &setup.zones, &setup.borders) else {
        return Err(Fail::from("the zones make no grid"));
    };
    let mut market = DeskMarket::new(alloc, grid, &setup)?;
    let every_list = 7 * 2 * 2;
    let offer = Ask::Offer {
        hours: (HOUR, HOUR),
        lots: 50,
    };
    let elsewhere = Ask::Offer {
        hours: (HOUR + 1, HOUR + 1),
        lots: 50,
    };
    for (caller, ask, lists) in [
        // No arc has room: a sell is near its own zone alone.
        (0, order(0, Side::Sell, 50, 4000), 1),
        (2, elsewhere, 0),
        (2, offer, every_list),
        // From the first zone to the second there is room, and none back.
        (0, order(1, Side::Sell, 20, 4100), 1),
        (0, order(0, Side::Sell, 10, 4200), 2),
        (1, order(0, Side::Buy, 10, 3000), 1),
        (1, order(1, Side::Buy, 10, 3000), 2),
        // A command that is refused touches nothing.
        (2, order(1, Side::Buy, 10, 3000), 0),
        // A leg over the border changes the rooms of every part.
        (1, order(1, Side::Buy, 30, 4000), every_list),
        // One in its zone does not, and the flow before has opened the way back: the buy was near both zones.
        (0, order(0, Side::Sell, 10, 3000), 2),
    ] {
        let made = lists_made(alloc, &mut market, caller, command_of(alloc, ask)?)?;
        assert_eq!(rt; made, lists, "{ask:?}");
    }
    Ok(())
}
