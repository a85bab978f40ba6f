//! Commands that the tests submit.

use market_model::{
    BlockOrder, Command, Contract, Kind, Lots, Order, Orders, Part, Price, Quarter, Side,
};
use std::alloc::Global;
use venue_core::NoMemory;

// A command as a table of tests has it.
#[derive(Clone, Copy, Debug, Drop)]
pub(crate) enum Ask {
    // A limit order of the hourly contract of an hour, in a zone.
    Order {
        hour: u32,
        zone: u32,
        side: Side,
        lots: u32,
        cents: i32,
    },
    // A block of some hours, in a zone.
    Block {
        hours: (u32, u32),
        zone: u32,
        side: Side,
        lots: u32,
        cents: i32,
    },
    // The blocks of some hours are matched.
    Blocks {
        hours: (u32, u32),
    },
    // Two fill-or-kill orders that buy in the first zone at 45.00, each an hour and its lots.
    Basket {
        one: (u32, u32),
        other: (u32, u32),
    },
    // So many lots from the first zone to the second, in all quarters of some hours.
    Offer {
        hours: (u32, u32),
        lots: u32,
    },
}

// The command that is asked for.
pub(crate) fn command_of(alloc: Global, ask: Ask) -> Result<Command, NoMemory> {
    Ok(match ask {
        Ask::Order {
            hour,
            zone,
            side,
            lots,
            cents,
        } => enter(hour, zone, side, lots, cents),
        Ask::Block {
            hours: (first, last),
            zone,
            side,
            lots,
            cents,
        } => Command::EnterBlock {
            order: BlockOrder {
                first,
                last,
                zone,
                side,
                price: Price(cents),
                quantity: Lots(lots),
            },
        },
        Ask::Blocks {
            hours: (first, last),
        } => Command::Blocks { first, last },
        Ask::Basket { one, other } => basket(alloc, one, other)?,
        Ask::Offer {
            hours: (first, last),
            lots,
        } => offer(first, last, lots),
    })
}

// An order of the hourly contract of an hour, in a zone.
fn order(hour: u32, zone: u32, side: Side, lots: u32, cents: i32, kind: Kind) -> Order {
    Order {
        contract: Contract {
            hour,
            part: Part::Hour,
        },
        zone,
        side,
        price: Price(cents),
        quantity: Lots(lots),
        kind,
    }
}

// A limit order of the hourly contract of an hour enters, in a zone.
pub(crate) fn enter(hour: u32, zone: u32, side: Side, lots: u32, cents: i32) -> Command {
    Command::Enter {
        order: order(hour, zone, side, lots, cents, Kind::Limit),
    }
}

// Two fill-or-kill orders enter, which buy in the first zone at 45.00.
fn basket(alloc: Global, one: (u32, u32), other: (u32, u32)) -> Result<Command, NoMemory> {
    let mut orders = Orders::new(alloc);
    orders.push(order(one.0, 0, Side::Buy, one.1, 4500, Kind::Fok))?;
    orders.push(order(other.0, 0, Side::Buy, other.1, 4500, Kind::Fok))?;
    Ok(Command::EnterBasket { orders })
}

// So many lots are offered from the first zone to the second, in all quarters of some hours.
fn offer(first: u32, last: u32, lots: u32) -> Command {
    Command::Offer {
        from: 0,
        to: 1,
        first: Quarter {
            hour: first,
            number: 1,
        },
        last: Quarter {
            hour: last,
            number: 4,
        },
        lots,
    }
}
