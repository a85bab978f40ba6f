//! Callers at a venue.

use crate::answers::Want;
use crate::commands::{Ask, enter};
use crate::party::Party;
use crate::setups::market;
use market_model::Side;
use std::alloc::Global;
use std::process::Abort;
use std::sync::Wait;
use std::test::Fail;
use venue_core::{GridFault, OpenFault, Receipt, SubmitFault};

#[test]
fn two_zones_of_one_name_open_no_venue(rt: HostRuntime) -> Result<(), Fail> {
    let alloc: Global = rt.alloc();
    let opened = Party::open(alloc, market(alloc, b"DE", 1, 1)?);
    assert_eq!(rt;
        opened.err(),
        Some(OpenFault::BadSetup(GridFault::ZoneTwice))
    );
    Ok(())
}

#[test]
fn a_caller_has_its_room_and_no_more(rt: HostRuntime) -> Result<(), Fail> {
    let alloc: Global = rt.alloc();
    let mut party = Party::open(alloc, market(alloc, b"FR", 1, 1)?)?;
    assert_eq!(rt; party.front(&rt, 0), 0);
    let receipt = party.submit(&rt, alloc, 0, enter(12, 0, Side::Sell, 10, 4000))?;
    assert_eq!(rt; receipt.place, 1);
    let rests = Want::Done { events: 1, lots: 0 };
    assert!(rt;
        rests.is_met(&receipt.reply),
        "{receipt:?}, and not {rests:?}"
    );
    assert_eq!(rt; party.front(&rt, 0), 1);
    let again = party.submit(&rt, alloc, 0, enter(12, 0, Side::Sell, 10, 4000));
    assert_eq!(rt; again.err(), Some(SubmitFault::JournalFull { entries: 1 }));
    assert_eq!(rt; party.close(&rt).entries().len(), 1);
    Ok(())
}

#[test]
fn a_caller_is_told_of_entries_that_it_has_not_seen(rt: HostRuntime) -> Result<(), Fail> {
    let alloc: Global = rt.alloc();
    let mut party = Party::open(alloc, market(alloc, b"FR", 2, 1)?)?;
    let receipt = party.submit(&rt, alloc, 0, enter(12, 0, Side::Sell, 10, 4000))?;
    assert_eq!(rt; receipt.place, 1);
    assert_eq!(rt; party.front(&rt, 1), 1);
    assert_eq!(rt; party.made(&rt, 1), 0);
    assert_eq!(rt; party.close(&rt).entries().len(), 1);
    Ok(())
}

// Two traders and an operator submit commands, and each gets its place in the journal and the answer that is wanted.
fn check_table<R: Wait + Abort>(
    rt: &R,
    alloc: Global,
    table: &[(usize, Ask, Want)],
) -> Result<(), Fail> {
    let mut party = open_again(alloc)?;
    check_answers(rt, alloc, &mut party, table)?;
    assert_eq!(rt; party.close(rt).entries().len(), table.len());
    Ok(())
}

// Opens a venue for two traders and an operator, once more where memory ran out.
fn open_again(alloc: Global) -> Result<Party, OpenFault> {
    match open(alloc) {
        Err(OpenFault::NoMemory) => open(alloc),
        opened => opened,
    }
}

fn open(alloc: Global) -> Result<Party, OpenFault> {
    Party::open(alloc, market(alloc, b"FR", 2, 100)?)
}

fn check_answers<R: Wait + Abort>(
    rt: &R,
    alloc: Global,
    party: &mut Party,
    table: &[(usize, Ask, Want)],
) -> Result<(), SubmitFault> {
    for (place, &(caller, ask, want)) in (1..=u64::MAX).zip(table.iter()) {
        let receipt = ask_again(rt, alloc, party, caller, ask)?;
        check_answer(rt, &receipt, place, ask, want);
    }
    Ok(())
}

// Submits a command of a caller that is asked for. Where memory runs out the caller is told of as many entries as
// before, and submits it once more.
fn ask_again<R: Wait + Abort>(
    rt: &R,
    alloc: Global,
    party: &mut Party,
    caller: usize,
    ask: Ask,
) -> Result<Receipt, SubmitFault> {
    let told = (party.front(rt, caller), party.made(rt, caller));
    match party.ask(rt, alloc, caller, ask) {
        Err(SubmitFault::NoMemory) => {
            assert_eq!(rt; (party.front(rt, caller), party.made(rt, caller)), told);
            party.ask(rt, alloc, caller, ask)
        }
        answered => answered,
    }
}

fn check_answer<R: Abort>(rt: &R, receipt: &Receipt, place: u64, ask: Ask, want: Want) {
    assert!(rt;
        receipt.place == place && want.is_met(&receipt.reply),
        "{ask:?} at place {place}: {receipt:?}, and not {want:?}"
    );
}

// Sells and buys in the first zone, which trade at once.
const ORDERS: [(usize, Ask, Want); 5] = [
    (2, SELL, Want::WrongRole),
    (0, SELL_NOTHING, Want::QuantityOutOfRange),
    (0, SELL, Want::Done { events: 1, lots: 0 }),
    (
        1,
        BUY,
        Want::Done {
            events: 2,
            lots: 20,
        },
    ),
    (
        1,
        BUY,
        Want::Done {
            events: 2,
            lots: 10,
        },
    ),
];

const SELL: Ask = Ask::Order {
    hour: 12,
    zone: 0,
    side: Side::Sell,
    lots: 30,
    cents: 4000,
};

const SELL_NOTHING: Ask = Ask::Order {
    hour: 12,
    zone: 0,
    side: Side::Sell,
    lots: 0,
    cents: 4000,
};

const BUY: Ask = Ask::Order {
    hour: 12,
    zone: 0,
    side: Side::Buy,
    lots: 20,
    cents: 4500,
};

#[test]
fn callers_trade_orders(rt: HostRuntime) -> Result<(), Fail> {
    check_table(&rt, rt.alloc(), ORDERS.as_slice())
}

const HOURS: (u32, u32) = (12, 13);

// Blocks of two zones, which trade once an offer joins them.
const BLOCKS: [(usize, Ask, Want); 5] = [
    (0, SELL_BLOCK, Want::Done { events: 1, lots: 0 }),
    (1, BUY_BLOCK, Want::Done { events: 1, lots: 0 }),
    (0, OFFER, Want::WrongRole),
    (2, OFFER, Want::Done { events: 1, lots: 0 }),
    (
        1,
        Ask::Blocks { hours: HOURS },
        Want::Done {
            events: 1,
            lots: 50,
        },
    ),
];

const SELL_BLOCK: Ask = Ask::Block {
    hours: HOURS,
    zone: 0,
    side: Side::Sell,
    lots: 50,
    cents: 4000,
};

const BUY_BLOCK: Ask = Ask::Block {
    hours: HOURS,
    zone: 1,
    side: Side::Buy,
    lots: 50,
    cents: 4500,
};

const OFFER: Ask = Ask::Offer {
    hours: HOURS,
    lots: 50,
};

#[test]
fn callers_trade_blocks(rt: HostRuntime) -> Result<(), Fail> {
    check_table(&rt, rt.alloc(), BLOCKS.as_slice())
}

// Two sells, and baskets that buy them or do not.
const BASKETS: [(usize, Ask, Want); 5] = [
    (0, SELL_AT_TEN, Want::Done { events: 1, lots: 0 }),
    (0, SELL_AT_ELEVEN, Want::Done { events: 1, lots: 0 }),
    (
        1,
        Ask::Basket {
            one: (10, 50),
            other: (11, 40),
        },
        Want::BasketUnfilled {
            hour: 11,
            bound: 30,
        },
    ),
    (
        1,
        Ask::Basket {
            one: (11, 30),
            other: (10, 50),
        },
        Want::BadBasket,
    ),
    (
        1,
        Ask::Basket {
            one: (10, 50),
            other: (11, 30),
        },
        Want::Done {
            events: 4,
            lots: 80,
        },
    ),
];

const SELL_AT_TEN: Ask = Ask::Order {
    hour: 10,
    zone: 0,
    side: Side::Sell,
    lots: 50,
    cents: 4000,
};

const SELL_AT_ELEVEN: Ask = Ask::Order {
    hour: 11,
    zone: 0,
    side: Side::Sell,
    lots: 30,
    cents: 4100,
};

#[test]
fn callers_trade_baskets(rt: HostRuntime) -> Result<(), Fail> {
    check_table(&rt, rt.alloc(), BASKETS.as_slice())
}
