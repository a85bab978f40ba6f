//! Drawn sessions: texts compared with those of another program, and the summary of a journal that is made by
//! hand.

ghost use Rattle.std.specs.Prelude.{◌≤◌};

use load_maker::{session_text, summary};
use market_model::{
    Arc, Command, Contract, Entries, Entry, Event, Events, Leg, OrderName, Part, Phase, Price,
    Quarter, Refusal, Reply, Route, Rows, ViewRow,
};
use sha2::{Digest, Sha256};
use std::process::Abort;
use zone_graph::Sequence;

// How many commands, and the digest of the text that another program has drawn.
const DIGESTS: [(u32, &str); 4] = [
    (
        1,
        "cfef5a937c80887852b047ce59b1de3d1fec569c053c3f889666e973ba67b245",
    ),
    (
        40,
        "29a8193f81a764b41e17b47c0a22b6d5175f01ffa3cb85bdc091326c91a0c67b",
    ),
    (
        41,
        "d3c89eac26101069d814e88eb12e7a26495168563040fb96c48d901936df8457",
    ),
    (
        2000,
        "d34bef5c6c6cdb922d28dfebfb4ec42aa91b57ef1a665d522ce40743078db589",
    ),
];

// The text of so many commands has this digest, in hex.
fn expect_digest(rt: &(impl Abort + AllocGlobal), n: u32, wanted: &str)
    requires some { 1 ≤ n }
    requires few { n ≤ 100000 }
{
    let text = session_text(rt.alloc(), n).expect(rt, "memory");
    let digest = hex::encode(rt.alloc(), Sha256::digest(text.bytes())).expect(rt, "memory");
    assert_eq!(rt; digest.as_str(), wanted, "{n}");
}

#[test]
fn texts_are_those_of_another_program(rt: HostRuntime) {
    for (n, wanted) in DIGESTS.as_slice() {
        assert!(rt; 1 <= *n && *n <= 100000);
        expect_digest(&rt, *n, wanted);
    }
}

// Puts an item at the end of a list.
fn put<T: Drop>(rt: &impl Abort, list: &mut Sequence<T>, item: T) {
    list.push(item).expect(rt, "memory");
}

// Puts an entry at the end whose command does not matter to a summary.
fn put_reply(rt: &impl Abort, entries: &mut Entries, nth: u32, reply: Reply) {
    let command = Command::Gate {
        hour: 12,
        phase: Phase::Local,
    };
    let entry = Entry {
        caller: 0,
        nth,
        command,
        reply,
    };
    put(rt, entries, entry);
}

// The name of an order of hour 12.
fn name(number: u32) -> OrderName {
    OrderName { hour: 12, number }
}

// A trade of so many lots over two borders.
fn trade(rt: &(impl Abort + AllocGlobal), lots: u32) -> Leg {
    let mut route = Route::new(rt.alloc());
    put(rt, &mut route, Arc::over(3, true));
    put(rt, &mut route, Arc::over(1, false));
    Leg {
        taker: name(2),
        maker: name(1),
        lots,
        price: Price(5000),
        route,
    }
}

// Puts a leg of orders of so many lots at the end.
fn put_leg(rt: &(impl Abort + AllocGlobal), events: &mut Events, lots: u32) {
    let contract = Contract {
        hour: 12,
        part: Part::Hour,
    };
    let leg = trade(rt, lots);
    put(rt, events, Event::Leg { contract, leg });
}

// Puts a leg of blocks of so many lots at the end.
fn put_block_leg(rt: &(impl Abort + AllocGlobal), events: &mut Events, lots: u32) {
    let (first, last) = (12, 14);
    let leg = trade(rt, lots);
    put(rt, events, Event::BlockLeg { first, last, leg });
}

// Puts events at the end that trade nothing, though three of them have lots.
fn put_without_a_trade(rt: &impl Abort, events: &mut Events) {
    let arc = Arc::over(0, true);
    let first = Quarter {
        hour: 12,
        number: 1,
    };
    let granted = Event::Granted {
        arc,
        first,
        last: first,
        lots: 1000,
    };
    put(rt, events, granted);
    let withdrawn = Event::Withdrawn {
        name: name(3),
        lots: 500,
    };
    put(rt, events, withdrawn);
    let reduced = Event::Reduced {
        name: name(4),
        by: 70,
    };
    put(rt, events, reduced);
    let gated = Event::Gated {
        hour: 12,
        phase: Phase::Local,
    };
    put(rt, events, gated);
}

// Two legs of orders, then a leg of blocks.
fn put_trades(rt: &(impl Abort + AllocGlobal), entries: &mut Entries) {
    let mut orders = Events::new(rt.alloc());
    put_leg(rt, &mut orders, 40);
    put_leg(rt, &mut orders, 7);
    put_reply(rt, entries, 1, Reply::Done(orders));
    let mut blocks = Events::new(rt.alloc());
    put_block_leg(rt, &mut blocks, 50);
    put_reply(rt, entries, 2, Reply::Done(blocks));
}

// Legs behind events that trade nothing, of as many lots as can be.
fn put_more_trades(rt: &(impl Abort + AllocGlobal), entries: &mut Entries) {
    let mut events = Events::new(rt.alloc());
    put_without_a_trade(rt, &mut events);
    put_leg(rt, &mut events, 4_294_967_295);
    put_block_leg(rt, &mut events, 25);
    put_leg(rt, &mut events, 1);
    put_reply(rt, entries, 3, Reply::Done(events));
}

// Events that trade nothing, two refusals and a view.
fn put_other_replies(rt: &(impl Abort + AllocGlobal), entries: &mut Entries) {
    let mut events = Events::new(rt.alloc());
    put_without_a_trade(rt, &mut events);
    put_reply(rt, entries, 4, Reply::Done(events));
    put_reply(rt, entries, 5, Reply::Refused(Refusal::WrongRole));
    let closed = Refusal::Closed { hour: 12 };
    put_reply(rt, entries, 6, Reply::Refused(closed));
    let mut rows = Rows::new(rt.alloc());
    let row = ViewRow {
        price: Price(5000),
        lots: 900,
    };
    put(rt, &mut rows, row);
    put_reply(rt, entries, 7, Reply::Seen(rows));
}

// The summary of some entries is this text.
fn expect_summary(rt: &(impl Abort + AllocGlobal), entries: &[Entry], wanted: &[u8]) {
    let text = summary(rt.alloc(), entries).expect(rt, "memory");
    assert_eq!(rt; text.bytes(), wanted);
}

#[test]
fn an_empty_journal_is_summed_up(rt: HostRuntime) {
    let wanted = b"entries 0\nrefused 0\nlegs 0\nblocklegs 0\nlots 0\n";
    expect_summary(&rt, &[], wanted);
}

#[test]
fn legs_of_orders_and_of_blocks_are_summed_up(rt: HostRuntime) {
    let mut entries = Entries::new(rt.alloc());
    put_trades(&rt, &mut entries);
    put_more_trades(&rt, &mut entries);
    put_other_replies(&rt, &mut entries);
    let wanted = b"entries 7\nrefused 2\nlegs 4\nblocklegs 2\nlots 4294967418\n";
    expect_summary(&rt, entries.as_slice(), wanted);
}
