//! Examples from outside: what is accepted and refused, and how things are printed.

use crate::made::expect;
use order_kinds::{
    BlockOrder, Contract, Kind, Lots, Order, OrderFault, OrderName, Part, Phase, Price, Quarter,
    Side, check_block, check_order,
};
use std::alloc::Global;
use std::fmt::Display;
use std::process::Abort;

// An order for hour 12 in zone 0.
fn order(side: Side, price: i32, quantity: u32, kind: Kind) -> Order {
    Order {
        contract: Contract {
            hour: 12,
            part: Part::Hour,
        },
        zone: 0,
        side,
        price: Price(price),
        quantity: Lots(quantity),
        kind,
    }
}

fn iceberg(peak: u32, delta: u32) -> Kind {
    Kind::Iceberg {
        peak: Lots(peak),
        delta,
    }
}

const OUT_OF_PRICE: Result<(), OrderFault> = Err(OrderFault::PriceOutOfRange);

const OUT_OF_QUANTITY: Result<(), OrderFault> = Err(OrderFault::QuantityOutOfRange);

const BAD_PEAK: Result<(), OrderFault> = Err(OrderFault::BadPeak);

// Prices with quantities, and what is answered to each.
const PRICES_AND_QUANTITIES: [(i32, u32, Result<(), OrderFault>); 9] = [
    (-999900, 10, Ok(())),
    (999900, 10, Ok(())),
    (-999901, 10, OUT_OF_PRICE),
    (999901, 10, OUT_OF_PRICE),
    (1000, 1, Ok(())),
    (1000, 9990, Ok(())),
    (1000, 0, OUT_OF_QUANTITY),
    (1000, 9991, OUT_OF_QUANTITY),
    (1000000, 0, OUT_OF_PRICE),
];

// What is answered to an order.
fn expect_order(rt: &impl Abort, order: &Order, answer: Result<(), OrderFault>) {
    expect(rt, order, check_order(order), answer);
}

// What is answered to a block of this price and quantity.
fn expect_block(rt: &impl Abort, price: i32, quantity: u32, answer: Result<(), OrderFault>) {
    let block = BlockOrder {
        first: 10,
        last: 13,
        zone: 0,
        side: Side::Sell,
        price: Price(price),
        quantity: Lots(quantity),
    };
    expect(rt, &block, check_block(&block), answer);
}

#[test]
fn prices_and_quantities_at_their_ends(rt: HostRuntime) {
    for (price, quantity, answer) in PRICES_AND_QUANTITIES.as_slice() {
        let buy = order(Side::Buy, *price, *quantity, Kind::Limit);
        expect_order(&rt, &buy, *answer);
        let sell = order(Side::Sell, *price, *quantity, Kind::Fok);
        expect_order(&rt, &sell, *answer);
        expect_block(&rt, *price, *quantity, *answer);
    }
}

// An iceberg's side, its price, its lots, its peak and its delta, and what is answered.
const ICEBERGS: [(Side, i32, u32, u32, u32, Result<(), OrderFault>); 15] = [
    (Side::Sell, 5000, 100, 30, 0, Ok(())),
    (Side::Sell, 999870, 100, 30, 10, Ok(())),
    (Side::Sell, 999880, 100, 30, 10, BAD_PEAK),
    (Side::Buy, 999900, 100, 30, 10, Ok(())),
    (Side::Buy, -999870, 100, 30, 10, Ok(())),
    (Side::Buy, -999880, 100, 30, 10, BAD_PEAK),
    (Side::Sell, 6000, 30, 30, 0, BAD_PEAK),
    (Side::Sell, 6000, 30, 0, 0, BAD_PEAK),
    (Side::Sell, 6000, 1, 1, 0, BAD_PEAK),
    (Side::Sell, 6000, 100, 1, 0, Ok(())),
    (Side::Sell, 6000, 101, 1, 0, BAD_PEAK),
    (Side::Sell, 6000, 9990, 100, 0, Ok(())),
    (Side::Sell, 6000, 9990, 99, 0, BAD_PEAK),
    (Side::Sell, 6000, 31, 30, 4294967295, BAD_PEAK),
    (Side::Sell, 6000, 0, 30, 0, OUT_OF_QUANTITY),
];

#[test]
fn peaks_of_icebergs(rt: HostRuntime) {
    for (side, price, total, peak, delta, answer) in ICEBERGS.as_slice() {
        let order = order(*side, *price, *total, iceberg(*peak, *delta));
        expect_order(&rt, &order, *answer);
    }
}

// A side, two prices in cents, whether the first crosses the other, and whether it is better.
const TWO_PRICES: [(Side, i32, i32, bool, bool); 6] = [
    (Side::Buy, 4000, 4000, true, false),
    (Side::Buy, 4001, 4000, true, true),
    (Side::Buy, -4001, -4000, false, false),
    (Side::Sell, 4000, 4000, true, false),
    (Side::Sell, 4001, 4000, false, false),
    (Side::Sell, -4001, -4000, true, true),
];

#[test]
fn crossing_and_better_prices(rt: HostRuntime) {
    for case in TWO_PRICES.as_slice() {
        let (side, one, other, crosses, prefers) = *case;
        let (one, other) = (Price(one), Price(other));
        expect(&rt, case, side.crosses(one, other), crosses);
        expect(&rt, case, side.prefers(one, other), prefers);
    }
}

#[test]
fn each_side_is_opposite_to_the_other(rt: HostRuntime) {
    assert_eq!(rt; Side::Buy.opposite(), Side::Sell);
    assert_eq!(rt; Side::Sell.opposite(), Side::Buy);
}

// A part, whether it is known, and which quarters it covers.
const PARTS: [(Part, bool, [bool; 4]); 8] = [
    (Part::Hour, true, [true, true, true, true]),
    (Part::Quarter(3), true, [false, false, true, false]),
    (Part::Half(1), true, [true, true, false, false]),
    (Part::Half(2), true, [false, false, true, true]),
    (Part::Quarter(0), false, [false, false, false, false]),
    (Part::Quarter(5), false, [false, false, false, false]),
    (Part::Half(0), false, [false, false, false, false]),
    (Part::Half(3), false, [false, false, false, false]),
];

fn covered(part: Part) -> [bool; 4] {
    [
        part.covers(1),
        part.covers(2),
        part.covers(3),
        part.covers(4),
    ]
}

#[test]
fn parts_and_their_quarters(rt: HostRuntime) {
    for (part, known, quarters) in PARTS.as_slice() {
        expect(&rt, part, part.is_known(), *known);
        expect(&rt, part, covered(*part), *quarters);
    }
}

// A value is printed as this text.
fn expect_printed<T: Display>(rt: &impl Abort, alloc: Global, value: &T, text: &str) {
    let printed = format!(in alloc; "{value}").expect(rt, "memory");
    assert_eq!(rt; printed.as_str(), text);
}

const PRICES: [(i32, &str); 8] = [
    (0, "0.00"),
    (5000, "50.00"),
    (1, "0.01"),
    (10, "0.10"),
    (-1, "-0.01"),
    (-110, "-1.10"),
    (-999900, "-9999.00"),
    (999900, "9999.00"),
];

const QUANTITIES: [(u32, &str); 4] = [(0, "0.0"), (1, "0.1"), (100, "10.0"), (9990, "999.0")];

#[test]
fn printed_prices_and_lots(rt: HostRuntime) {
    for (cents, text) in PRICES.as_slice() {
        expect_printed(&rt, rt.alloc(), &Price(*cents), text);
    }
    for (lots, text) in QUANTITIES.as_slice() {
        expect_printed(&rt, rt.alloc(), &Lots(*lots), text);
    }
}

const CONTRACTS: [(Part, &str); 3] = [
    (Part::Hour, "h12"),
    (Part::Quarter(3), "h12q3"),
    (Part::Half(2), "h12f2"),
];

// An hour, a number, and how the quarter and the order of that number are printed.
const NUMBERED: [(u32, u32, &str, &str); 2] = [(12, 3, "h12q3", "h12#3"), (1, 4, "h1q4", "h1#4")];

#[test]
fn printed_contracts_and_names(rt: HostRuntime) {
    for (part, text) in CONTRACTS.as_slice() {
        let contract = Contract {
            hour: 12,
            part: *part,
        };
        expect_printed(&rt, rt.alloc(), &contract, text);
    }
    for (hour, number, quarter, name) in NUMBERED.as_slice() {
        let (hour, number) = (*hour, *number);
        expect_printed(&rt, rt.alloc(), &Quarter { hour, number }, quarter);
        expect_printed(&rt, rt.alloc(), &OrderName { hour, number }, name);
    }
}

const PHASES: [(Phase, &str); 3] = [
    (Phase::Open, "open"),
    (Phase::Local, "local"),
    (Phase::Closed, "closed"),
];

const SIDES: [(Side, &str); 2] = [(Side::Buy, "buy"), (Side::Sell, "sell")];

#[test]
fn printed_phases_and_sides(rt: HostRuntime) {
    for (phase, text) in PHASES.as_slice() {
        expect_printed(&rt, rt.alloc(), phase, text);
    }
    for (side, text) in SIDES.as_slice() {
        expect_printed(&rt, rt.alloc(), side, text);
    }
}
