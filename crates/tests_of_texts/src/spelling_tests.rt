//! Words that are spellings, with their values, and words that are none.

use jiff::civil::Date;
use market_spelling::{
    Heading, Verb, read_arc, read_cents, read_contract, read_date, read_heading, read_instant,
    read_order_name, read_phase, read_price, read_quantity, read_quarter, read_side, read_verb,
};
use order_kinds::{Contract, Lots, OrderName, Part, Phase, Price, Quarter, Side};
use std::fmt::Debug;
use std::process::Abort;

// What a word spells is what is wanted.
fn expect<T: PartialEq + Debug + Drop>(rt: &impl Abort, word: &[u8], found: T, wanted: T) {
    assert_eq!(rt; found, wanted, "{word:?}");
}

// Words, and the lots that they spell.
const QUANTITIES: [(&[u8], Option<Lots>); 14] = [
    (b"0.0", Some(Lots(0))),
    (b"0.1", Some(Lots(1))),
    (b"10.0", Some(Lots(100))),
    (b"9999999.9", Some(Lots(99999999))),
    (b"00.0", None),
    (b"01.0", None),
    (b"10000000.0", None),
    (b"1.00", None),
    (b"1", None),
    (b"1.", None),
    (b".1", None),
    (b"-1.0", None),
    (b"1.x", None),
    (b"", None),
];

// Words, and the prices that they spell.
const PRICES: [(&[u8], Option<Price>); 10] = [
    (b"0.00", Some(Price(0))),
    (b"-0.01", Some(Price(-1))),
    (b"50.05", Some(Price(5005))),
    (b"-9999999.99", Some(Price(-999999999))),
    (b"-0.00", None),
    (b"-00.01", None),
    (b"+1.00", None),
    (b"--1.00", None),
    (b"-", None),
    (b"1.0", None),
];

#[test]
fn numbers_are_exact(rt: HostRuntime) {
    for (word, lots) in QUANTITIES.as_slice() {
        expect(&rt, word, read_quantity(word), *lots);
    }
    for (word, price) in PRICES.as_slice() {
        expect(&rt, word, read_price(word), *price);
    }
    expect(&rt, b"0.05", read_cents(b"0.05"), Some(5));
    expect(&rt, b"-0.05", read_cents(b"-0.05"), None);
}

// Contracts, each with its hour and part.
const CONTRACTS: [(&[u8], u32, Part); 8] = [
    (b"h1", 1, Part::Hour),
    (b"h01", 1, Part::Hour),
    (b"h0", 0, Part::Hour),
    (b"h99", 99, Part::Hour),
    (b"h01q1", 1, Part::Quarter(1)),
    (b"h12q0", 12, Part::Quarter(0)),
    (b"h12q9", 12, Part::Quarter(9)),
    (b"h12f0", 12, Part::Half(0)),
];

// Words that are no contracts.
const NO_CONTRACTS: [&[u8]; 9] = [
    b"h", b"h123", b"12", b"H1", b"h1q", b"h1q12", b"h1x1", b"hq1", b"h-1",
];

// Words that are no quarters.
const NO_QUARTERS: [&[u8]; 4] = [b"h12", b"h12f1", b"h12q", b"q1"];

// Names of orders, each with its hour and number.
const ORDER_NAMES: [(&[u8], u32, u32); 3] = [
    (b"h1#01", 1, 1),
    (b"h12#0", 12, 0),
    (b"h24#999999999", 24, 999999999),
];

// Words that are no names of orders.
const NO_ORDER_NAMES: [&[u8]; 6] = [b"h1#", b"h1#1234567890", b"#1", b"h1", b"h1##1", b"h1#1#1"];

#[test]
fn contracts_are_exact(rt: HostRuntime) {
    for (word, hour, part) in CONTRACTS.as_slice() {
        let (hour, part) = (*hour, *part);
        expect(
            &rt,
            word,
            read_contract(word),
            Some(Contract { hour, part }),
        );
    }
    for word in NO_CONTRACTS.as_slice() {
        expect(&rt, word, read_contract(word), None);
    }
}

#[test]
fn quarters_are_exact(rt: HostRuntime) {
    let quarter = Quarter {
        hour: 12,
        number: 0,
    };
    expect(&rt, b"h12q0", read_quarter(b"h12q0"), Some(quarter));
    for word in NO_QUARTERS.as_slice() {
        expect(&rt, word, read_quarter(word), None);
    }
}

#[test]
fn names_of_orders_are_exact(rt: HostRuntime) {
    for (word, hour, number) in ORDER_NAMES.as_slice() {
        let (hour, number) = (*hour, *number);
        expect(
            &rt,
            word,
            read_order_name(word),
            Some(OrderName { hour, number }),
        );
    }
    for word in NO_ORDER_NAMES.as_slice() {
        expect(&rt, word, read_order_name(word), None);
    }
}

// Words, and the verbs that they are.
const VERBS: [(&[u8], Option<Verb>); 3] = [
    (b"buyblock", Some(Verb::EnterBlock(Side::Buy))),
    (b"clock", Some(Verb::Clock)),
    (b"clocks", None),
];

#[test]
fn verbs_and_headings_stand_for_themselves(rt: HostRuntime) {
    for (word, verb) in VERBS.as_slice() {
        expect(&rt, word, read_verb(word), *verb);
    }
    expect(
        &rt,
        b"operator",
        read_heading(b"operator"),
        Some(Heading::Operator),
    );
    expect(&rt, b"", read_heading(b""), None);
}

// Words that are no arcs.
const NO_ARCS: [&[u8]; 6] = [
    b"DE",
    b"DE>",
    b">FR",
    b"DE>FR>AT",
    b"D.E>FR",
    b"DE>seventeen_bytes_x",
];

#[test]
fn words_stand_for_themselves(rt: HostRuntime) {
    expect(&rt, b"sell", read_side(b"sell"), Some(Side::Sell));
    expect(&rt, b"Sell", read_side(b"Sell"), None);
    expect(&rt, b"local", read_phase(b"local"), Some(Phase::Local));
    expect(&rt, b"locals", read_phase(b"locals"), None);
    let ends = (b"DE".as_slice(), b"FR".as_slice());
    assert_eq!(rt; read_arc(b"DE>FR"), Some(ends));
    for word in NO_ARCS.as_slice() {
        assert!(rt; read_arc(word).is_none(), "{word:?}");
    }
}

// Words that are no dates that are traded.
const NO_DATES: [&[u8]; 8] = [
    b"2025-02-29",
    b"2025-04-31",
    b"1999-12-31",
    b"2100-01-01",
    b"2025-6-17",
    b"2025-13-01",
    b"2025-01-00",
    b"+025-01-01",
];

#[test]
fn dates_are_exact(rt: HostRuntime) {
    assert_eq!(rt; read_date(b"2024-02-29"), Date::new(2024, 2, 29).ok());
    for word in NO_DATES.as_slice() {
        assert!(rt; read_date(word).is_none(), "{word:?}");
    }
}

// Words, and the seconds since 1970 at their instants.
const INSTANTS: [(&[u8], i64); 3] = [
    (b"2000-01-01T00:00:00Z", 946_684_800),
    (b"2025-06-17T10:55:00Z", 1_750_157_700),
    (b"2099-12-31T23:59:59Z", 4_102_444_799),
];

// Words that are no instants.
const NO_INSTANTS: [&[u8]; 8] = [
    b"2025-06-17T24:00:00Z",
    b"2025-06-17T23:60:00Z",
    b"2025-06-17T23:00:60Z",
    b"2025-06-17 23:00:00Z",
    b"2025-06-17T23:00:00",
    b"2025-06-17T23:00:00z",
    b"2025-06-31T23:00:00Z",
    b"2025-06-17T23:00:00ZZ",
];

#[test]
fn instants_are_exact(rt: HostRuntime) {
    for (word, second) in INSTANTS.as_slice() {
        let found = read_instant(word).map(|instant| instant.as_second());
        expect(&rt, word, found, Some(*second));
    }
    for word in NO_INSTANTS.as_slice() {
        assert!(rt; read_instant(word).is_none(), "{word:?}");
    }
}
