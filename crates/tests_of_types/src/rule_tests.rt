//! Commands that break a rule by themselves, and the hours that commands touch.

use crate::made::expect;
use crate::setups::setup_of;
use market_model::{
    BlockOrder, Command, Contract, Hours, Kind, Lots, Order, OrderName, Orders, Part, Price,
    Quarter, Refusal, Side, refuse_early, touches,
};
use std::alloc::Global;
use std::process::Abort;
use zone_graph::Grid;

const TRADER: u32 = 0;

const OPERATOR: u32 = 1;

const ORDER: Order = Order {
    contract: Contract {
        hour: 12,
        part: Part::Half(2),
    },
    zone: 1,
    side: Side::Sell,
    price: Price(-1),
    quantity: Lots(100),
    kind: Kind::Fok,
};

const BLOCK: BlockOrder = BlockOrder {
    first: 3,
    last: 5,
    zone: 1,
    side: Side::Buy,
    price: Price(4000),
    quantity: Lots(10),
};

fn quarter(hour: u32, number: u32) -> Quarter {
    Quarter { hour, number }
}

fn enter(order: Order) -> Command {
    Command::Enter { order }
}

fn offer(first: Quarter, last: Quarter, lots: u32) -> Command {
    Command::Offer {
        from: 1,
        to: 0,
        first,
        last,
        lots,
    }
}

fn basket<R: Abort + AllocGlobal>(rt: &R, orders: &[Order]) -> Command {
    Command::EnterBasket {
        orders: Orders::from(Vec::from_slice(rt.alloc(), orders).expect(rt, "memory")),
    }
}

// The order for another hour.
fn at_hour(hour: u32) -> Order {
    Order {
        contract: Contract {
            hour,
            ..ORDER.contract
        },
        ..ORDER
    }
}

// The first rule that a command of a caller breaks by itself, if it breaks one.
fn refusal_of<R: Abort + AllocGlobal>(rt: &R, caller: u32, command: &Command) -> Option<Refusal> {
    let setup = setup_of(rt, rt.alloc());
    let grid = Grid::new(rt.alloc(), &setup.zones, &setup.borders).expect(rt, "a grid");
    assert!(rt; caller < 2);
    refuse_early(&grid, &setup, caller, command)
}

fn refuses<R: Abort + AllocGlobal>(
    rt: &R,
    caller: u32,
    command: Command,
    refusal: Option<Refusal>,
) {
    let refused = refusal_of(rt, caller, &command);
    expect(rt, &command, refused, refusal);
}

// The rule that a command breaks by itself before any other.
fn breaks<R: Abort + AllocGlobal>(rt: &R, caller: u32, command: Command, rule: Refusal) {
    refuses(rt, caller, command, Some(rule));
}

#[test]
fn the_first_broken_rule_on_names_is_the_refusal(rt: HostRuntime) {
    let early = enter(at_hour(0));
    let late = enter(at_hour(26));
    let far = enter(Order { zone: 3, ..ORDER });
    breaks(&rt, OPERATOR, enter(ORDER), Refusal::WrongRole);
    breaks(&rt, TRADER, early, Refusal::UnknownHour);
    breaks(&rt, TRADER, late, Refusal::UnknownHour);
    breaks(&rt, TRADER, far, Refusal::UnknownZone);
    refuses(&rt, TRADER, enter(ORDER), None);
}

#[test]
fn the_first_broken_rule_on_periods_is_the_refusal(rt: HostRuntime) {
    let fifth = offer(quarter(3, 1), quarter(3, 5), 1);
    let halt = Command::Halt {
        from: 0,
        to: 2,
        first: 1,
        last: 1,
    };
    let blocks = Command::Blocks { first: 1, last: 25 };
    breaks(&rt, OPERATOR, fifth, Refusal::UnknownContract);
    breaks(&rt, OPERATOR, halt, Refusal::UnknownBorder);
    breaks(&rt, TRADER, blocks, Refusal::BadPeriod);
    breaks(
        &rt,
        TRADER,
        basket(&rt, &[ORDER, ORDER]),
        Refusal::BadBasket,
    );
}

#[test]
fn the_first_broken_rule_on_numbers_is_the_refusal(rt: HostRuntime) {
    let dear_and_empty = Order {
        price: Price(999901),
        quantity: Lots(0),
        ..ORDER
    };
    let one_peak = Order {
        kind: Kind::Iceberg {
            peak: Lots(100),
            delta: 0,
        },
        ..ORDER
    };
    let too_many = offer(quarter(3, 2), quarter(4, 1), 1_000_001);
    let most = offer(quarter(3, 2), quarter(4, 1), 1_000_000);
    breaks(&rt, TRADER, enter(dear_and_empty), Refusal::PriceOutOfRange);
    breaks(&rt, OPERATOR, too_many, Refusal::QuantityOutOfRange);
    breaks(&rt, TRADER, enter(one_peak), Refusal::BadPeak);
    refuses(&rt, OPERATOR, most, None);
}

// The hours that a command of a caller touches.
fn touched_by<R: Abort + AllocGlobal>(rt: &R, caller: u32, command: &Command) -> Hours {
    let setup = setup_of(rt, rt.alloc());
    let grid = Grid::new(rt.alloc(), &setup.zones, &setup.borders).expect(rt, "a grid");
    assert!(rt; caller < 2);
    touches(&grid, &setup, caller, command)
}

fn touch<R: Abort + AllocGlobal>(rt: &R, caller: u32, command: Command, hours: u32) {
    let touched = touched_by(rt, caller, &command);
    expect(rt, &command, touched, Hours(hours));
}

#[test]
fn commands_touch_the_hours_that_they_name(rt: HostRuntime) {
    let name = OrderName { hour: 7, number: 1 };
    let two_hours = offer(quarter(3, 2), quarter(4, 1), 1);
    let basket_of_two_hours = basket(&rt, &[at_hour(2), at_hour(25)]);
    touch(&rt, TRADER, Command::EnterBlock { order: BLOCK }, 0b1_1100);
    touch(&rt, OPERATOR, two_hours, 0b1100);
    touch(&rt, TRADER, basket_of_two_hours, 0x100_0002);
    touch(&rt, TRADER, Command::Reduce { name, to: 0 }, 0b100_0000);
    touch(&rt, OPERATOR, Command::Reduce { name, to: 0 }, 0);
}

// Hours, and whether the set of hours 3, 5 and 32 has them.
const FOUND: [(u32, bool); 6] = [
    (0, false),
    (3, true),
    (4, false),
    (5, true),
    (32, true),
    (33, false),
];

#[test]
fn hours_are_found_in_a_set(rt: HostRuntime) {
    for (hour, want) in FOUND.as_slice() {
        expect(&rt, hour, Hours(0x8000_0014).contains(*hour), *want);
    }
}

#[test]
fn the_first_hour_of_a_set(rt: HostRuntime) {
    let hours = Hours(0x8000_0014);
    assert_eq!(rt; hours.first(), Some(3));
    assert_eq!(rt; Hours::EMPTY.first(), None);
    assert!(rt; Hours::EMPTY.is_empty() && !hours.is_empty());
}
