//! Copies, each once with ample memory.

use crate::made::{expect_all_copied, expect_copied, put};
use crate::setups::setup_of;
use market_model::{
    Arc, BlockOrder, Command, Commands, Contract, Event, Events, Kind, Leg, Lots, Order, OrderName,
    Orders, Part, Phase, Price, Quarter, Refusal, Reply, Route, Rows, Side, ViewRow, Zones,
};
use std::alloc::Global;
use std::process::Abort;

const NAME: OrderName = OrderName {
    hour: 12,
    number: 7,
};

const ORDER: Order = Order {
    contract: Contract {
        hour: 12,
        part: Part::Half(2),
    },
    zone: 1,
    side: Side::Sell,
    price: Price(-1),
    quantity: Lots(100),
    kind: Kind::Iceberg {
        peak: Lots(30),
        delta: 10,
    },
};

const BLOCK: BlockOrder = BlockOrder {
    first: 4,
    last: 6,
    zone: 0,
    side: Side::Buy,
    price: Price(2500),
    quantity: Lots(40),
};

const QUARTER: Quarter = Quarter {
    hour: 12,
    number: 3,
};

const ARC: Arc = Arc {
    border: 2,
    forward: false,
};

// A trade over one border.
fn leg(rt: &impl Abort, alloc: Global) -> Leg {
    let mut route = Route::new(alloc);
    put(rt, &mut route, ARC);
    Leg {
        taker: NAME,
        maker: OrderName {
            hour: 12,
            number: 3,
        },
        lots: 40,
        price: Price(5000),
        route,
    }
}

// Puts a command of each form of a trader's at the end.
fn push_trades(rt: &impl Abort, alloc: Global, commands: &mut Commands) {
    let mut orders = Orders::new(alloc);
    put(rt, &mut orders, ORDER);
    put(rt, commands, Command::EnterBasket { orders });
    put(rt, commands, Command::Enter { order: ORDER });
    put(rt, commands, Command::EnterBlock { order: BLOCK });
    put(rt, commands, Command::Cancel { name: NAME });
    put(rt, commands, Command::Reduce { name: NAME, to: 5 });
    put(rt, commands, Command::Blocks { first: 4, last: 6 });
    put(
        rt,
        commands,
        Command::View {
            contract: ORDER.contract,
            side: Side::Buy,
            zone: 2,
        },
    );
}

// Puts a command of each form of an operator's at the end.
fn push_operations(rt: &impl Abort, commands: &mut Commands) {
    put(
        rt,
        commands,
        Command::Offer {
            from: 1,
            to: 2,
            first: QUARTER,
            last: QUARTER,
            lots: 60,
        },
    );
    put(
        rt,
        commands,
        Command::Request {
            from: 2,
            to: 1,
            first: QUARTER,
            last: QUARTER,
            lots: 7,
        },
    );
    put(
        rt,
        commands,
        Command::Halt {
            from: 0,
            to: 1,
            first: 3,
            last: 9,
        },
    );
    put(
        rt,
        commands,
        Command::Resume {
            from: 1,
            to: 0,
            first: 4,
            last: 8,
        },
    );
    put(
        rt,
        commands,
        Command::Gate {
            hour: 5,
            phase: Phase::Local,
        },
    );
}

#[test]
fn commands_of_each_form_are_copied(rt: HostRuntime) {
    let mut commands = Commands::new(rt.alloc());
    push_trades(&rt, rt.alloc(), &mut commands);
    push_operations(&rt, &mut commands);
    expect_all_copied(&rt, &commands);
}

// Puts an event of each form that one order or block brings about at the end.
fn push_orders(rt: &impl Abort, alloc: Global, events: &mut Events) {
    put(
        rt,
        events,
        Event::Entered {
            name: NAME,
            caller: 4,
            order: ORDER,
        },
    );
    put(
        rt,
        events,
        Event::EnteredBlock {
            name: NAME,
            caller: 3,
            order: BLOCK,
        },
    );
    put(
        rt,
        events,
        Event::Leg {
            contract: ORDER.contract,
            leg: leg(rt, alloc),
        },
    );
    put(
        rt,
        events,
        Event::BlockLeg {
            first: 10,
            last: 13,
            leg: leg(rt, alloc),
        },
    );
    put(
        rt,
        events,
        Event::Withdrawn {
            name: NAME,
            lots: 11,
        },
    );
    put(rt, events, Event::Reduced { name: NAME, by: 2 });
}

// Puts an event of each form that an operator brings about at the end.
fn push_changes(rt: &impl Abort, events: &mut Events) {
    put(
        rt,
        events,
        Event::Granted {
            arc: ARC,
            first: QUARTER,
            last: QUARTER,
            lots: 1,
        },
    );
    put(
        rt,
        events,
        Event::Offered {
            arc: ARC,
            first: QUARTER,
            last: QUARTER,
            lots: 9,
        },
    );
    put(
        rt,
        events,
        Event::Halted {
            border: 2,
            first: 1,
            last: 24,
        },
    );
    put(
        rt,
        events,
        Event::Resumed {
            border: 2,
            first: 5,
            last: 6,
        },
    );
    put(
        rt,
        events,
        Event::Gated {
            hour: 6,
            phase: Phase::Closed,
        },
    );
}

#[test]
fn events_of_each_form_are_copied(rt: HostRuntime) {
    let mut events = Events::new(rt.alloc());
    push_orders(&rt, rt.alloc(), &mut events);
    push_changes(&rt, &mut events);
    expect_all_copied(&rt, &events);
}

// The rows of a view.
fn seen(rt: &impl Abort, alloc: Global) -> Reply {
    let mut rows = Rows::new(alloc);
    put(
        rt,
        &mut rows,
        ViewRow {
            price: Price(4000),
            lots: 20,
        },
    );
    Reply::Seen(rows)
}

// The refusal of a basket that is not filled.
fn unfilled(rt: &impl Abort, alloc: Global) -> Reply {
    let mut zones = Zones::new(alloc);
    put(rt, &mut zones, 3);
    Reply::Refused(Refusal::BasketUnfilled {
        hour: 11,
        zones,
        bound: 30,
    })
}

#[test]
fn replies_are_copied(rt: HostRuntime) {
    let below_flow = Refusal::BelowFlow {
        quarter: QUARTER,
        flow: 50,
    };
    expect_copied(&rt, &Reply::Done(Events::new(rt.alloc())));
    expect_copied(&rt, &Reply::Refused(below_flow));
    expect_copied(&rt, &seen(&rt, rt.alloc()));
    expect_copied(&rt, &unfilled(&rt, rt.alloc()));
}

#[test]
fn a_setup_is_copied(rt: HostRuntime) {
    expect_copied(&rt, &setup_of(&rt, rt.alloc()));
}
