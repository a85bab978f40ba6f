//! The commands of a generated session, as they are drawn.

ghost use Rattle.std.specs.Prelude.{◌≡◌, ◌<◌};
ghost use Rattle.load_maker.specs.Draws.{next_state, state_after};
ghost use Rattle.load_maker.specs.Commands as drawn;

use crate::drawn_lines::Given;
use crate::draws::Draws;
use market_model::{BlockOrder, Contract, Kind, Lots, Order, Part, Price, Quarter, Side};

// How many commands at the head of a session offer capacity: one for each arc.
const OFFERS: u32 = 40;

/// Draws the command of this place of a session, counted from 0: the first 40 offer capacity on
/// each border, forward and back, and all others enter an order or a block.
pub(crate) fn draw_command(draws: &mut Draws, place: u32) -> Given
    ensures command { result ≡ drawn.command_from place draws.old }
    ensures moved { draws.new ≡ drawn.state_left place draws.old }
{
    if place < OFFERS {
        draw_offer(draws, place)
    } else {
        draw_entry(draws)
    }
}

// Draws the offer of this place: of the whole day, with 50.0 to 99.9 MW.
fn draw_offer(draws: &mut Draws, place: u32) -> Given
    requires { place < OFFERS }
    ensures offer { result ≡ drawn.offer_from place draws.old }
    ensures moved { draws.new ≡ next_state draws.old }
{
    let (from, to) = offered_arc(place);
    Given::Offer {
        from,
        to,
        first: Quarter { hour: 1, number: 1 },
        last: Quarter {
            hour: 24,
            number: 4,
        },
        lots: Lots(500 + draws.below(500)),
    }
}

// The two zones of the arc that is offered at this place: of each border the forward arc and then
// the other one.
fn offered_arc(place: u32) -> (u32, u32)
    requires { place < OFFERS }
    ensures { result ≡ drawn.offered_arc place }
{
    let (first, second) = border_ends(place / 2);
    if place % 2 == 0 {
        (first, second)
    } else {
        (second, first)
    }
}

// The two zones of a border: the first 12 join each zone with the next in a ring, the other 8
// join each of the first eight zones with the fourth one after it.
fn border_ends(border: u32) -> (u32, u32)
    requires { border < 20 }
    ensures { result ≡ drawn.border_ends border }
{
    if border < 12 {
        (border, (border + 1) % 12)
    } else {
        (border - 12, border - 8)
    }
}

// Draws an order or a block.
fn draw_entry(draws: &mut Draws) -> Given
    ensures entry { result ≡ drawn.entry_from draws.old }
    ensures moved { draws.new ≡ state_after draws.old (drawn.entry_draws draws.old) }
{
    let terms = draw_terms(draws);
    match form_of(draws.below(10)) {
        Form::Hour => terms.order(Part::Hour, terms.lots, Kind::Limit),
        Form::Quarter => {
            let quarter = draws.below(4) + 1;
            terms.order(Part::Quarter(quarter), terms.lots, Kind::Limit)
        }
        Form::Ioc => terms.order(Part::Hour, terms.lots, Kind::Ioc),
        Form::Fok => terms.order(Part::Hour, terms.lots, Kind::Fok),
        Form::Iceberg => terms.iceberg(),
        Form::Block => terms.block(),
    }
}

// The forms of an entry.
#[derive(Clone, Copy)]
enum Form {
    // A limit order for an hour.
    Hour,
    // A limit order for a quarter of an hour.
    Quarter,
    // An immediate-or-cancel order for an hour.
    Ioc,
    // A fill-or-kill order for an hour.
    Fok,
    // An iceberg for an hour.
    Iceberg,
    // A block of two hours.
    Block,
}

// The form that a number below 10 stands for: five of them are plain limit orders for an hour.
fn form_of(number: u32) -> Form
    requires { number < 10 }
    ensures { result ≡ drawn.form_of number }
{
    match number {
        0..=4 => Form::Hour,
        5 => Form::Quarter,
        6 => Form::Ioc,
        7 => Form::Fok,
        8 => Form::Iceberg,
        _ => Form::Block,
    }
}

// What each entry draws, whatever its form.
#[derive(Clone, Copy)]
struct Terms {
    // The number of the trader, 1 to 6.
    trader: u32,
    // The number of the hour, 1 to 24.
    hour: u32,
    // The number of the zone, 0 to 11.
    zone: u32,
    // Whether it buys or sells.
    side: Side,
    // How much, 0.1 to 10.0 MW.
    lots: Lots,
    // The price, 40.00 to 60.00 a MWh.
    price: Price,
}

// Draws the terms, in the order of their fields.
fn draw_terms(draws: &mut Draws) -> Terms
    ensures terms { result ≡ drawn.terms_from draws.old }
    ensures moved { draws.new ≡ state_after draws.old 6 }
    ensures hour { result.hour < 25 }
    ensures lots { result.lots.0 < 101 }
{
    let trader = draws.below(6) + 1;
    let hour = draws.below(24) + 1;
    let zone = draws.below(12);
    let side = side_of(draws.below(2));
    let lots = Lots(draws.below(100) + 1);
    let price = Price(4000 + draws.below(2001) as i32);
    Terms {
        trader,
        hour,
        zone,
        side,
        lots,
        price,
    }
}

// The side that a number stands for: 0 buys, any other sells.
fn side_of(number: u32) -> Side
    ensures { result ≡ drawn.side_of number }
{
    if number == 0 { Side::Buy } else { Side::Sell }
}

impl Terms {
    // An order on these terms.
    fn order(&self, part: Part, quantity: Lots, kind: Kind) -> Given
        ensures { result ≡ drawn.order_on self.now part quantity kind }
    {
        let contract = Contract {
            hour: self.hour,
            part,
        };
        Given::Order {
            trader: self.trader,
            order: Order {
                contract,
                zone: self.zone,
                side: self.side,
                price: self.price,
                quantity,
                kind,
            },
        }
    }

    // An iceberg on these terms, of 1.0 MW more: it shows 1.0 MW at a time, and each next peak is
    // worse for its owner by 0.05 a MWh.
    fn iceberg(&self) -> Given
        requires { self.now.lots.0 < 101 }
        ensures { result ≡ drawn.iceberg_on self.now }
    {
        let kind = Kind::Iceberg {
            peak: Lots(10),
            delta: 5,
        };
        self.order(Part::Hour, Lots(self.lots.0 + 10), kind)
    }

    // A block on these terms: of 5.0 MW, for two hours from theirs on, or for the last two.
    fn block(&self) -> Given
        requires { self.now.hour < 25 }
        ensures { result ≡ drawn.block_on self.now }
    {
        let first = if self.hour == 24 { 23 } else { self.hour };
        Given::Block {
            trader: self.trader,
            order: BlockOrder {
                first,
                last: first + 1,
                zone: self.zone,
                side: self.side,
                price: self.price,
                quantity: Lots(50),
            },
        }
    }
}
